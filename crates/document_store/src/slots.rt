//! The slots of a slice: in the records, and outside of them while the slice is cleared.
ghost use Rattle.std.specs.Prelude.{◌≡◌, ◌<◌, ◌≤◌, length, replicate, slice_index_or, slice_set, IfOk};
ghost use Rattle.document_store.specs.Slots.{ComesPastOver, free_slot, is_over, without_doc};

use crate::column::Column;
use crate::doc::Doc;
use funnel_model::Memory;
use std::alloc::Global;
use std::marker::Model;

/// What is kept of a column: what became of it, and its document.
#[derive(Debug, Drop)]
pub struct Slot {
    pub column: Column,
    pub doc: Option<Doc>,
}

impl Slot {
    /// What is kept of a free column.
    pub(crate) fn free() -> Slot
        ensures { result ≡ free_slot }
    {
        Slot {
            column: Column::Free,
            doc: None,
        }
    }

    /// Whether the column is over: its document was deleted or moved away, or it got none.
    fn is_over(&self) -> bool
        ensures { result ≡ is_over self.now }
    {
        matches!(self.column, Column::Over { .. } | Column::Dropped)
    }
}

/// The slots of a slice, one for each column.
#[derive(Debug, Drop)]
pub(crate) struct Slots {
    slots: Vec<Slot>,
}

impl Model for Slots {
    ghost use Rattle.std.specs.Prelude.{List};
    ghost use Rattle.document_store.specs.declared.slots.Slot.{Slot};

    ghost Value = { List Slot };

    ghost view = { λ s. s.slots.items };
}

impl Slots {
    /// So many free slots. Only this takes memory.
    pub fn free(alloc: Global, columns: u32) -> Result<Slots, Memory>
        ensures { IfOk result (λ slots. slots ≡ replicate columns free_slot) }
    {
        let mut slots = Vec::with_capacity(alloc, columns as usize)?;
        for _ in 0..columns {
            slots.push_reserved(Slot::free());
        }
        Ok(Slots { slots })
    }

    /// The column's slot.
    pub fn slot(&self, column: u32) -> &Slot
        requires { column < length self.now }
        ensures { result.now ≡ slice_index_or self.now column free_slot }
    {
        &self.slots[column as usize]
    }

    /// Makes this the column's slot.
    pub fn set(&mut self, column: u32, slot: Slot)
        requires { column < length self.old }
        ensures { self.new ≡ slice_set self.old column slot }
    {
        self.slots[column as usize] = slot;
    }

    /// Says what became of the column, whose document stays.
    pub fn set_column(&mut self, column: u32, became: Column)
        requires { column < length self.old }
        ensures { self.new ≡ slice_set self.old column (record { column = became; doc = (slice_index_or self.old column free_slot).doc }) }
    {
        self.slots[column as usize].column = became;
    }

    /// Takes the column's document, where there is one.
    pub fn take_doc(&mut self, column: u32) -> Option<Doc>
        requires { column < length self.old }
        ensures doc { result ≡ (slice_index_or self.old column free_slot).doc }
        ensures slots { self.new ≡ slice_set self.old column (without_doc (slice_index_or self.old column free_slot)) }
    {
        self.slots[column as usize].doc.take()
    }

    /// Comes from this slot on past those that are over. There are so many slots.
    pub fn past_over(&self, from: u32, columns: u32) -> u32
        requires columns { columns ≡ length self.now }
        requires within { from ≤ length self.now }
        ensures { ComesPastOver self.now from result }
    {
        let mut column = from;
        while column < columns && self.slot(column).is_over() {
            column += 1;
        }
        column
    }

    /// Makes each of them free, and drops the documents.
    fn empty(&mut self)
        ensures { self.new ≡ replicate (length self.old) free_slot }
    {
        free_all(self.slots.as_mut_slice());
    }
}

/// Makes each of the slots free.
fn free_all(slots: &mut [Slot])
    ensures { slots.new ≡ replicate (length slots.old) free_slot }
{
    for slot in slots.iter_mut() {
        *slot = Slot::free();
    }
}

/// The slots of a slice as they left the records, with the documents of its columns. They are emptied and put back; nothing
/// else becomes of them. Contracts see how many they are.
#[derive(Debug)]
pub struct OldSlots {
    pub(crate) slots: Slots,
}

impl Model for OldSlots {
    ghost use Rattle.std.specs.Prelude.{ℕ, length};

    ghost Value = { ℕ };

    ghost view = { λ s. length s.slots };
}

impl OldSlots {
    /// Makes each slot free, and drops the documents. This takes a while where they are many, and it takes no memory.
    pub fn empty(self) -> FreeSlots
        ensures { result ≡ self }
    {
        let OldSlots { mut slots } = self;
        slots.empty();
        FreeSlots { slots }
    }
}

/// The slots of a slice, each of which is free. Contracts see how many they are.
#[derive(Debug)]
pub struct FreeSlots {
    pub(crate) slots: Slots,
}

impl Model for FreeSlots {
    ghost use Rattle.std.specs.Prelude.{◌≡◌, ℕ, length, replicate};
    ghost use Rattle.document_store.specs.Slots.{free_slot};

    ghost Value = { ℕ };

    ghost view = { λ s. length s.slots };

    ghost invariant = { λ s. s.slots ≡ replicate (length s.slots) free_slot };
}
