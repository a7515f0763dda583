ghost use Rattle.std.specs.Prelude.{◌≡◌, ℕ, ◌*◌, ◌<◌, length, replicate, false, true, IfOk, IsSome};
ghost use Rattle.std.specs.declared.option.Option.TheVariants.{Some, None};
ghost use Rattle.std.specs.Option.{option_map};
ghost use Rattle.document_store.specs.Slots.{ComesPastOver, MayHold, HasDocRightly, IsColumn, IsLiveColumn, free_slot, is_out, is_over, slot_at, slots_of};
ghost use Rattle.document_store.specs.Slots.{with_slice, with_slot, without_doc, without_slice};
ghost use Rattle.document_store.specs.declared.column.Column.TheVariants.{Dropped, Free, Live, Over, Pending};

use crate::column::Column;
use crate::doc::Doc;
use crate::slots::{FreeSlots, OldSlots, Slot, Slots};
use funnel_model::Memory;
use std::alloc::Global;
use std::marker::Model;

/// What is kept of each column of each slice. Slices and columns count from 0. Only `new` takes memory. While a slice is
/// cleared its slots are out of the records.
#[derive(Debug, Drop)]
pub struct Records {
    slices: u32,
    columns: u32,
    // The slots of each slice, or none where they were taken out.
    held: Vec<Option<Slots>>,
    // How many of the first columns of each slice are over.
    first_over: Vec<u32>,
    // What is kept of each column of a slice whose slots were taken out.
    free: Slot,
}

impl Model for Records {
    ghost use Rattle.std.specs.Prelude.{◌≡◌};
    ghost use Rattle.document_store.specs.Slots.{AreHeld, IsTable, Table, free_slot, table_of};

    ghost Value = { Table };

    ghost view = { λ r. table_of r.slices r.columns r.held.items };

    ghost invariant = { λ r. AreHeld r.slices r.columns r.held.items
        × IsTable (table_of r.slices r.columns r.held.items) r.first_over.items × (r.free ≡ free_slot) };
}

impl Records {
    /// So many slices of so many columns, all of which are free.
    pub fn new(alloc: Global, slices: u32, columns: u32) -> Result<Records, Memory>
        ensures slices { IfOk result (λ r. r.slices ≡ slices) }
        ensures columns { IfOk result (λ r. r.columns ≡ columns) }
        ensures free { IfOk result (λ r. r.slots ≡ replicate (slices * columns) free_slot) }
        ensures all_there { IfOk result (λ r. r.out ≡ replicate slices false) }
    {
        let mut held = Vec::with_capacity(alloc, slices as usize)?;
        for _ in 0..slices {
            held.push_reserved(Some(Slots::free(alloc, columns)?));
        }
        Ok(Records {
            slices,
            columns,
            held,
            first_over: vec![in alloc; 0; slices as usize]?,
            free: Slot::free(),
        })
    }

    /// What became of the column.
    pub fn state(&self, slice: u32, column: u32) -> Column
        requires { IsColumn self.now slice column }
        ensures state { result ≡ (slot_at self.now slice column).column }
        ensures fits { MayHold (slot_at self.now slice column).column (slot_at self.now slice column).doc }
        ensures every_column { length self.now.slots ≡ self.now.slices * self.now.columns }
    {
        self.slot(slice, column).column
    }

    /// The column's document. A column that is live has one. One that is over has it until it is taken, and no other has one.
    pub fn doc(&self, slice: u32, column: u32) -> Option<&Doc>
        requires { IsColumn self.now slice column }
        ensures doc { option_map (λ d. d.now) result ≡ (slot_at self.now slice column).doc }
        ensures kept { IsLiveColumn (slot_at self.now slice column).column → IsSome result }
        ensures fits { MayHold (slot_at self.now slice column).column (slot_at self.now slice column).doc }
        ensures every_column { length self.now.slots ≡ self.now.slices * self.now.columns }
    {
        self.slot(slice, column).doc.as_ref()
    }

    /// What is kept of the column.
    pub(crate) fn slot(&self, slice: u32, column: u32) -> &Slot
        requires { IsColumn self.now slice column }
        ensures slot { result.now ≡ slot_at self.now slice column }
        ensures fits { MayHold (slot_at self.now slice column).column (slot_at self.now slice column).doc }
        ensures every_column { length self.now.slots ≡ self.now.slices * self.now.columns }
    {
        match &self.held[slice as usize] {
            Some(slots) => slots.slot(column),
            None => &self.free,
        }
    }

    /// How many of the slice's first columns are over, before the first that isn't.
    pub fn first_over(&self, slice: u32) -> u32
        requires { slice < self.now.slices }
        ensures { ComesPastOver (slots_of self.now slice) 0 result }
    {
        self.first_over[slice as usize]
    }

    /// A pass claims a free column of a slice whose slots are there.
    pub fn claim(&mut self, slice: u32, column: u32, pass: u32)
        requires in_range { IsColumn self.old slice column }
        requires there { is_out self.old slice ≡ false }
        requires free { (slot_at self.old slice column).column ≡ Free }
        ensures { self.new ≡ with_slot self.old slice column (record { column = Pending pass; doc = None }) }
    {
        let slot = Slot {
            column: Column::Pending(pass),
            doc: None,
        };
        self.set(slice, column, slot);
    }

    /// The document of a pending column goes live: it was added at this place, and the event with this number puts it here.
    pub fn live(&mut self, slice: u32, column: u32, doc: Doc, place: u64, since: u64)
        requires in_range { IsColumn self.old slice column }
        requires pending { (pass : ℕ) × ((slot_at self.old slice column).column ≡ Pending pass) }
        ensures { self.new ≡ with_slot self.old slice column (record { column = Live place since; doc = Some doc }) }
    {
        let slot = Slot {
            column: Column::Live { place, since },
            doc: Some(doc),
        };
        self.set(slice, column, slot);
    }

    /// A pending column gets no document after all.
    pub fn drop_column(&mut self, slice: u32, column: u32)
        requires in_range { IsColumn self.old slice column }
        requires pending { (pass : ℕ) × ((slot_at self.old slice column).column ≡ Pending pass) }
        ensures { self.new ≡ with_slot self.old slice column (record { column = Dropped; doc = None }) }
    {
        let _ = &self.held;
        self.end(slice, column, Column::Dropped);
    }

    /// The event with this number takes the document off a live column, which keeps it until it is taken: finds that began before may still
    /// see it. The number of the event that had put it there.
    pub fn delete(&mut self, slice: u32, column: u32, until: u64) -> u64
        requires in_range { IsColumn self.old slice column }
        requires live { (place since : ℕ) × ((slot_at self.old slice column).column ≡ Live place since) }
        ensures table { (place since : ℕ) → (slot_at self.old slice column).column ≡ Live place since →
            self.new ≡ with_slot self.old slice column (record { column = Over place since until; doc = (slot_at self.old slice column).doc }) }
        ensures since { (place since : ℕ) → (slot_at self.old slice column).column ≡ Live place since → result ≡ since }
    {
        let Column::Live { place, since } = self.state(slice, column) else {
            unreachable!()
        };
        self.end(
            slice,
            column,
            Column::Over {
                place,
                since,
                until,
            },
        );
        since
    }

    /// Takes the document of a column that is over, where it has it still. The column keeps its numbers.
    pub fn take_doc(&mut self, slice: u32, column: u32) -> Option<Doc>
        requires in_range { IsColumn self.old slice column }
        requires over { is_over (slot_at self.old slice column) ≡ true }
        ensures doc { result ≡ (slot_at self.old slice column).doc }
        ensures table { self.new ≡ with_slot self.old slice column (without_doc (slot_at self.old slice column)) }
    {
        let Some(slots) = &mut self.held[slice as usize] else {
            unreachable!()
        };
        slots.take_doc(column)
    }

    // Makes this what is kept of a column that is not over, before and after. Where it is free, its slice's slots are there.
    fn set(&mut self, slice: u32, column: u32, slot: Slot)
        requires in_range { IsColumn self.old slice column }
        requires there { (slot_at self.old slice column).column ≡ Free → is_out self.old slice ≡ false }
        requires not_over { is_over (slot_at self.old slice column) ≡ false }
        requires still { is_over slot ≡ false }
        requires fits { HasDocRightly slot }
        ensures { self.new ≡ with_slot self.old slice column slot }
    {
        let Some(slots) = &mut self.held[slice as usize] else {
            unreachable!()
        };
        slots.set(column, slot);
    }

    // Says what became of a column that is over from now on, whose document stays, and comes past the slice's first columns that are over:
    // each is passed once, until the slots are taken out. Where the column is free, its slice's slots are there.
    fn end(&mut self, slice: u32, column: u32, became: Column)
        requires in_range { IsColumn self.old slice column }
        requires there { (slot_at self.old slice column).column ≡ Free → is_out self.old slice ≡ false }
        requires not_over { is_over (slot_at self.old slice column) ≡ false }
        requires fits { MayHold became (slot_at self.old slice column).doc }
        ensures { self.new ≡ with_slot self.old slice column (record { column = became; doc = (slot_at self.old slice column).doc }) }
    {
        let Some(slots) = &mut self.held[slice as usize] else {
            unreachable!()
        };
        slots.set_column(column, became);
        let first_over = &mut self.first_over[slice as usize];
        *first_over = slots.past_over(*first_over, self.columns);
    }

    /// Takes the slots of a slice out, with its documents: all its columns are free from then on, and none of them is claimed
    /// until `put_back`.
    pub fn take_out(&mut self, slice: u32) -> OldSlots
        requires in_range { slice < self.old.slices }
        requires there { is_out self.old slice ≡ false }
        ensures table { self.new ≡ without_slice self.old slice }
        ensures columns { result ≡ self.old.columns }
    {
        let Some(slots) = self.held[slice as usize].take() else {
            unreachable!()
        };
        self.first_over[slice as usize] = 0;
        OldSlots { slots }
    }

    /// Puts free slots back for a slice whose slots were taken out: as many as a slice has columns.
    pub fn put_back(&mut self, slice: u32, slots: FreeSlots)
        requires in_range { slice < self.old.slices }
        requires out { is_out self.old slice ≡ true }
        requires columns { slots ≡ self.old.columns }
        ensures { self.new ≡ with_slice self.old slice }
    {
        let FreeSlots { slots } = slots;
        self.held[slice as usize] = Some(slots);
    }
}
