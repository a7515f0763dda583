//! The layouts of slices.
ghost use Rattle.std.specs.Prelude.{◌≡◌, ℕ, ◌+◌, ◌^◌, ◌<◌, ◌≤◌, [], Some, None, length, slice_index_or, vec_capacity, Contains, IfOk, MatchOption};
ghost use Rattle.funnel_model.specs.declared.config.TheConstants.{MOST_SLICES};
ghost use Rattle.row_layout.specs.Layouts.{LayoutId};
ghost use Rattle.commit_desk.specs.declared.find_layouts.FindLayout.{FindLayout};
ghost use Rattle.commit_desk.specs.Layouts.{AreFirst, IsCurrentOf, IsEntryOf, IsLaidBy, with_tuning};
ghost use Rattle.commit_desk.specs.Treatments.{AddsShare, AreShared, EndsEntry, EndsNoEntry, IsBesideWhereUnused, IsRenewed, TakesCurrent};

use crate::find_layouts::{FindLayout, FindLayouts};
use crate::shared_layout::SharedLayout;
use funnel_model::{Memory, SliceSet};
use row_layout::Layout;
use slice_stages::all_below;
use std::alloc::Global;
use std::marker::Model;
use std::mem;

/// The layouts of slices, by their treatments. After a tuning a slice keeps its treatment until it is cleared.
/// Contracts see the entries of the treatments, the layout that is kept beside them, and how many tunings there were.
#[derive(Debug, Drop)]
pub struct SliceLayouts {
    /// An entry for each treatment that some slice has. Its number is that of the tunings up to it.
    treatments: Vec<FindLayout>,
    /// The current layout, while no slice has the current treatment.
    next: Option<SharedLayout>,
    /// How many tunings there were.
    tunings: u64,
}

impl Model for SliceLayouts {
    ghost use Rattle.std.specs.Prelude.{vec_capacity};
    ghost use Rattle.commit_desk.specs.Layouts.{LayoutsState};
    ghost use Rattle.commit_desk.specs.Treatments.{AreTreatments};

    ghost Value = { LayoutsState };

    ghost view = { λ l. record { treatments = l.treatments.items; next = l.next; tunings = l.tunings } };

    ghost invariant = { λ l. AreTreatments (vec_capacity l.treatments) (record {
      treatments = l.treatments.items;
      next = l.next;
      tunings = l.tunings;
    }) };
}

impl SliceLayouts {
    /// This layout for each of so many slices, of which there is one at least. It has room for a treatment of each.
    pub(crate) fn new(alloc: Global, layout: Layout, slices: u32) -> Result<SliceLayouts, Memory>
        requires some { 1 ≤ slices }
        requires few { slices ≤ MOST_SLICES }
        ensures { IfOk result (λ l. AreFirst slices layout l) }
    {
        let layout = SharedLayout::new(alloc, layout)?;
        let mut treatments = Vec::with_capacity(alloc, slices as usize)?;
        let slices = all_below(slices);
        treatments.push_reserved(FindLayout {
            number: 0,
            layout,
            slices,
        });
        Ok(SliceLayouts {
            treatments,
            next: None,
            tunings: 0,
        })
    }

    /// How many tunings there were.
    pub(crate) fn tunings(&self) -> u64
        ensures { result ≡ self.now.tunings }
    {
        self.tunings
    }

    /// The layout of a slice.
    pub(crate) fn of(&self, slice: u32) -> Result<SharedLayout, Memory>
        requires { (entry : FindLayout) × IsEntryOf self.now slice entry }
        ensures { IfOk result (λ layout. IsLaidBy self.now slice layout) }
    {
        let index = self.index_of(slice);
        self.treatments[index].layout.share()
    }

    /// The current layout, which a slice has once it is cleared.
    pub(crate) fn current(&self) -> Result<SharedLayout, Memory>
        ensures { IfOk result (λ layout. IsCurrentOf self.now layout) }
    {
        if let Some(layout) = &self.next {
            return layout.share();
        }
        let index = current_of(&self.treatments, self.tunings);
        self.treatments[index].layout.share()
    }

    /// A slice is cleared, and has the current treatment from then on. Where it had an older one that no other slice has, the layout of
    /// that is handed back.
    pub(crate) fn renew(&mut self, slice: u32) -> Option<SharedLayout>
        requires { (entry : FindLayout) × IsEntryOf self.old slice entry }
        ensures cleared { IsRenewed self.old slice self.new }
        ensures old { MatchOption result (EndsNoEntry self.old slice) (EndsEntry self.old slice) }
    {
        let index = self.index_of(slice);
        if self.treatments[index].number == self.tunings {
            return None;
        }
        let mut old = self.treatments.swap_remove(index);
        let mut current = take_current(&mut self.treatments, &mut self.next, self.tunings);
        old.slices.remove(slice);
        current.slices.add(slice);
        self.treatments.push_reserved(current);
        if old.slices.lowest().is_none() {
            return Some(old.layout);
        }
        self.treatments.push_reserved(old);
        None
    }

    /// One more tuning. Its layout is kept until a slice has it, and what was kept before is handed back in its place.
    pub(crate) fn tune(&mut self, next: &mut Option<SharedLayout>)
        requires some { (layout : LayoutId) × (next.old ≡ Some layout) }
        requires few { self.old.tunings < 2 ^ 63 }
        ensures after { self.new ≡ with_tuning self.old next.old }
        ensures before { next.new ≡ self.old.next }
        ensures current { IsBesideWhereUnused self.old next.new }
    {
        mem::swap(&mut self.next, next);
        self.tunings += 1;
    }

    /// Puts each of these slices into an entry with its layout, one for each treatment that some of them has.
    pub(crate) fn share_out(
        &self,
        slices: &SliceSet,
        layouts: &mut FindLayouts,
    ) -> Result<(), Memory>
        requires { layouts.old.entries.items ≡ [] }
        ensures shared { IfOk result (λ _. AreShared self.now.treatments slices.now layouts.new.entries.items) }
        ensures room { vec_capacity layouts.old.entries ≤ vec_capacity layouts.new.entries }
    {
        for index in 0..self.treatments.len() {
            share_one(&self.treatments[index], slices, layouts)?;
        }
        Ok(())
    }

    // The place of a slice's entry.
    fn index_of(&self, slice: u32) -> usize
        requires { (entry : FindLayout) × IsEntryOf self.now slice entry }
        ensures in_range { result < length self.now.treatments }
        ensures has { (d : FindLayout) → Contains (slice_index_or self.now.treatments result d).slices slice }
    {
        for index in 0..self.treatments.len() {
            if self.treatments[index].slices.has(slice) {
                return index;
            }
        }
        unreachable!()
    }
}

// The place of the entry with this number.
fn current_of(treatments: &[FindLayout], number: u64) -> usize
    requires { (entry : FindLayout) × Contains treatments.now entry × (entry.number ≡ number) }
    ensures in_range { result < length treatments.now }
    ensures is { (d : FindLayout) → (slice_index_or treatments.now result d).number ≡ number }
{
    for index in 0..treatments.len() {
        if treatments[index].number == number {
            return index;
        }
    }
    unreachable!()
}

// Takes the entry of the current treatment out, whose number this is. Where no slice has it yet, it is a new one, with the layout that
// was kept.
fn take_current(
    treatments: &mut Vec<FindLayout>,
    next: &mut Option<SharedLayout>,
    number: u64,
) -> FindLayout
    requires { next.old ≡ None → (entry : FindLayout) × Contains treatments.old.items entry × (entry.number ≡ number) }
    ensures taken { TakesCurrent treatments.old.items next.old number result treatments.new.items }
    ensures none { next.new ≡ None }
    ensures room { vec_capacity treatments.new ≡ vec_capacity treatments.old }
{
    let Some(layout) = next.take() else {
        let index = current_of(treatments, number);
        return treatments.swap_remove(index);
    };
    FindLayout {
        number,
        layout,
        slices: SliceSet::new(),
    }
}

// Adds an entry with those slices of the set that have this treatment, where some have it.
fn share_one(whole: &FindLayout, slices: &SliceSet, layouts: &mut FindLayouts) -> Result<(), Memory>
    ensures adds { IfOk result (λ _. AddsShare slices.now whole.now layouts.old.entries.items layouts.new.entries.items) }
    ensures room { vec_capacity layouts.old.entries ≤ vec_capacity layouts.new.entries }
{
    let slices = whole.slices.both(slices);
    if slices.lowest().is_none() {
        return Ok(());
    }
    let layout = whole.layout.share()?;
    layouts.push(FindLayout {
        number: whole.number,
        layout,
        slices,
    })
}
