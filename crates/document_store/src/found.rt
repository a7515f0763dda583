ghost use Rattle.std.specs.Prelude.{◌≡◌, ℕ, ◌+◌, ◌≤◌, [], ◌∷◌, ◌++◌, length, map, IfOk, vec_capacity};
ghost use Rattle.std.specs.List.Sorted.{IsPermutation, IsSorted};
ghost use Rattle.document_store.specs.Finding.{pair_cmp};

use funnel_model::{Ids, Memory};
use std::alloc::Global;
use std::marker::Model;

/// The documents that a find found, as pairs of the place of the add and the number.
#[derive(Debug, Drop)]
pub struct Found {
    found: Vec<(u64, u64)>,
}

impl Model for Found {
    ghost use Rattle.std.specs.Prelude.{◌-◌, vec_capacity, vec_len};
    ghost use Rattle.document_store.specs.Finding.{FoundState};

    ghost Value = { FoundState };

    ghost view = { λ f. record { found = f.found.items; room = vec_capacity f.found - vec_len f.found } };
}

impl Found {
    /// None, without room.
    pub fn new(alloc: Global) -> Found
        ensures { result.found ≡ [] }
    {
        Found {
            found: Vec::new(alloc),
        }
    }

    /// None, with room for n.
    pub fn with_room(alloc: Global, n: usize) -> Result<Found, Memory>
        ensures empty { IfOk result (λ f. f.found ≡ []) }
        ensures room { IfOk result (λ f. f.room ≡ n) }
    {
        Ok(Found {
            found: Vec::with_capacity(alloc, n)?,
        })
    }

    /// Makes room for n more.
    pub fn reserve(&mut self, n: usize) -> Result<(), Memory>
        ensures found { self.new.found ≡ self.old.found }
        ensures room { IfOk result (λ _. n ≤ self.new.room) }
    {
        self.found.reserve(n)?;
        Ok(())
    }

    pub fn len(&self) -> usize
        ensures { result ≡ length self.now.found }
    {
        self.found.len()
    }

    pub fn as_slice(&self) -> &[(u64, u64)]
        ensures { result.now ≡ self.now.found }
    {
        self.found.as_slice()
    }

    /// The numbers, in the order of the pairs. They are put into `ids`, which is empty and has room for them.
    pub fn into_ids(self, ids: Vec<u64>) -> Ids
        requires empty { ids.items ≡ [] }
        requires room { length self.found ≤ vec_capacity ids }
        ensures { result ≡ map (λ (f : ℕ × ℕ). f.1) self.found }
    {
        let mut ids = ids;
        for (_, id) in self.found.as_slice() {
            ids.push_reserved(*id);
        }
        Ids::new(ids)
    }

    /// Appends a pair; there is room for it.
    pub(crate) fn push(&mut self, place: u64, id: u64)
        requires { 1 ≤ self.old.room }
        ensures found { self.new.found ≡ self.old.found ++ (place, id) ∷ [] }
        ensures room { self.new.room + 1 ≡ self.old.room }
    {
        self.found.push_reserved((place, id));
    }

    /// Puts them in order of the places. Runs that are in it are kept and merged, where there is memory for a buffer.
    pub fn sort(&mut self)
        ensures same { IsPermutation self.old.found self.new.found }
        ensures rising { IsSorted pair_cmp self.new.found }
        ensures room { self.new.room ≡ self.old.room }
    {
        if let Err(_) = self.found.sort() {
            self.found.as_mut_slice().sort_unstable();
        }
    }
}
