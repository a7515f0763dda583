//! A handle of C: a pointer to an index, or null.
ghost use Rattle.std.specs.Prelude.{◌≡◌};
ghost use Rattle.std.specs.Option.{MatchOption};
ghost use Rattle.std.specs.declared.option.Option.{Option};
ghost use Rattle.std.specs.declared.option.Option.TheVariants.{None, Some};
ghost use Rattle.funnel_c.specs.declared.index.Index.{Index as IndexState};
ghost use Rattle.funnel_c.specs.Handles.{handle_owns, index_coded};

mod parts;

use crate::index::Index;
use parts::Parts;
use std::alloc::Global;
use std::marker::Model;
use std::mem;
use std::ptr::null_mut;

/// What C holds of an index: zeroes where there is none.
#[repr(C)]
pub struct Handle {
    ptr: *mut (),
    alloc: Global,
    pub ghost index: { Option IndexState } by { index_coded },
}

impl Model for Handle {
    ghost also_owns = { λ h. handle_owns h.alloc h.ptr h.index };
}

impl Handle {
    /// Takes the index out, if there is one.
    pub fn take(&mut self, alloc: Global) -> Option<Box<Index>>
        ensures result { MatchOption result (self.old.index ≡ None) (λ index. self.old.index ≡ Some index.value) }
        ensures empty { self.new.index ≡ None }
    {
        let held = mem::replace(self, Handle::empty(alloc));
        let parts = held.into_parts()?;
        Some(parts.into_box())
    }

    /// Puts an index in.
    pub fn put(&mut self, index: Box<Index>)
        ensures { self.new.index ≡ Some index.value }
    {
        let _ = mem::replace(self, Handle::of_parts(Parts::of(index)));
    }

    fn empty(alloc: Global) -> Handle
        ensures { result.index ≡ None }
    {
        let ptr = null_mut();
        Handle { ptr, alloc }
    }

    fn of_parts(parts: Parts<Index, Global>) -> Handle
        ensures { result.index ≡ Some parts.value }
    {
        let Parts { ptr, alloc } = parts;
        let ptr = ptr as *mut ();
        Handle { ptr, alloc }
    }

    fn into_parts(self) -> Option<Parts<Index, Global>>
        ensures { MatchOption result (self.index ≡ None) (λ parts. self.index ≡ Some parts.value) }
    {
        let Handle { ptr, alloc } = self;
        if ptr.is_null() {
            None
        } else {
            let ptr = ptr as *mut Index;
            Some(Parts { ptr, alloc })
        }
    }
}

impl Drop for Handle {
    fn drop(self) {
        if let Some(parts) = self.into_parts() {
            drop(parts.into_box());
        }
    }
}
