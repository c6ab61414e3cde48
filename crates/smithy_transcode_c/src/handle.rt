//! A table that C keeps: its box as a pointer, whose type doesn't tell what it points to.
ghost use Rattle.std.specs.Prelude.{◌≡◌, Option, Some};
ghost use Rattle.smithy_transcode_c.specs.declared.kept.Kept.{Kept};
ghost use Rattle.smithy_transcode_c.specs.Owned.{handle_owns, place_owns};

mod parts;

use crate::kept::Kept;
use parts::Parts;
use std::alloc::Global;
use std::marker::Model;

/// A table that C gives to a call.
#[repr(C)]
pub struct Handle {
    ptr: *mut u8,
    alloc: Global,
    pub ghost kept: { Kept },
}

impl Model for Handle {
    ghost also_owns = { λ h. handle_owns h.alloc h.ptr h.kept };
}

unsafe impl Send for Handle {}

/// Where C keeps a table between its calls, if it has one.
#[repr(C)]
#[derive(Drop)]
pub struct Place {
    ptr: *mut u8,
    alloc: Global,
    pub ghost kept: { Option Kept },
}

impl Model for Place {
    ghost also_owns = { λ p. place_owns p.alloc p.ptr p.kept };
}

impl Handle {
    /// The table, as it was given to C.
    pub(crate) fn into_box(self) -> Box<Kept>
        ensures { result.value ≡ self.kept }
    {
        self.into_parts().into_box()
    }

    fn into_parts(self) -> Parts<Kept, Global>
        ensures { result.value ≡ self.kept }
    {
        let Handle { ptr, alloc } = self;
        let ptr = ptr as *mut Kept;
        Parts { ptr, alloc }
    }
}

impl Place {
    /// The place of a table that C is to keep.
    pub(crate) fn of(kept: Box<Kept>) -> Place
        ensures { result.kept ≡ Some kept.value }
    {
        Place::of_parts(Parts::of(kept))
    }

    fn of_parts(parts: Parts<Kept, Global>) -> Place
        ensures { result.kept ≡ Some parts.value }
    {
        let Parts { ptr, alloc } = parts;
        let ptr = ptr as *mut u8;
        Place { ptr, alloc }
    }
}
