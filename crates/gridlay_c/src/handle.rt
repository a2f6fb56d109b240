//! A document behind a pointer that C holds.
ghost use Rattle.std.specs.Prelude.{◌≡◌, Option, Some, None};
ghost use Rattle.std.specs.Option.{IsSome};
ghost use Rattle.open_document.specs.Opened.{Opened};
ghost use Rattle.gridlay_c.specs.Owned.{held_coded, handle_owns};

use crate::parts::Parts;
use open_document::OpenDocument;
use std::alloc::Global;
use std::marker::Model;

/// A document in a block of its own, or nothing.
#[repr(C)]
#[derive(Drop)]
pub struct Handle {
    at: *mut u8,
    alloc: Global,
    pub ghost held: { Option Opened } by { held_coded },
}

impl Model for Handle {
    ghost also_owns = { λ h. handle_owns h.alloc h.at h.held };
}

impl Handle {
    /// Nothing.
    pub fn none(alloc: Global) -> Handle
        ensures { result.held ≡ None }
    {
        Handle {
            at: std::ptr::null_mut(),
            alloc,
        }
    }

    /// The document of these parts.
    pub fn of_parts(parts: Parts<OpenDocument, Global>) -> Handle
        ensures { result.held ≡ Some parts.value }
    {
        let Parts { ptr, alloc } = parts;
        Handle {
            at: ptr as *mut u8,
            alloc,
        }
    }

    /// The parts of the document that is held.
    pub fn into_parts(self) -> Parts<OpenDocument, Global>
        requires { IsSome self.held }
        ensures { self.held ≡ Some result.value }
    {
        let Handle { at, alloc } = self;
        Parts {
            ptr: at as *mut OpenDocument,
            alloc,
        }
    }
}
