//! What C holds: a handle, and whether it has a document.
ghost use Rattle.std.specs.Prelude.{◌≡◌, Some, None, false};
ghost use Rattle.std.specs.Option.{IsNone, MatchOption};
ghost use Rattle.gridlay_c.specs.Slots.{IsTrue};

use crate::handle::Handle;
use crate::parts::Parts;
use open_document::OpenDocument;
use std::alloc::Global;
use std::mem;

/// A document that C holds, or none. C makes it of zeros, and then only hands it on.
#[repr(C)]
#[derive(Drop)]
pub struct Slot {
    pub full: bool,
    pub handle: Handle,
}

impl Slot {
    /// A slot without a document.
    fn empty(alloc: Global) -> Slot
        ensures { (result.full ≡ false) × (result.handle.held ≡ None) }
    {
        Slot {
            full: false,
            handle: Handle::none(alloc),
        }
    }

    /// Takes the document out.
    pub fn take(&mut self, alloc: Global) -> Option<Box<OpenDocument>>
        requires { IsTrue self.old }
        ensures document { MatchOption result (IsNone self.old.handle.held) (λ b. self.old.handle.held ≡ Some b.value) }
        ensures empty { self.new.handle.held ≡ None }
        ensures mark { IsTrue self.new }
    {
        let slot = mem::replace(self, Slot::empty(alloc));
        let Slot { full, handle } = slot;
        if full {
            Some(handle.into_parts().into_box())
        } else {
            None
        }
    }

    /// Puts a document in.
    pub fn put(&mut self, document: Box<OpenDocument>)
        requires { self.old.handle.held ≡ None }
        ensures document { self.new.handle.held ≡ Some document.value }
        ensures mark { IsTrue self.new }
    {
        *self = Slot {
            full: true,
            handle: Handle::of_parts(Parts::of(document)),
        };
    }
}
