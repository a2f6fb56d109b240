ghost use Rattle.std.specs.Prelude.{◌≡◌, IfOk, take};

use crate::{NoMemory, Sequence};
use std::alloc::Global;

/// A value that is copied where there is memory, and then equals its copy.
pub trait Copied {
    /// An equal value, or `NoMemory` where memory is wanting.
    fn copy(&self, alloc: Global) -> Result<Self, NoMemory>
        ensures { IfOk result (λ copy. copy ≡ self.now) };
}

impl<T: Copied + Drop> Copied for Sequence<T> {
    fn copy(&self, alloc: Global) -> Result<Sequence<T>, NoMemory> {
        let mut all = Sequence::new(alloc);
        for item in self.as_slice() {
            all.push(item.copy(alloc)?)?;
        }
        Ok(all)
    }
}

impl<T: Copied> Copied for Option<T> {
    fn copy(&self, alloc: Global) -> Result<Option<T>, NoMemory> {
        match self {
            Some(item) => Ok(Some(item.copy(alloc)?)),
            None => Ok(None),
        }
    }
}
