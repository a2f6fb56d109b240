//! The content of a leaf, which stands beside its node: a walk that reads no contents finds the nodes closer together.

ghost use Rattle.std.specs.Prelude.{◌≡◌, IfOk};

use lunit::{Copied, NoMemory};
use part_rules::Content;
use std::alloc::Global;
use std::marker::Model;
use std::rc::Rc;

/// The content of a leaf. Contracts see the content.
#[derive(Drop)]
pub struct SharedContent {
    content: Rc<Content>,
}

impl Model for SharedContent {
    ghost use Rattle.part_rules.specs.declared.content.Content.{Content};
    ghost use Rattle.part_rules.specs.contracts.content.Content as leaf_content;

    ghost Value = { Content };

    ghost coded = { leaf_content.the_row.coded };

    ghost view = { λ a. a.content.value };
}

impl SharedContent {
    /// This content; `NoMemory` where memory is wanting.
    pub fn new(alloc: Global, content: Content) -> Result<SharedContent, NoMemory>
        ensures { IfOk result (λ made. made ≡ content) }
    {
        Ok(SharedContent {
            content: Rc::new(alloc, content)?,
        })
    }

    /// The content.
    pub fn content(&self) -> &Content
        ensures { result.now ≡ self.now }
    {
        self.content.as_ref()
    }
}

impl Copied for SharedContent {
    fn copy(&self, alloc: Global) -> Result<SharedContent, NoMemory> {
        let content = self.content().copy(alloc)?;
        SharedContent::new(alloc, content)
    }
}
