//! What takes the boxes of a tree as the walk finds them, one after the other.

ghost use Rattle.std.specs.Prelude.{◌≡◌, ◌++◌, ◌∷◌, [], List, OnOk};
ghost use Rattle.box_layout.specs.Adding.{boxes_join, boxes_none};
ghost use Rattle.tree_rules.specs.Answers.{Box};

use lunit::{Name, NoMemory, Rect};
use std::alloc::Global;

/// What takes the boxes of a tree, one after the other in document order.
pub trait BoxSink {
    /// That it took these boxes between two of its states, the earlier one first.
    ghost adds: { Self → Self → List Box → Type 0 };

    /// Hears how many boxes will come. It may make room for them, and takes none; where there is no
    /// such room it takes them all the same.
    fn make_room(&mut self, count: usize)
        ensures { adds self.old self.new [] };

    /// Takes the box of a node: its name and its border box, in units of 1/64 px. `NoMemory` where memory is wanting.
    fn take(&mut self, name: &Name, rect: Rect) -> Result<(), NoMemory>
        ensures { OnOk result (adds self.old self.new ((name.now, rect) ∷ [])) };

    /// It took no boxes where nothing happened.
    ghost adds_none: { (a : Self) → adds a a [] };

    /// What it took one after the other it took.
    ghost adds_both: { (a b c : Self) (x y : List Box) → adds a b x → adds b c y → adds a c (x ++ y) };
}

/// The boxes of a tree as a list.
#[derive(Drop)]
pub struct BoxList {
    /// The name and the border box of each node, in units of 1/64 px.
    pub boxes: Vec<(Name, Rect)>,
}

impl BoxList {
    /// No boxes. Takes no memory.
    pub fn new(alloc: Global) -> BoxList
        ensures { result.boxes.items ≡ [] }
    {
        BoxList {
            boxes: Vec::new(alloc),
        }
    }
}

impl BoxSink for BoxList {
    ghost adds = { λ a b more. b.boxes.items ≡ a.boxes.items ++ more };

    ghost adds_none = { λ a. boxes_none a.boxes.items };

    ghost adds_both = { λ a b c x y first second. boxes_join a.boxes.items b.boxes.items c.boxes.items x y first second };

    fn make_room(&mut self, count: usize) {
        let _ = self.boxes.reserve(count);
    }

    // The place is made before the name is read, so that a box is written in its place alone.
    fn take(&mut self, name: &Name, rect: Rect) -> Result<(), NoMemory> {
        self.boxes.reserve(1)?;
        self.boxes.push_reserved((*name, rect));
        Ok(())
    }
}
