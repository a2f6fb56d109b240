ghost use Rattle.std.specs.Prelude.{◌≡◌, ◌∷◌, [], OnOk, OnErr, IfOk};
ghost use Rattle.plain_tree.specs.Trees.{leafless, joined, count_of};
ghost use Rattle.doc_text.specs.View.{trees_of};

use crate::kind::Kind;
use lunit::{Copied, Lu, Name, NoMemory};
use std::alloc::Global;
use std::marker::Model;
use style_types::Declared;

/// A document: the version of the language, 1 or 2, the size of the viewport, and the tree of
/// nodes.
#[derive(Drop)]
pub struct Doc {
    pub version: u8,
    pub width: Lu,
    pub height: Lu,
    pub root: Plain,
}

/// A node and all below it.
#[cycle(plain)]
#[derive(Drop)]
pub struct Plain {
    pub name: Name,
    pub kind: Kind,
    pub style: Declared,
    pub children: Children,
}

/// The children of a node, in order. Contracts see them as a list of trees.
#[cycle(plain)]
#[derive(Drop)]
pub struct Children {
    nodes: Vec<Plain>,
}

impl Model for Children {
    ghost use Rattle.plain_tree.specs.Trees.{Trees, coded_trees, size_of};
    ghost use Rattle.doc_text.specs.Label.{Label, coded_label};

    ghost Value = { Trees Label };

    ghost coded = { coded_trees coded_label };

    ghost use Rattle.doc_text.specs.View.{trees_of};

    ghost view = { λ a. trees_of a.nodes.items };

    ghost size = { size_of };

    ghost use Rattle.std.proofs.Common.{arith};
    ghost use Rattle.doc_text.specs.Falls.{most_le-size};

    ghost size_decreases = { λ a h. omega (arith, most_le-size a.nodes.items) };
}

impl Children {
    /// No children. Takes no memory.
    pub fn new(alloc: Global) -> Children
        ensures { result ≡ leafless }
    {
        Children {
            nodes: Vec::new(alloc),
        }
    }

    /// The children, in order.
    pub fn nodes(&self) -> &[Plain]
        ensures { trees_of result.now ≡ self.now }
    {
        &self.nodes
    }

    #[tactic(auto, using(crate::proofs::Nodes::count_trees_of))]
    /// How many children there are, without those below them.
    pub fn len(&self) -> usize
        ensures { result ≡ count_of self.now }
    {
        self.nodes.len()
    }

    /// Adds a child at the end, or answers `NoMemory`: then the children are unchanged.
    pub fn push(&mut self, node: Plain) -> Result<(), NoMemory>
        ensures ok { OnOk result (self.new ≡ joined self.old (trees_of (node ∷ []))) }
        ensures err { OnErr result (self.new ≡ self.old) }
    {
        self.nodes.push(node)?;
        Ok(())
    }
}

#[tactic(auto, using(crate::proofs::Nodes::child_laws))]
/// A copy of a node and of all below it.
fn copy_node(node: &Plain, alloc: Global) -> Result<Plain, NoMemory>
    ensures { IfOk result (λ copy. copy ≡ node.now) }
{
    let mut children = Children::new(alloc);
    for child in node.children.nodes() {
        children.push(copy_node(child, alloc)?)?;
    }
    Ok(Plain {
        name: node.name,
        kind: node.kind.copy(alloc)?,
        style: node.style.copy(alloc)?,
        children,
    })
}

impl Copied for Plain {
    fn copy(&self, alloc: Global) -> Result<Plain, NoMemory> {
        copy_node(self, alloc)
    }
}

impl Copied for Doc {
    fn copy(&self, alloc: Global) -> Result<Doc, NoMemory> {
        Ok(Doc {
            version: self.version,
            width: self.width,
            height: self.height,
            root: self.root.copy(alloc)?,
        })
    }
}
