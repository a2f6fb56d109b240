ghost use Rattle.std.specs.Prelude.{◌≡◌, ◌||◌, ◌&&◌};
ghost use Rattle.tree_rules.specs.Chains.{has_subgrid, is_grid_kind};
ghost use Rattle.tree_rules.specs.Labels.{grid_of};

use crate::node::Node;
use crate::style::is_subgrid;
use layout_cache::Linked;
use style_types::Style;
use tree_rules::NodeKind;

/// Whether a template is `subgrid` in either axis.
fn has_subgrid(style: &Style) -> bool
    ensures { result ≡ has_subgrid (grid_of style.now) }
{
    is_subgrid::<0>(style) || is_subgrid::<1>(style)
}

/// Whether a node is a grid container.
fn is_grid(kind: &NodeKind) -> bool
    ensures { result ≡ is_grid_kind kind.now }
{
    match kind {
        NodeKind::Grid => true,
        _ => false,
    }
}

impl Linked for Node {
    ghost use Rattle.std.specs.Prelude.{◌&&◌, []};
    ghost use Rattle.tree_rules.specs.Chains.{has_subgrid, is_grid_kind};
    ghost use Rattle.tree_rules.specs.Labels.{grid_of};
    ghost use Rattle.placing.specs.Told.{next_turn};

    ghost subgrid = { λ v. is_grid_kind v.kind && has_subgrid (grid_of v.style) };

    ghost forgotten = { λ v. record v { kept = []; turn = next_turn v.turn } };

    fn is_subgrid(&self) -> bool {
        is_grid(&self.kind) && has_subgrid(&self.style)
    }

    fn forget(&mut self) {
        self.kept.clear();
        self.turn = self.turn.saturating_add(1);
    }
}
