ghost use Rattle.std.specs.Prelude.{◌≡◌, ◌<◌, ◌≤◌, IfOk, OnOk};
ghost use Rattle.page_maker.specs.Scripts.{named, order_edit, edit_of_node, edit_from};

use crate::choice::is_container;
use crate::draws::Draws;
use crate::names::node_name;
use crate::styles::{fixed_leaf, plain_value};
use doc_text::{Edit, Named};
use lunit::{NoMemory, Sequence};
use std::alloc::Global;
use style_types::{Prop, Value};
use text_scan::Place;

/// The name of node `j` in an edit, which stands in no text.
fn named(alloc: Global, j: usize) -> Result<Named, NoMemory>
    ensures { IfOk result (λ made. made ≡ named j) }
{
    Ok(Named {
        name: node_name(alloc, j)?,
        at: Place { line: 0, column: 0 },
    })
}

/// Sets the order of node `j`.
fn order_edit(alloc: Global, j: usize, order: u64) -> Result<Edit, NoMemory>
    requires { order < 5 }
    ensures { IfOk result (λ e. e ≡ order_edit j order) }
{
    let mut settings = Sequence::new(alloc);
    let value = plain_value(alloc, Value::Order(order as i32));
    settings.push((Prop::Order, value))?;
    Ok(Edit::Set(named(alloc, j)?, settings))
}

#[tactic(auto, unfolding(crate::specs::Scripts::edit_of_node))]
/// Draws an edit of node `j`.
fn edit_of_node(alloc: Global, draws: &mut Draws, nodes: usize, j: usize) -> Result<Edit, NoMemory>
    requires { j < 20000 }
    ensures edit { IfOk result (λ e. e ≡ (edit_of_node nodes j draws.old.state).0) }
    ensures state { OnOk result (draws.new.state ≡ (edit_of_node nodes j draws.old.state).1) }
{
    if is_container(nodes, j) {
        return order_edit(alloc, j, draws.draw(5));
    }
    let width = 1 + draws.draw(50);
    let height = 1 + draws.draw(30);
    Ok(Edit::Content(named(alloc, j)?, fixed_leaf(width, height)))
}

#[tactic(auto, unfolding(crate::specs::Scripts::edit_from))]
/// Draws the next edit of a generated document of so many nodes, from 1 to 20,000: a container has another order, a leaf
/// another size. Or `NoMemory`, where memory is wanting.
pub fn next_edit(alloc: Global, draws: &mut Draws, nodes: usize) -> Result<Edit, NoMemory>
    requires some { 0 < nodes }
    requires few { nodes ≤ 20000 }
    ensures edit { IfOk result (λ e. e ≡ (edit_from nodes draws.old.state).0) }
    ensures state { OnOk result (draws.new.state ≡ (edit_from nodes draws.old.state).1) }
{
    let j = draws.draw(nodes as u64);
    edit_of_node(alloc, draws, nodes, j as usize)
}
