ghost use Rattle.std.specs.Prelude.{◌≡◌, ◌<◌, ◌≤◌, ◌+◌, ◌*◌, length, IfOk};
ghost use Rattle.doc_text.specs.Valid.{IsValid};
ghost use Rattle.doc_text.specs.View.{label_of};
ghost use Rattle.page_maker.specs.Growing.{child_count, grown};
ghost use Rattle.page_maker.specs.Making.{states, last_state, label_at, document_with, made_document};
ghost use Rattle.page_maker.specs.Standing.{IsMade};

use crate::choice::choose;
use crate::draws::Draws;
use crate::names::node_name;
use crate::styles::{kind_of, px, style_of};
use doc_text::{Children, Doc, Plain};
use lunit::NoMemory;
use std::alloc::Global;

#[tactic(auto, using(crate::proofs::States::state_laws), unfolding(crate::specs::Making::states, crate::specs::Making::last_state))]
/// The states with which the draws for so many nodes begin, and the draws after them.
fn draw_states(alloc: Global, seed: u64, nodes: usize) -> Result<(Vec<u64>, Draws), NoMemory>
    requires { nodes ≤ 20000 }
    ensures begins { IfOk result (λ made. made.0.items ≡ states seed nodes) }
    ensures last { IfOk result (λ made. made.1.state ≡ last_state seed nodes) }
{
    let mut draws = Draws { state: seed };
    let mut begins = Vec::new(alloc);
    for i in 0..nodes {
        begins.push(draws.state)?;
        let _ = choose(&mut draws, nodes, i);
    }
    Ok((begins, draws))
}

#[tactic(auto, using(crate::proofs::Chosen::chosen_drawn), unfolding(crate::specs::Making::label_at))]
/// Node `i`, with these children.
fn node_with(alloc: Global, begins: &[u64], i: usize, children: Children) -> Result<Plain, NoMemory>
    requires there { i < length begins.now }
    requires few { length begins.now ≤ 20000 }
    ensures label { IfOk result (λ node. label_of node ≡ label_at begins.now i) }
    ensures children { IfOk result (λ node. node.children ≡ children) }
{
    let mut draws = Draws { state: begins[i] };
    let choice = choose(&mut draws, begins.len(), i);
    Ok(Plain {
        name: node_name(alloc, i)?,
        kind: kind_of(alloc, choice)?,
        style: style_of(alloc, choice)?,
        children,
    })
}

#[tactic(auto, using(crate::proofs::Growth::growing_laws))]
/// The children of node `i`, with so many levels.
fn children_of(alloc: Global, begins: &[u64], levels: u32, i: usize) -> Result<Children, NoMemory>
    requires there { i < length begins.now }
    requires few { length begins.now ≤ 20000 }
    ensures { IfOk result
        (λ children. children ≡
        grown (label_at begins.now) (length begins.now) levels (8 * i + 1)
        (child_count (length begins.now) i)) }
{
    let mut children = Children::new(alloc);
    if levels == 0 {
        return Ok(children);
    }
    let end = begins.len().min(8 * i + 9);
    for child in 8 * i + 1..end {
        let below = children_of(alloc, begins, levels - 1, child)?;
        children.push(node_with(alloc, begins, child, below)?)?;
    }
    Ok(children)
}

#[tactic(auto, unfolding(crate::specs::Making::document_with))]
/// The document of the nodes whose draws begin with these states.
fn document_with(alloc: Global, begins: &[u64]) -> Result<Doc, NoMemory>
    requires some { 0 < length begins.now }
    requires few { length begins.now ≤ 20000 }
    ensures { IfOk result (λ doc. doc ≡ document_with begins.now) }
{
    let children = children_of(alloc, begins, 5, 0)?;
    Ok(Doc {
        version: 1,
        width: px(1000),
        height: px(600),
        root: node_with(alloc, begins, 0, children)?,
    })
}

#[tactic(auto, using(crate::proofs::Made::making))]
/// The document of so many nodes, from 1 to 20,000, that is drawn from a seed, and the draws after it. The viewport is
/// 1000 px by 600 px; the nodes are `n0`, `n1` and so on, and the parent of node i above 0 is node (i - 1) / 8. Or
/// `NoMemory`, where memory is wanting.
pub fn make_document(alloc: Global, seed: u64, nodes: usize) -> Result<(Doc, Draws), NoMemory>
    requires some { 0 < nodes }
    requires few { nodes ≤ 20000 }
    ensures document { IfOk result (λ made. made.0 ≡ made_document seed nodes) }
    ensures draws { IfOk result (λ made. made.1.state ≡ last_state seed nodes) }
    ensures valid { IfOk result (λ made. IsValid made.0) }
    ensures stands { IfOk result (λ made. IsMade nodes made.0) }
{
    let (begins, draws) = draw_states(alloc, seed, nodes)?;
    let doc = document_with(alloc, &begins)?;
    Ok((doc, draws))
}
