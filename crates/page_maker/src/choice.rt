ghost use Rattle.std.specs.Prelude.{◌≡◌, ◌<◌};
ghost use Rattle.page_maker.specs.Choices.{fixed_from, words_from, leaf_from, container, has_children, is_container, chosen};

use crate::draws::Draws;

/// What a node of a generated document is (own rule). The numbers of leaves are px.
#[derive(Clone, Copy, Debug, PartialEq, Eq)]
pub enum Choice {
    /// The root: a grid with as many columns as fit.
    Root,
    /// A grid over two columns of its parent's, whose columns it takes over.
    Lent,
    /// A flex container with lines.
    Wrapping,
    /// A grid with two flexible columns.
    Columns,
    /// A leaf of this width and height.
    Fixed(u64, u64),
    /// A leaf of five words of these widths.
    Words(u64, u64, u64, u64, u64),
}

#[tactic(auto, unfolding(crate::specs::Choices::fixed_from))]
fn draw_fixed(draws: &mut Draws) -> Choice
    ensures value { result ≡ (fixed_from draws.old.state).0 }
    ensures state { draws.new.state ≡ (fixed_from draws.old.state).1 }
{
    let width = 1 + draws.draw(50);
    let height = 1 + draws.draw(30);
    Choice::Fixed(width, height)
}

#[tactic(auto, unfolding(crate::specs::Choices::words_from))]
fn draw_words(draws: &mut Draws) -> Choice
    ensures value { result ≡ (words_from draws.old.state).0 }
    ensures state { draws.new.state ≡ (words_from draws.old.state).1 }
{
    let first = 5 + draws.draw(40);
    let second = 5 + draws.draw(40);
    let third = 5 + draws.draw(40);
    let fourth = 5 + draws.draw(40);
    let fifth = 5 + draws.draw(40);
    Choice::Words(first, second, third, fourth, fifth)
}

#[tactic(auto, unfolding(crate::specs::Choices::leaf_from))]
fn draw_leaf(draws: &mut Draws) -> Choice
    ensures value { result ≡ (leaf_from draws.old.state).0 }
    ensures state { draws.new.state ≡ (leaf_from draws.old.state).1 }
{
    if draws.draw(2) == 0 {
        draw_fixed(draws)
    } else {
        draw_words(draws)
    }
}

fn container(number: u64) -> Choice
    ensures { result ≡ container number }
{
    match number {
        0 => Choice::Lent,
        1 => Choice::Wrapping,
        _ => Choice::Columns,
    }
}

/// Whether node `i` of so many has children.
fn has_children(nodes: usize, i: usize) -> bool
    requires { i < 20000 }
    ensures { result ≡ has_children nodes i }
{
    8 * i + 1 < nodes
}

/// Whether node `i` of so many is a container.
pub(crate) fn is_container(nodes: usize, i: usize) -> bool
    requires { i < 20000 }
    ensures { result ≡ is_container nodes i }
{
    i == 0 || has_children(nodes, i)
}

#[tactic(auto, unfolding(crate::specs::Choices::chosen))]
/// Draws what node `i` of so many is.
pub(crate) fn choose(draws: &mut Draws, nodes: usize, i: usize) -> Choice
    requires { i < 20000 }
    ensures value { result ≡ (chosen nodes i draws.old.state).0 }
    ensures state { draws.new.state ≡ (chosen nodes i draws.old.state).1 }
{
    if i == 0 {
        Choice::Root
    } else if has_children(nodes, i) {
        container(draws.draw(3))
    } else {
        draw_leaf(draws)
    }
}
