//! Whether two items are the same.

ghost use Rattle.std.specs.Prelude.{◌≡◌, true};

use lunit::{Floor, Item, Lu, Span};

/// Whether two lengths are the same.
fn same_length(a: Lu, b: Lu) -> bool
    ensures { result ≡ true → a ≡ b }
{
    a == b
}

/// Whether two spans are the same.
fn same_span(a: &Span, b: &Span) -> bool
    ensures { result ≡ true → a.now ≡ b.now }
{
    a.start == b.start && a.end == b.end
}

/// Whether two minimum contributions are the same.
fn same_floor(a: &Floor, b: &Floor) -> bool
    ensures { result ≡ true → a.now ≡ b.now }
{
    match (a, b) {
        (Floor::Known(x), Floor::Known(y)) => same_length(*x, *y),
        (
            Floor::Content {
                size: x,
                margins: m,
                inner: i,
            },
            Floor::Content {
                size: y,
                margins: n,
                inner: j,
            },
        ) => same_length(*x, *y) && same_length(*m, *n) && same_length(*i, *j),
        _ => false,
    }
}

/// Whether two items are the same.
pub(crate) fn same_item(a: &Item, b: &Item) -> bool
    ensures { result ≡ true → a.now ≡ b.now }
{
    if !same_span(&a.span, &b.span) || !same_floor(&a.floor, &b.floor) {
        return false;
    }
    same_length(a.low, b.low) && same_length(a.high, b.high)
}
