ghost use Rattle.std.specs.Prelude.{◌≡◌, ◌≢◌, ℕ, ◌+◌, ◌≤◌, List, [], length, ◌++◌, take, drop, IfSome};
ghost use Rattle.std.specs.List.{list_all};
ghost use Rattle.std.specs.Str.{bytes_eq};
ghost use Rattle.std.specs.Ordering.{nat_cmp, as_partial_cmp};
ghost use Rattle.std.specs.Cmp.Lexicographic.{slice_cmp};
ghost use Rattle.std.specs.Cmp.{partial_order_from_own_ties};
ghost use Rattle.std.specs.Cmp.Rules.{comparing};
ghost use Rattle.lunit.specs.Fronts.{spelled_after};
ghost use Rattle.std.proofs.Common.{rules, Equal};
ghost use Rattle.lunit.specs.Names.{is_name, begins_name, continues_name, edge_of, read_name};

use crate::BadName;
use std::cmp::Ordering;
use std::marker::Model;

/// How many bytes of two names are compared one by one: so few are compared faster so.
const SHORT: usize = 16;

/// A name of a node, a line or an area: at most 64 bytes. Contracts see the bytes, and names are ordered by them.
#[derive(Clone, Copy, Debug)]
pub struct Name {
    len: u8,
    bytes: [u8; 64],
}

impl Model for Name {
    ghost use Rattle.std.specs.Prelude.{List, ℕ};

    ghost Value = { List ℕ };

    ghost use Rattle.lunit.specs.Padded.{spelling, of_spelling, IsPadded, of_spelling_again};

    ghost view = { spelling };

    ghost invariant = { IsPadded };

    ghost inverse = { of_spelling };

    ghost inverse_ok = { of_spelling_again };
}

fn begins(byte: u8) -> bool
    ensures { result ≡ begins_name byte }
{
    byte.is_ascii_lowercase() || byte.is_ascii_uppercase() || byte == b'_'
}

fn continues(byte: u8) -> bool
    ensures { result ≡ continues_name byte }
{
    begins(byte) || byte.is_ascii_digit() || byte == b'-'
}

fn all_continue(text: &[u8]) -> bool
    ensures { result ≡ list_all continues_name text.now }
{
    text.iter().all(|byte| continues(*byte))
}

fn is_a_name(text: &[u8]) -> bool
    ensures { result ≡ is_name text.now }
{
    match text.split_first() {
        None => false,
        Some((first, rest)) => begins(*first) && all_continue(rest) && text.len() <= 58,
    }
}

fn write_at(out: &mut [u8], at: usize, text: &[u8])
    requires { at + length text.now ≤ length out.old }
    ensures { out.new ≡ take at out.old ++ text.now ++ drop (at + length text.now) out.old }
{
    out[at..at + text.len()].copy_from_slice(text);
}

/// The bytes of a text from an index on.
fn past(text: &[u8], index: usize) -> &[u8]
    requires { index ≤ length text.now }
    ensures { result.now ≡ drop index text.now }
{
    &text[index..]
}

/// The first eight bytes as a number, the first byte counting most.
fn front(bytes: &[u8]) -> u64
    requires { 8 ≤ length bytes.now }
    ensures { result ≡ spelled_after 0 (take 8 bytes.now) }
{
    u64::from_be_bytes([
        bytes[0], bytes[1], bytes[2], bytes[3], bytes[4], bytes[5], bytes[6], bytes[7],
    ])
}

/// The order of two rooms of bytes, where their first eight differ: as one number each, they are compared at once.
fn order_of_fronts(a: &[u8], b: &[u8]) -> Option<Ordering>
    requires { (8 ≤ length a.now) × (8 ≤ length b.now) }
    ensures order { IfSome result (λ order. order ≡ slice_cmp nat_cmp a.now b.now) }
    ensures unequal { IfSome result (λ order. order ≢ Equal) }
{
    let (x, y) = (front(a), front(b));
    if x == y {
        return None;
    }
    Some(x.cmp(&y))
}

#[tactic(auto, using(crate::proofs::Orders::orders))]
/// The order of two texts. Their first bytes are compared one by one, since names are short.
fn order(a: &[u8], b: &[u8]) -> Ordering
    ensures { result ≡ slice_cmp nat_cmp a.now b.now }
{
    let shorter = a.len().min(b.len());
    let both = shorter.min(SHORT);
    for index in 0..both {
        let (x, y) = (a[index], b[index]);
        if x != y {
            return x.cmp(&y);
        }
    }
    if both == shorter {
        return a.len().cmp(&b.len());
    }
    past(a, both).cmp(past(b, both))
}

impl Name {
    /// One text after another.
    fn joined(front: &[u8], back: &[u8]) -> Name
        requires { length front.now + length back.now ≤ 64 }
        ensures { result ≡ front.now ++ back.now }
    {
        let mut bytes = [0; 64];
        let end = front.len() + back.len();
        write_at(&mut bytes, 0, front);
        write_at(&mut bytes, front.len(), back);
        Name {
            bytes,
            len: end as u8,
        }
    }

    /// The name that the text is: a letter or `_`, then letters, digits, `-` and `_`. `BadName` exactly where it is
    /// no name, or has more than 58 bytes. The words that may not name a line are not looked at.
    pub fn read(text: &[u8]) -> Result<Name, BadName>
        ensures { result ≡ read_name text.now }
    {
        if is_a_name(text) {
            Ok(Name::joined(text, b""))
        } else {
            Err(BadName)
        }
    }

    /// The bytes of the name.
    pub fn bytes(&self) -> &[u8]
        ensures value { result.now ≡ self.now }
        ensures short { length self.now ≤ 64 }
    {
        &self.bytes[..self.len as usize]
    }

    /// The name of an edge of the area of this name: with `-end` or `-start` after it (CSS Grid 2, 7.3.2).
    pub fn edge(&self, end: bool) -> Name
        requires { length self.now ≤ 58 }
        ensures { result ≡ edge_of end self.now }
    {
        if end {
            Name::joined(self.bytes(), b"-end")
        } else {
            Name::joined(self.bytes(), b"-start")
        }
    }
}

/// The empty text, which stands in for a name where there is none. No text reads as it.
impl Default for Name {
    ghost is_default = { λ name. name ≡ [] };

    fn default() -> Name {
        Name::joined(b"", b"")
    }
}

impl PartialEq for Name {
    ghost eq = { bytes_eq };

    ghost laws = { Prim.search (comparing, rules) };

    fn eq(&self, other: &Name) -> bool {
        self.bytes() == other.bytes()
    }
}

impl Eq for Name {
    ghost laws = { Prim.search (comparing, rules) };
}

impl Ord for Name {
    ghost cmp = { slice_cmp nat_cmp };

    ghost total = { Prim.search (comparing, rules) };

    ghost matches_partial_cmp = { Prim.search (comparing, rules) };

    ghost matches_eq = { Prim.search (comparing, rules) };

    fn cmp(&self, other: &Name) -> Ordering {
        if let Some(order) = order_of_fronts(&self.bytes, &other.bytes) {
            return order;
        }
        order(self.bytes(), other.bytes())
    }
}

impl PartialOrd for Name {
    ghost partial_cmp = { as_partial_cmp (slice_cmp nat_cmp) };

    ghost laws = { partial_order_from_own_ties (Prim.search (comparing, rules)) (Prim.search (comparing, rules)) };

    fn partial_cmp(&self, other: &Name) -> Option<Ordering> {
        Some(self.cmp(other))
    }
}
