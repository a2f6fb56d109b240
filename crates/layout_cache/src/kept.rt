ghost use Rattle.std.specs.Prelude.{◌≡◌, ◌≤◌, ◌<◌, ◌⊎◌, ◌++◌, ◌∷◌, [], ◌↔◌, None, false, IfOk, OnOk, OnErr, is_none, IsTrue, length};
ghost use Rattle.std.specs.Option.{option_copied};
ghost use Rattle.tree_rules.specs.KeptAnswers.{IsAbsent, last_of, most_kept};
ghost use Rattle.layout_cache.specs.Kept.{answer_to};

use crate::same::same_query;
use circular_buffer::HeapCircularBuffer;
use lunit::NoMemory;
use std::alloc::Global;
use std::marker::Model;
use tree_rules::{Ask, Given, Query};

/// How many answers a node keeps at most.
const MOST: usize = 16;

/// How many answers there is room for at first: most nodes never keep more.
const FEW: usize = 2;

/// The answers that a node keeps, each with its question: at most sixteen, the newest last, and no question twice. There is
/// room for two at first, and for twice as many wherever it is full, up to sixteen.
#[derive(Drop)]
pub struct Kept<A> {
    ring: HeapCircularBuffer<(Query, A)>,
}

impl<A> Model for Kept<A> {
    ghost use Rattle.std.specs.Prelude.{◌≡◌, ◌≤◌, ◌⊎◌, List, length};
    ghost use Rattle.tree_rules.specs.declared.query.Query.{Query};
    ghost use Rattle.tree_rules.specs.KeptAnswers.{AreDistinct};

    ghost Value = { List (Query × A) };

    ghost view = { λ a. a.ring.items };

    ghost invariant = { λ a. (1 ≤ a.ring.capacity) × (a.ring.capacity ≤ 16) × (length a.ring.items ≤ a.ring.capacity) × AreDistinct a.ring.items };
}

impl<A: Drop> Kept<A> {
    /// An empty list, with room for two pairs; `NoMemory` where memory is wanting.
    pub fn new(alloc: Global) -> Result<Kept<A>, NoMemory>
        ensures { IfOk result (λ kept. kept ≡ []) }
    {
        Ok(Kept {
            ring: HeapCircularBuffer::with_capacity(alloc, FEW)?,
        })
    }

    /// The answer to a question, if it is kept.
    pub fn find(&self, query: &Query) -> Option<&A>
        ensures value { option_copied result ≡ answer_to query.now self.now }
        ensures absent { IsTrue (is_none result) ↔ IsAbsent query.now self.now }
    {
        self.find_by(
            query.ask,
            query.reps.as_slice(),
            &query.inline,
            &query.block,
        )
    }

    /// The answer to the question of these parts, if it is kept. The question itself need not be made.
    pub fn find_by(
        &self,
        ask: Ask,
        reps: &[(u32, u32)],
        inline: &Given,
        block: &Given,
    ) -> Option<&A>
        ensures value { option_copied result ≡
            answer_to
            (record { ask = ask; reps = reps.now; inline = inline.now; block = block.now })
            self.now }
        ensures absent { IsTrue (is_none result) ↔ IsAbsent
            (record { ask = ask; reps = reps.now; inline = inline.now; block = block.now })
            self.now }
    {
        match ask {
            Ask::Frames => self.find_from_newest(ask, reps, inline, block),
            _ => self.find_from_oldest(ask, reps, inline, block),
        }
    }

    /// The answer to the question of these parts, looked for from the oldest pair on: a question
    /// about sizes comes before the frames.
    fn find_from_oldest(
        &self,
        ask: Ask,
        reps: &[(u32, u32)],
        inline: &Given,
        block: &Given,
    ) -> Option<&A>
        ensures value { option_copied result ≡
            answer_to
            (record { ask = ask; reps = reps.now; inline = inline.now; block = block.now })
            self.now }
        ensures absent { IsTrue (is_none result) ↔ IsAbsent
            (record { ask = ask; reps = reps.now; inline = inline.now; block = block.now })
            self.now }
    {
        for (asked, answer) in self.ring.iter() {
            if same_query(asked, ask, reps, inline, block) {
                return Some(answer);
            }
        }
        None
    }

    #[tactic(auto, using(crate::proofs::Distinct::newest_laws))]
    /// The answer to the question of these parts, looked for from the newest pair back: the frames
    /// are mostly asked last. As no question stands twice, it is the one that is found from the
    /// oldest pair on.
    fn find_from_newest(
        &self,
        ask: Ask,
        reps: &[(u32, u32)],
        inline: &Given,
        block: &Given,
    ) -> Option<&A>
        ensures value { option_copied result ≡
            answer_to
            (record { ask = ask; reps = reps.now; inline = inline.now; block = block.now })
            self.now }
        ensures absent { IsTrue (is_none result) ↔ IsAbsent
            (record { ask = ask; reps = reps.now; inline = inline.now; block = block.now })
            self.now }
    {
        let mut left = self.ring.len();
        while 0 < left {
            left -= 1;
            if let Some((asked, answer)) = self.ring.get(left) {
                if same_query(asked, ask, reps, inline, block) {
                    return Some(answer);
                }
            }
        }
        None
    }

    #[tactic(auto, using(crate::proofs::Distinct::put_laws))]
    /// Keeps an answer to a question that has none, and lets the oldest of sixteen go; it tells whether one went. `NoMemory` where
    /// memory is wanting for more room, and nothing is kept then.
    pub fn put(&mut self, query: Query, answer: A) -> Result<bool, NoMemory>
        requires { IsAbsent query self.old }
        ensures ok { OnOk result (self.new ≡ last_of 16 (self.old ++ (query, answer) ∷ [])) }
        ensures all { IfOk result
            (λ gone. gone ≡ false → self.new ≡ self.old ++ (query, answer) ∷ []) }
        ensures err { OnErr result (self.new ≡ self.old) }
    {
        make_room(&mut self.ring)?;
        let oldest = self.ring.push_back((query, answer));
        Ok(oldest.is_some())
    }

    /// Lets all answers go. The room stays.
    pub fn clear(&mut self)
        ensures { self.new ≡ [] }
    {
        self.ring.clear();
    }
}

/// Makes twice the room where it is full, up to the room for sixteen pairs.
fn make_room<A: Drop>(ring: &mut HeapCircularBuffer<(Query, A)>) -> Result<(), NoMemory>
    requires some { 1 ≤ ring.old.capacity }
    requires most { ring.old.capacity ≤ 16 }
    requires within { length ring.old.items ≤ ring.old.capacity }
    ensures items { ring.new.items ≡ ring.old.items }
    ensures some { 1 ≤ ring.new.capacity }
    ensures most { ring.new.capacity ≤ 16 }
    ensures within { length ring.new.items ≤ ring.new.capacity }
    ensures room { OnOk result
        (ring.new.capacity ≡ 16 ⊎ length ring.new.items < ring.new.capacity) }
{
    let room = ring.capacity();
    if ring.len() == room && room < MOST {
        ring.resize(twice(room))?;
    }
    Ok(())
}

/// Twice as much room, at most that for sixteen pairs.
fn twice(room: usize) -> usize
    requires some { 1 ≤ room }
    requires less { room < 16 }
    ensures more { room < result }
    ensures most { result ≤ 16 }
{
    (room * 2).min(MOST)
}
