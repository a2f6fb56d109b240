ghost use Rattle.std.specs.Prelude.{◌≡◌, ◌≤◌, ◌∷◌, ◌++◌, [], length, OnOk, OnErr, IfOk};
ghost use Rattle.std.specs.Borrow.{sem};
ghost use Rattle.edit_journal.specs.Journals.{KeepsLists, TakesBackLast, MakesLastAgain};

use crate::change::{Change, Step};
use lunit::NoMemory;
use std::alloc::Global;
use std::marker::Model;
use thiserror::Error;

/// There is no step to take back.
#[derive(Clone, Copy, Debug, PartialEq, Eq, Error)]
#[error("nothing to undo")]
pub struct NothingToUndo;

/// There is no step to make again.
#[derive(Clone, Copy, Debug, PartialEq, Eq, Error)]
#[error("nothing to redo")]
pub struct NothingToRedo;

/// The steps that were made on a document, and those of them that were taken back.
///
/// Contracts see two lists of steps, `done` and `undone`, each with the last one at its end, and
/// `spare`, for how many steps more there is room.
#[derive(Drop)]
pub struct Journal {
    // The steps that were made, the first one first, and after them those that were taken back, the
    // last one first.
    steps: Vec<Step>,
    // How many of them were made.
    made: usize,
}

impl Model for Journal {
    ghost use Rattle.std.specs.Prelude.{◌≤◌, length};
    ghost use Rattle.edit_journal.specs.Journals.{Lists, coded_lists, lists_of};

    ghost Value = { Lists };

    ghost coded = { coded_lists };

    ghost view = { λ a. lists_of a.steps.items a.made a.steps.cap };

    ghost invariant = { λ a. a.made ≤ length a.steps.items };
}

impl Journal {
    ghost use Rattle.edit_journal.specs.Rests.{RestsTakenBack, RestsMadeAgain};

    /// No steps. Takes no memory.
    pub fn new(alloc: Global) -> Journal
        ensures done { result.done ≡ [] }
        ensures undone { result.undone ≡ [] }
    {
        Journal {
            steps: Vec::new(alloc),
            made: 0,
        }
    }

    /// How many steps can be taken back. Takes no memory.
    pub fn done(&self) -> usize
        ensures { result ≡ length self.now.done }
    {
        self.made
    }

    /// How many steps can be made again. Takes no memory.
    pub fn undone(&self) -> usize
        ensures { result ≡ length self.now.undone }
    {
        self.steps.len() - self.made
    }

    /// Makes room for one step more, in both lists. `NoMemory` where memory is wanting: then
    /// nothing is changed. The room grows with what it holds, so that steps noted one after another
    /// take time in all that is linear in their number.
    pub fn reserve(&mut self) -> Result<(), NoMemory>
        ensures ok { OnOk result (1 ≤ self.new.spare) }
        ensures lists { KeepsLists self.old self.new }
        ensures err { OnErr result (self.new ≡ self.old) }
    {
        self.steps.reserve(1)?;
        Ok(())
    }

    /// Puts a step that was made at the end of the steps. Those that were taken back go. Takes no
    /// memory.
    pub fn note(&mut self, step: Step)
        requires { 1 ≤ self.old.spare }
        ensures done { self.new.done ≡ self.old.done ++ step ∷ [] }
        ensures undone { self.new.undone ≡ [] }
    {
        self.steps.truncate(self.made);
        match self.steps.push(step) {
            Ok(()) => self.made += 1,
            Err(_) => unreachable!(),
        }
    }

    /// Takes the last step back that was made: gives the change that does it. `NothingToUndo`
    /// exactly where there is none; then nothing is changed. Takes no memory.
    pub fn undo(&mut self) -> Result<&Change, NothingToUndo>
        ensures* after { sem 𝓛 (RestsTakenBack self.entry result) }
        ensures change { IfOk result (λ change. TakesBackLast change.now self.old.done) }
        ensures nothing { OnErr result (self.old.done ≡ []) }
    {
        if self.made == 0 {
            return Err(NothingToUndo);
        }
        self.made -= 1;
        Ok(&self.steps[self.made].back)
    }

    /// Makes the last step again that was taken back: gives the change that does it.
    /// `NothingToRedo` exactly where there is none; then nothing is changed. Takes no memory.
    pub fn redo(&mut self) -> Result<&Change, NothingToRedo>
        ensures* after { sem 𝓛 (RestsMadeAgain self.entry result) }
        ensures change { IfOk result (λ change. MakesLastAgain change.now self.old.undone) }
        ensures nothing { OnErr result (self.old.undone ≡ []) }
    {
        if self.made == self.steps.len() {
            return Err(NothingToRedo);
        }
        self.made += 1;
        Ok(&self.steps[self.made - 1].forward)
    }
}
