//! The steps that a control line asks for. Its lines `drain` start draining.
ghost use Rattle.std.specs.Prelude.{◌≡◌, ◌↔◌, ◌++◌, ◌∷◌, IsTrue, [], false, take};
ghost use Rattle.std.specs.Option.{option_to_list};
ghost use Rattle.bq_job.specs.promise.ControlDid.{are_same, drain_word};
ghost use Rattle.bq_line.specs.ControlRead.{HasRead};
ghost use Rattle.bq_line.specs.ControlSeen.{after_heard, new_control};
ghost use Rattle.bq_line.specs.ControlTold.{HasTold, TellsOn, owed_by};
ghost use Rattle.bq_line.specs.declared.control_steps.Stage.TheVariants as stages;

use crate::control_line::{ControlInput, Heard};
use arrayvec::ArrayVec;
use bq_job::Step;
use std::marker::Model;

/// The line that starts draining.
const DRAIN_WORD: &[u8] = b"drain";

/// How many bytes of a line are kept: one more than the word has, since a longer line means
/// nothing.
const BYTES_KEPT: usize = 6;

/// The first bytes of the line that is being read, enough to recognize `drain`.
#[derive(Drop)]
pub struct LineSoFar {
    first: ArrayVec<u8, BYTES_KEPT>,
}

impl Model for LineSoFar {
    ghost use Rattle.std.specs.Prelude.{List, ℕ};

    ghost Value = { List ℕ };

    ghost view = { λ l. l.first.items };
}

impl LineSoFar {
    /// Returns a line of which nothing was read.
    pub fn new() -> LineSoFar
        ensures { result ≡ [] }
    {
        LineSoFar {
            first: ArrayVec::new(),
        }
    }

    fn note(&mut self, byte: u8)
        ensures { self.new ≡ take 6 (self.old ++ byte ∷ []) }
    {
        // Bytes after the first ones do not matter.
        let _full = self.first.try_push(byte);
    }

    /// Returns true if this byte ends the line; otherwise notes it.
    #[tactic(auto, using(crate::proofs::ControlLemmas::line_read, crate::proofs::ControlLemmas::byte_read))]
    pub fn ends_by(&mut self, byte: u8) -> bool
        ensures { HasRead self.old (byte ∷ []) result self.new }
    {
        if byte == b'\n' {
            return true;
        }
        self.note(byte);
        false
    }

    /// Returns true if the line is `drain`.
    #[tactic(auto, using(crate::proofs::ControlLemmas::same_bytes))]
    pub fn says_drain(&self) -> bool
        ensures { result ≡ are_same self.now drain_word }
    {
        self.first.as_slice() == DRAIN_WORD
    }
}

/// How far a control line has been read.
#[derive(Clone, Copy)]
pub enum Stage {
    /// There may be more to read.
    Reads,
    /// Its input has ended or failed, and this has to be submitted.
    Ended,
    /// The end was submitted.
    Over,
}

/// A control line, with the steps that it has to submit: a drain for each line `drain`, and its end.
/// It allocates nothing, however long a line is.
#[derive(Drop)]
pub struct ControlSteps<I> {
    pub input: I,
    /// The part of the current line that was read so far.
    pub line: LineSoFar,
    /// Whether a line said `drain` and the drain has to be submitted.
    pub owes_drain: bool,
    pub stage: Stage,
}

impl<I: ControlInput> ControlSteps<I> {
    /// Returns a control line of which nothing was read.
    pub fn new(input: I) -> ControlSteps<I>
        requires new { I.seen input ≡ new_control }
        ensures { HasTold I.ControlInput (I.remaining input) (I.may_fail input) result [] }
    {
        ControlSteps {
            input,
            line: LineSoFar::new(),
            owes_drain: false,
            stage: Stage::Reads,
        }
    }

    /// Returns true if it was read to its end, and all of its steps were submitted.
    pub fn is_over(&self) -> bool
        ensures { IsTrue result ↔ (self.now.stage ≡ stages.Over) }
    {
        matches!(self.stage, Stage::Over)
    }

    /// Returns true if the next read does not wait, as far as its reader knows.
    pub fn has_unread(&self) -> bool {
        self.input.has_unread()
    }

    /// Returns the step that has to be submitted next, if there is one.
    pub fn owed(&self) -> Option<Step>
        ensures { result ≡ owed_by self.now.owes_drain self.now.stage }
    {
        if self.owes_drain {
            return Some(Step::Drain);
        }
        match self.stage {
            Stage::Ended => Some(Step::Gone),
            Stage::Reads | Stage::Over => None,
        }
    }

    /// Notes that this step was submitted.
    pub fn note_submitted(&mut self)
        ensures { TellsOn I.ControlInput self.old
            (option_to_list (owed_by self.old.owes_drain self.old.stage)) self.new }
    {
        if self.owes_drain {
            self.owes_drain = false;
            return;
        }
        if let Stage::Ended = self.stage {
            self.stage = Stage::Over;
        }
    }

    /// Reads once, unless a step has to be submitted first or everything was read. Returns what was
    /// heard; `NothingYet` without a read.
    pub fn read(&mut self) -> Heard
        ensures tells { TellsOn I.ControlInput self.old [] self.new }
        ensures heard { I.seen self.new.input ≡ after_heard result (I.seen self.old.input) }
    {
        if self.owes_drain {
            return Heard::NothingYet;
        }
        match self.stage {
            Stage::Reads => self.read_on(),
            Stage::Ended | Stage::Over => Heard::NothingYet,
        }
    }

    fn read_on(&mut self) -> Heard
        requires none_owed { self.old.owes_drain ≡ false }
        requires more { self.old.stage ≡ stages.Reads }
        ensures tells { TellsOn I.ControlInput self.old [] self.new }
        ensures heard { I.seen self.new.input ≡ after_heard result (I.seen self.old.input) }
    {
        let heard = self.input.next();
        match heard {
            Heard::Byte(byte) => {
                if self.line.ends_by(byte) {
                    self.owes_drain = self.line.says_drain();
                    self.line = LineSoFar::new();
                }
            }
            Heard::NothingYet => {}
            Heard::End => {
                self.owes_drain = self.line.says_drain();
                self.stage = Stage::Ended;
            }
            Heard::Fault => self.stage = Stage::Ended,
        }
        heard
    }
}
