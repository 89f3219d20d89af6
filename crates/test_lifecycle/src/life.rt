//! A life of a pool: random steps, in their middle a pool opened from the base, and the completion of all work.
ghost use Rattle.std.specs.Prelude.{◌≡◌, is_some};
ghost use Rattle.pool_journal.specs.Carrying.{carries};

use crate::dice::Dice;
use crate::judging::is_legal;
use crate::reopening::{VALUE, cut_again, opened_again};
use pool_core::{Core, StepFault};
use pool_journal::{Answer, Entry, Input, Outcome, Segment};
use pool_settings::Settings;
use std::alloc::{AllocError, Global};

/// The number of steps that a life tries before its pool is opened again, and that it tries again after that.
const HALF: u64 = 40;

/// The time at which all work is completed.
const END: u64 = 80;

/// The number of times that a step is tried if it fails for lack of memory.
const TRIES: u64 = 3;

/// A pool, with the segment from before it was opened again.
#[derive(Drop)]
pub struct Life {
    before: Option<Segment>,
    core: Core<u64>,
    limit: u64,
    drawn: u64,
    closed: bool,
    /// Whether it ended early, since there was no memory to open its pool again.
    short_of_memory: bool,
}

/// How two lives of one kind ended.
#[derive(Drop, Clone, Copy)]
pub enum Verdict {
    Same,
    Different,
    Illegal,
    Unfinished,
    OutOfMemory,
}

impl Verdict {
    /// Returns the words of the line that reports it.
    pub fn text(self) -> &'static str {
        match self {
            Verdict::Same => "finished, the same twice",
            Verdict::Different => "the two differ",
            Verdict::Illegal => "the journal is not legal",
            Verdict::Unfinished => "something is left",
            Verdict::OutOfMemory => "out of memory",
        }
    }
}

/// Returns the value that an input carries.
fn value_of(input: Input) -> Option<u64>
    ensures { is_some result ≡ carries input }
{
    if input.carries() { Some(VALUE) } else { None }
}

fn open(alloc: Global, settings: Settings) -> Result<Core<u64>, AllocError> {
    match Core::open(alloc, settings) {
        Ok(core) => Ok(core),
        Err(_) => Core::open(alloc, settings),
    }
}

/// Returns the settings of a pool whose journal has room for `limit` entries.
fn settings_of(limit: u64) -> Settings {
    Settings {
        journal_limit: limit,
        max_total: 5,
        max_idle: 3,
        min_idle: 2,
        min_evictable_idle_millis: 20,
        test_while_idle: true,
        abandoned: true,
        remove_abandoned_on_borrow: true,
        remove_abandoned_on_maintenance: true,
        remove_abandoned_timeout_millis: 30,
        ..Settings::default()
    }
}

impl Life {
    /// Begins a life, with a journal of at most `limit` entries.
    pub fn begun(alloc: Global, limit: u64) -> Result<Life, AllocError> {
        Ok(Life {
            before: None,
            core: open(alloc, settings_of(limit))?,
            limit,
            drawn: 0,
            closed: false,
            short_of_memory: false,
        })
    }

    /// Runs a life that was begun to its end.
    pub fn run(&mut self, alloc: Global) {
        let mut dice = Dice::new(self.limit);
        self.try_steps(&mut dice, 0);
        self.short_of_memory = self.open_anew(alloc).is_err();
        self.try_steps(&mut dice, HALF);
        self.finish_objects();
        self.close();
        self.clear();
    }

    /// Returns how this life and another one ended.
    pub fn verdict(&self, other: &Life) -> Verdict {
        if self.short_of_memory || other.short_of_memory {
            Verdict::OutOfMemory
        } else if !self.is_finished() || !other.is_finished() {
            Verdict::Unfinished
        } else if self.is_same(other) {
            Verdict::Same
        } else {
            Verdict::Different
        }
    }

    /// Returns whether another life has the same entries, before and after its pool was opened again.
    fn is_same(&self, other: &Life) -> bool {
        self.entries_before() == other.entries_before()
            && self.core.journal() == other.core.journal()
    }

    /// Returns whether its journal is legal, in the two files that it has since it was cut.
    pub fn is_legal(&self, alloc: Global) -> Result<bool, AllocError> {
        let settings = settings_of(self.limit);
        is_legal(alloc, settings, self.entries_before(), &self.core)
    }

    fn entries_before(&self) -> &[Entry] {
        match &self.before {
            Some(segment) => segment.entries.as_slice(),
            None => &[],
        }
    }

    /// Returns whether the pool is closed, and no entry is outstanding: each place is free.
    fn is_finished(&self) -> bool {
        let used = self.core.journal().len() as u64;
        self.closed && self.core.room() == self.limit.saturating_sub(used)
    }

    /// Takes a step, again if it fails for lack of memory. Returns `None` if the journal is full.
    fn step(&mut self, at: u64, input: Input) -> Option<Answer> {
        for _ in 0..TRIES {
            match self.core.step(0, at, input, value_of(input)) {
                Ok((answer, _)) => return Some(self.noted(input, answer)),
                Err(StepFault::JournalFull(_)) => return None,
                Err(StepFault::OutOfMemory(_)) => {}
            }
        }
        None
    }

    fn noted(&mut self, input: Input, answer: Answer) -> Answer {
        if let Answer::Make(id) = answer {
            self.drawn = id.saturating_add(1);
        }
        if matches!(input, Input::Close) {
            self.closed = true;
        }
        answer
    }

    /// Cuts the journal, and continues with a pool that is opened from the state after it.
    fn open_anew(&mut self, alloc: Global) -> Result<(), AllocError> {
        self.before = Some(cut_again(alloc, &mut self.core)?);
        self.core = opened_again(alloc, settings_of(self.limit), &self.core)?;
        Ok(())
    }

    fn try_steps(&mut self, dice: &mut Dice, from: u64) {
        for number in 0..HALF {
            let at = from.saturating_add(number);
            let input = dice.input(at, self.drawn.saturating_sub(1));
            self.step(at, input);
        }
    }

    /// Completes the work on each object. A step that does not apply is refused, or finds no room.
    fn finish_objects(&mut self) {
        for id in 0..self.drawn {
            self.step(
                END,
                Input::Ready {
                    id,
                    outcome: Outcome::ActivateFailed,
                },
            );
            self.step(
                END,
                Input::Added {
                    id,
                    outcome: Outcome::PassivateFailed,
                },
            );
            self.step(END, Input::GiveBack { id });
            self.step(
                END,
                Input::Park {
                    id,
                    outcome: Outcome::TestFailed,
                },
            );
            self.step(
                END,
                Input::Tested {
                    id,
                    outcome: Outcome::TestFailed,
                },
            );
            self.step(END, Input::Destroyed { id });
        }
    }

    fn close(&mut self) {
        if !self.closed {
            self.step(END, Input::Close);
        }
    }

    /// Destroys the idle objects.
    fn clear(&mut self) {
        for _ in 0..self.limit {
            match self.step(END, Input::ClearNext) {
                Some(Answer::DestroyIdle(id)) => self.step(END, Input::Destroyed { id }),
                _ => return,
            };
        }
    }
}
