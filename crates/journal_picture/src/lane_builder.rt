//! Collects the bars, waits and counts of a picture with lanes, entry by entry.

use crate::counts::Counts;
use crate::history::{Bar, History, Sample, Waiting};
use journal_tools::moved;
use pool_journal::{Answer, Entry, Input, Phase, Record};
use std::alloc::{AllocError, Global};
use std::collections::HashMap;

/// A pass over entries that stores the parts to draw.
///
/// A time before an earlier entry's counts as that one.
#[derive(Drop)]
pub(crate) struct LaneBuilder {
    history: History,
    now: Sample,
    /// The bar that an object is in.
    bars: HashMap<u64, usize>,
    /// The wait that a caller is in.
    waits: HashMap<u32, usize>,
}

impl LaneBuilder {
    pub(crate) fn new(alloc: Global) -> LaneBuilder {
        LaneBuilder {
            history: History {
                entries: 0,
                position: 0,
                first: 0,
                last: 0,
                bars: Vec::new(alloc),
                waits: Vec::new(alloc),
                samples: Vec::new(alloc),
                objects: Vec::new(alloc),
                waiters: Vec::new(alloc),
            },
            now: Sample {
                at: 0,
                counts: Counts::none(),
            },
            bars: HashMap::new(alloc),
            waits: HashMap::new(alloc),
        }
    }

    /// Takes in an object that is present before the first entry.
    pub(crate) fn put(&mut self, record: &Record) -> Result<(), AllocError> {
        self.move_object(record.id, record.phase, None)
    }

    /// Takes in the next entry.
    pub(crate) fn take(&mut self, entry: &Entry) -> Result<(), AllocError> {
        if self.history.entries == 0 {
            self.history.first = entry.at;
        }
        self.now.at = self.now.at.max(entry.at);
        self.history.last = self.now.at;
        self.history.entries = self.history.entries.saturating_add(1);
        if let Some((object, phase)) = moved(entry) {
            self.move_object(object, phase, Some(entry.caller))?;
        }
        match entry.input {
            Input::Borrow { began: _ } => self.note_wait(entry.caller, entry.answer),
            _ => Ok(()),
        }
    }

    /// Moves an object to a phase.
    fn move_object(
        &mut self,
        object: u64,
        phase: Phase,
        caller: Option<u32>,
    ) -> Result<(), AllocError> {
        let at = self.now.at;
        match self.bars.remove(&object) {
            Some(place) => self.end_bar(place),
            None => self.history.objects.push(object)?,
        }
        if phase != Phase::Gone {
            self.bars.insert(object, self.history.bars.len())?;
            self.history.bars.push(Bar {
                object,
                phase,
                caller,
                from: at,
                until: u64::MAX,
            })?;
        }
        self.now.counts.add(phase);
        self.history.samples.push(self.now)?;
        Ok(())
    }

    fn end_bar(&mut self, place: usize) {
        if let Some(bar) = self.history.bars.get_mut(place) {
            bar.until = self.now.at;
            self.now.counts.remove(bar.phase);
        }
    }

    /// Notes whether a borrower waits after an answer.
    fn note_wait(&mut self, caller: u32, answer: Answer) -> Result<(), AllocError> {
        let at = self.now.at;
        if answer != Answer::Wait {
            if let Some(place) = self.waits.remove(&caller) {
                if let Some(wait) = self.history.waits.get_mut(place) {
                    wait.until = at;
                }
            }
            return Ok(());
        }
        if self.waits.contains_key(&caller) {
            return Ok(());
        }
        if !self.history.waiters.contains(&caller) {
            self.history.waiters.push(caller)?;
        }
        self.waits.insert(caller, self.history.waits.len())?;
        self.history.waits.push(Waiting {
            caller,
            from: at,
            until: u64::MAX,
        })?;
        Ok(())
    }

    /// Returns the history of the entries, the first of which has this position. Bars from before the first entry are
    /// drawn from that on, and bars and waits that continue at the end are drawn up to it.
    pub(crate) fn finish(self, position: u64) -> History {
        let mut history = self.history;
        history.position = position;
        for bar in history.bars.iter_mut() {
            bar.from = bar.from.max(history.first);
            bar.until = bar.until.min(history.last).max(bar.from);
        }
        for wait in history.waits.iter_mut() {
            wait.until = wait.until.min(history.last);
        }
        history
    }
}
