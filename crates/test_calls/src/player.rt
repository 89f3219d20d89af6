//! A pool, and the calls that a script plays.

use crate::command::{Start, Turn};
use crate::error::LineError;
use pool_calls::{Action, Operation};
use pool_host::{Call, Effects, HostedPool, Options, Report};
use pool_settings::Settings;
use std::alloc::{AllocError, Global};

/// The number of slots.
const SLOTS: usize = 16;

/// A call that was begun.
#[derive(Clone, Copy)]
struct Begun {
    call: Call,
    is_over: bool,
}

/// What the host of a call does next, and what the call has come to.
#[derive(Clone, Copy)]
pub(crate) struct Progress {
    pub(crate) effects: Effects,
    pub(crate) operation: Operation,
}

/// A pool with its calls, at most one in a slot.
#[derive(Drop)]
pub(crate) struct Player {
    pub(crate) pool: HostedPool,
    slots: [Option<Begun>; SLOTS],
}

impl Player {
    pub(crate) fn open(
        alloc: Global,
        settings: Settings,
        options: Options,
    ) -> Result<Player, AllocError> {
        Ok(Player {
            pool: HostedPool::open(alloc, settings, options)?,
            slots: [None; SLOTS],
        })
    }

    /// Begins a call, and goes on with it.
    pub(crate) fn begin(
        &mut self,
        turn: &Turn,
        start: &Start,
    ) -> Result<Option<Progress>, LineError> {
        self.check_free(turn.slot)?;
        let call = self.call_of(turn, start);
        self.put(
            turn.slot,
            Begun {
                call,
                is_over: false,
            },
        );
        self.report(turn, Report::GoOn)
    }

    /// Returns a call that has taken no step.
    fn call_of(&self, turn: &Turn, start: &Start) -> Call {
        match *start {
            Start::Borrow => self.pool.borrow(turn.at),
            Start::Return { id, token } => self.pool.give_back(id, token),
            Start::Invalidate { id, token } => self.pool.invalidate(id, token),
            Start::Detach { id, token } => self.pool.detach(id, token),
            Start::Touch { id } => self.pool.touch(id),
            Start::Add => self.pool.add(),
            Start::Fill => self.pool.fill(),
            Start::Evict => self.pool.evict(),
            Start::Reclaim => self.pool.reclaim(),
            Start::Clear => self.pool.clear(),
            Start::Close => self.pool.close(),
        }
    }

    /// Checks that there is such a slot, without a call that is not over.
    fn check_free(&self, slot: usize) -> Result<(), LineError> {
        let Some(place) = self.slots.get(slot) else {
            return Err(LineError::NoSlot);
        };
        let before = *place;
        match before {
            Some(begun) if !begun.is_over => Err(LineError::SlotTaken),
            _ => Ok(()),
        }
    }

    /// Goes on with the call in a slot, unless the report does not fit.
    pub(crate) fn report(
        &mut self,
        turn: &Turn,
        report: Report,
    ) -> Result<Option<Progress>, LineError> {
        let mut begun = self.begun_in(turn.slot)?;
        let effects = self
            .pool
            .advance(&mut begun.call, turn.caller, turn.at, report);
        let Some(effects) = effects else {
            return Ok(None);
        };
        begun.is_over = matches!(effects.action, Action::Done(_));
        self.put(turn.slot, begun);
        Ok(Some(Progress {
            effects,
            operation: begun.call.operation(),
        }))
    }

    fn begun_in(&self, slot: usize) -> Result<Begun, LineError> {
        let Some(place) = self.slots.get(slot) else {
            return Err(LineError::NoCall);
        };
        let begun = *place;
        begun.ok_or(LineError::NoCall)
    }

    fn put(&mut self, slot: usize, begun: Begun) {
        if let Some(place) = self.slots.get_mut(slot) {
            *place = Some(begun);
        }
    }

    /// Cuts the journal. Returns the number of its entries.
    pub(crate) fn cut(&mut self, alloc: Global) -> Result<usize, AllocError> {
        let segment = self.pool.cut(alloc)?;
        Ok(segment.entries.as_slice().len())
    }
}
