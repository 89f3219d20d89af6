//! A pool for C: what each export of the library works on.
ghost use Rattle.std.specs.Prelude.{◌≡◌, IfOk};
ghost use Rattle.pool_host.specs.Hosting.{Opened};
ghost use Rattle.zuphinka.specs.Calling.{LimitsOvertakes, ReportsState, WakesTo, ends_loan, is_lent_in, running_with};
ghost use Rattle.zuphinka.specs.Opening.{options_of};

use crate::pool_options::PoolOptions;
use crate::pool_state::PoolState;
use crate::status::Status;
use pool_core::Recorder;
use pool_host::{Hooks, HostedPool};
use pool_journal::{Answer, Input};
use pool_settings::Settings;
use std::alloc::{AllocError, Global};
use std::marker::Model;

/// A pool for C.
#[derive(Drop)]
pub struct OpenPool {
    pub(crate) hosted: HostedPool,
    // The number of calls in progress.
    pub(crate) running: u64,
    // The host's number of the pool.
    pub(crate) number: u64,
    // Which calls its factory has.
    pub(crate) hooks: Hooks,
}

impl Model for OpenPool {
    ghost use Rattle.zuphinka.specs.Opening.{OpenModel};

    ghost Value = { OpenModel };

    ghost view = { λ p. record {
      hosted = p.hosted;
      running = p.running;
      number = p.number;
      hooks = p.hooks;
    } };
}

// Whether the object of a call, whose expected answer is this, is lent.
fn ends_loan(expected: Answer) -> bool
    ensures { result ≡ ends_loan expected }
{
    !matches!(expected, Answer::Refused(_) | Answer::Gone)
}

/// Returns the number of calls in progress after one began, up to 2^64 - 1.
#[inline(always)]
pub(crate) fn running_with(running: u64, is_running: bool) -> u64
    ensures { result ≡ running_with is_running running }
{
    if is_running {
        running.saturating_add(1)
    } else {
        running
    }
}

impl OpenPool {
    /// Opens a pool without objects or calls.
    ///
    /// # Errors
    ///
    /// An allocation failed.
    pub(crate) fn open(
        alloc: Global,
        settings: Settings,
        options: &PoolOptions,
    ) -> Result<OpenPool, AllocError>
        ensures hosted { IfOk result
            (λ p. Opened settings (options_of options.now) p.hosted) }
        ensures number { IfOk result (λ p. p.number ≡ options.now.pool) }
        ensures hooks { IfOk result (λ p. p.hooks ≡ (options_of options.now).hooks) }
        ensures running { IfOk result (λ p. p.running ≡ 0) }
    {
        Ok(OpenPool {
            hosted: HostedPool::open(alloc, settings, options.options())?,
            running: 0,
            number: options.pool,
            hooks: options.options().hooks,
        })
    }

    /// Returns the pool with its journal.
    pub(crate) fn core(&self) -> &Recorder<u64>
        ensures { result.now ≡ self.now.hosted.core }
    {
        self.hosted.core()
    }

    /// Stores the ticket of the next call to wake, if there is one.
    pub(crate) fn next_wake(&mut self, ticket: &mut u64) -> Status
        ensures { WakesTo self.old self.new ticket.old ticket.new result }
    {
        match self.hosted.next_wake() {
            Some(next) => {
                *ticket = next;
                Status::Done
            }
            None => Status::NoWake,
        }
    }

    /// From now on each call that has waited for `millis` milliseconds is overtaken at most `most` times, or as often as the
    /// oldest one was, if that is more. Returns this bound.
    pub(crate) fn limit_overtakes(&mut self, millis: u64, most: u64) -> u64
        ensures { LimitsOvertakes millis most self.old self.new result }
    {
        self.hosted.limit_overtakes(millis, most)
    }

    /// Returns whether the object with this id is lent.
    pub(crate) fn is_lent(&self, id: u64) -> bool
        ensures { result ≡ is_lent_in self.now id }
    {
        ends_loan(self.hosted.core().due(0, Input::GiveBack { id }))
    }

    /// Returns what is true of the pool besides its counts.
    pub(crate) fn state(&self) -> PoolState
        ensures { ReportsState self.now result }
    {
        PoolState {
            waiting: self.hosted.waiting() as u64,
            running: self.running,
            is_closed: self.hosted.is_closed(),
        }
    }
}
