//! A call in progress, in a struct of its host.
ghost use Rattle.std.specs.Prelude.{◌≡◌, not, IfSome, IfNone};
ghost use Rattle.pool_calls.specs.Operations.{is_over};

use pool_host::{Call, CallWords};
use pool_journal::Answer;

/// The mark of a struct that has a call in progress: the bytes `zuphinka`.
const MARK: u64 = 0x616b_6e69_6870_757a;

/// The mark of any other struct that the library wrote.
const NONE: u64 = 0;

/// A struct in which a host keeps a call in progress. Only the library reads and writes it.
#[repr(C)]
#[derive(Clone, Copy)]
pub struct HostCall {
    mark: u64,
    // The host's number of the pool.
    pool: u64,
    words: CallWords,
}

// The size in `zuphinka.h`.
const _: () = prove!(size_of::<HostCall>() == 104);

impl HostCall {
    ghost use Rattle.zuphinka.specs.HostCalls.{Holds, HoldsNone, Keeps};

    /// Returns the answer by which its call ends as a rule, if it is a borrow or a return for which the factory works. It is a
    /// hint: there may be no call.
    #[inline(always)]
    pub(crate) fn usual_end(&self) -> Option<Answer> {
        self.words.usual_end()
    }

    /// Returns the call in progress of the pool with this number, if the struct has one.
    #[inline(always)]
    pub(crate) fn find(&self, pool: u64) -> Option<Call>
        ensures holds { IfSome result (λ c. Holds pool self.now c) }
        ensures none { IfNone result (HoldsNone pool self.now) }
    {
        if self.mark != MARK || self.pool != pool {
            return None;
        }
        self.words.call()
    }

    /// Stores a call of the pool with this number, unless it is over. Returns whether it is in progress.
    #[inline(always)]
    pub(crate) fn keep(&mut self, pool: u64, call: &Call) -> bool
        ensures keeps { Keeps (is_over call.now.operation) pool self.new call.now }
        ensures running { result ≡ not (is_over call.now.operation) }
    {
        match call.words() {
            Some(words) => {
                *self = HostCall {
                    mark: MARK,
                    pool,
                    words,
                };
                true
            }
            None => {
                self.mark = NONE;
                false
            }
        }
    }
}
