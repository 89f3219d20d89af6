//! The numbers of calls that failed for lack of memory.

use std::fmt;
use std::fmt::Display;

/// A call of the pool that can fail for lack of memory.
#[derive(Clone, Copy)]
pub enum Call {
    Open,
    Borrow,
    GiveBack,
    Invalidate,
    Touch,
    Add,
    Fill,
    Evict,
    Reclaim,
    Maintain,
    Clear,
    Close,
    JournalCopy,
    Cut,
}

/// All calls that can fail for lack of memory.
pub const CALLS: [Call; 14] = [
    Call::Open,
    Call::Borrow,
    Call::GiveBack,
    Call::Invalidate,
    Call::Touch,
    Call::Add,
    Call::Fill,
    Call::Evict,
    Call::Reclaim,
    Call::Maintain,
    Call::Clear,
    Call::Close,
    Call::JournalCopy,
    Call::Cut,
];

impl Display for Call {
    fn fmt<W: fmt::Write>(&self, f: &mut fmt::Formatter<W>) -> fmt::Result {
        f.write_str(match self {
            Call::Open => "SharedPool::open",
            Call::Borrow => "borrow",
            Call::GiveBack => "give_back",
            Call::Invalidate => "invalidate",
            Call::Touch => "touch",
            Call::Add => "add",
            Call::Fill => "fill",
            Call::Evict => "evict",
            Call::Reclaim => "reclaim",
            Call::Maintain => "maintain",
            Call::Clear => "clear",
            Call::Close => "close",
            Call::JournalCopy => "journal_copy",
            Call::Cut => "cut",
        })
    }
}

/// The number of times that each call failed for lack of memory, at the place of the call in the enum.
#[derive(Clone, Copy)]
pub struct Refusals {
    counts: [u64; 14],
}

impl Refusals {
    pub fn none() -> Refusals {
        Refusals { counts: [0; 14] }
    }

    pub fn of(&self, call: Call) -> u64 {
        self.counts[call as usize]
    }

    fn add(&mut self, call: Call, count: u64) {
        let place = call as usize;
        self.counts[place] = self.counts[place].saturating_add(count);
    }

    pub fn note(&mut self, call: Call) {
        self.add(call, 1);
    }

    pub fn join(&mut self, others: &Refusals) {
        for call in CALLS {
            self.add(call, others.of(call));
        }
    }
}
