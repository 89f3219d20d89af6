//! The calls that can fail for lack of memory.

use std::fmt;
use std::fmt::Display;

/// A call of the libraries that can fail for lack of memory.
#[derive(Clone, Copy, PartialEq, Eq)]
pub enum Part {
    UnopenedPool,
    Open,
    Borrow,
    GiveBack,
    Invalidate,
    Touch,
    Add,
    Fill,
    Evict,
    Reclaim,
    Maintain,
    Clear,
    Close,
    JournalCopy,
    Cut,
    CutBelow,
    CoreOpen,
    CoreStep,
    CoreCut,
    Statistics,
}

impl Display for Part {
    fn fmt<W: fmt::Write>(&self, f: &mut fmt::Formatter<W>) -> fmt::Result {
        f.write_str(match self {
            Part::UnopenedPool => "UnopenedPool::new",
            Part::Open => "SharedPool::open",
            Part::Borrow => "borrow",
            Part::GiveBack => "give_back",
            Part::Invalidate => "invalidate",
            Part::Touch => "touch",
            Part::Add => "add",
            Part::Fill => "fill",
            Part::Evict => "evict",
            Part::Reclaim => "reclaim",
            Part::Maintain => "maintain",
            Part::Clear => "clear",
            Part::Close => "close",
            Part::JournalCopy => "journal_copy",
            Part::Cut => "cut",
            Part::CutBelow => "cut_below",
            Part::CoreOpen => "Core::open",
            Part::CoreStep => "Core::step",
            Part::CoreCut => "Core::cut",
            Part::Statistics => "Statistics::of",
        })
    }
}

/// The last call that failed for lack of memory.
#[derive(Drop)]
pub struct Notes {
    pub refused: Option<Part>,
}

impl Notes {
    pub fn note(&mut self, part: Part) {
        self.refused = Some(part);
    }
}
