//! The verdict of a check on a journal, and its line.
ghost use Rattle.std.specs.Prelude.{◌≡◌, [], ◌∷◌, ◌++◌, OnOk};
ghost use Rattle.pool_journal.specs.Text.{line_feed};

use pool_journal::{Answer, push_answer, push_number_word};
use std::alloc::AllocError;

/// The verdict of a check on a journal.
#[derive(Clone, Copy)]
pub(crate) enum Verdict {
    /// Each answer is the expected one.
    Legal,
    /// The next answer isn't this one, which was expected.
    Illegal(Answer),
    /// This file, from 0, doesn't begin with the expected base.
    IllegalBase(u64),
}

impl Verdict {
    ghost use Rattle.pool_engines.specs.Check.{verdict_line, is_legal};

    pub(crate) fn is_legal(&self) -> bool
        ensures { result ≡ is_legal self.now }
    {
        matches!(self, Verdict::Legal)
    }

    /// Appends the line of the verdict after `count` entries.
    pub(crate) fn report(&self, count: u64, line: &mut Vec<u8>) -> Result<(), AllocError>
        ensures { OnOk result (line.new.items ≡ line.old.items ++ verdict_line self.now count) }
    {
        self.push_words(count, line)?;
        line.push(b'\n')?;
        Ok(())
    }

    /// Appends that line without its line feed.
    fn push_words(&self, count: u64, line: &mut Vec<u8>) -> Result<(), AllocError>
        ensures { OnOk result (line.new.items ++ line_feed ∷ [] ≡ line.old.items
            ++ verdict_line self.now count) }
    {
        match self {
            Verdict::Legal => {
                line.extend_from_slice(b"legal")?;
                push_number_word(line, count)
            }
            Verdict::Illegal(due) => {
                line.extend_from_slice(b"illegal")?;
                push_number_word(line, count)?;
                push_answer(line, due)
            }
            Verdict::IllegalBase(file) => {
                line.extend_from_slice(b"illegal base")?;
                push_number_word(line, *file)
            }
        }
    }
}
