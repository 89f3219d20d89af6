//! The links of an object to its neighbours in the queue, in little memory.
ghost use Rattle.std.specs.Prelude.{◌≡◌, None};

use std::marker::Model;

/// The keys before and after an object in the queue, if there are any. The two marks share a word, so that
/// many objects take less memory than with two options.
#[derive(Drop)]
pub(crate) struct Links {
    before: usize,
    after: usize,
    has_before: bool,
    has_after: bool,
}

impl Model for Links {
    ghost use Rattle.pool_slots.specs.Neighbours.{Neighbours, marked};

    ghost Value = { Neighbours };

    ghost view = { λ l. record {
      before = marked l.has_before l.before;
      after = marked l.has_after l.after;
    } };
}

impl Links {
    /// Returns links without neighbours.
    pub(crate) fn none() -> Links
        ensures before { result.before ≡ None }
        ensures after { result.after ≡ None }
    {
        Links {
            before: 0,
            after: 0,
            has_before: false,
            has_after: false,
        }
    }

    #[inline(always)]
    pub(crate) fn before(&self) -> Option<usize>
        ensures { result ≡ self.now.before }
    {
        if self.has_before {
            Some(self.before)
        } else {
            None
        }
    }

    #[inline(always)]
    pub(crate) fn after(&self) -> Option<usize>
        ensures { result ≡ self.now.after }
    {
        if self.has_after {
            Some(self.after)
        } else {
            None
        }
    }

    #[inline(always)]
    pub(crate) fn set_before(&mut self, before: Option<usize>)
        ensures { self.new ≡ record self.old { before = before } }
    {
        self.has_before = before.is_some();
        self.before = before.unwrap_or(0);
    }

    #[inline(always)]
    pub(crate) fn set_after(&mut self, after: Option<usize>)
        ensures { self.new ≡ record self.old { after = after } }
    {
        self.has_after = after.is_some();
        self.after = after.unwrap_or(0);
    }
}
