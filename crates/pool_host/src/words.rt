//! A call in progress as plain numbers, for a host that keeps it.
ghost use Rattle.std.specs.Prelude.{◌≡◌, not, IfSome, IfNone};
ghost use Rattle.std.specs.Option.{is_some};
ghost use Rattle.pool_calls.specs.Operations.{is_over};
ghost use Rattle.pool_host.specs.Words.{Reads, ReadsNone};

use crate::call::Call;
use pool_calls::OperationWords;
use pool_journal::Answer;

/// A call in progress as plain numbers.
#[repr(C)]
#[derive(Clone, Copy)]
pub struct CallWords {
    operation: OperationWords,
    token: u64,
    longer: u64,
    // The ticket, if it has one.
    ticket: u64,
    // Flags, with 0 for `false`.
    has_ticket: u32,
    was_served: u32,
}

impl Call {
    /// Returns the call as plain numbers; `None` if it is over.
    #[inline(always)]
    pub fn words(&self) -> Option<CallWords>
        ensures reads { IfSome result (λ w. Reads w self.now) }
        ensures over { is_some result ≡ not (is_over self.now.operation) }
    {
        Some(CallWords {
            operation: self.operation.words()?,
            token: self.token,
            longer: self.longer,
            ticket: self.ticket.unwrap_or(0),
            has_ticket: u32::from(self.ticket.is_some()),
            was_served: u32::from(self.was_served),
        })
    }
}

impl CallWords {
    /// Returns the answer by which a borrow or a return ends as a rule, if the factory works for it. It is a hint: the numbers
    /// may be no call's.
    #[inline(always)]
    pub fn usual_end(&self) -> Option<Answer> {
        self.operation.usual_end()
    }

    /// Returns the call that has these numbers, if there is one.
    #[inline(always)]
    pub fn call(&self) -> Option<Call>
        ensures reads { IfSome result (λ c. Reads self.now c) }
        ensures none { IfNone result (ReadsNone self.now) }
    {
        let operation = self.operation.operation()?;
        let ticket = if self.has_ticket != 0 {
            Some(self.ticket)
        } else {
            None
        };
        Some(Call {
            operation,
            token: self.token,
            longer: self.longer,
            ticket,
            was_served: self.was_served != 0,
        })
    }
}
