//! A call in progress, with the token of the object that it is for.
ghost use Rattle.std.specs.Prelude.{◌≡◌, None, false};

use pool_calls::Operation;

/// A call of a pool, between two reports of its host.
#[derive(Clone, Copy)]
pub struct Call {
    pub(crate) operation: Operation,
    // The token of its object.
    pub(crate) token: u64,
    // By how many milliseconds the wait of a borrow may be longer than the settings say.
    pub(crate) longer: u64,
    // Its ticket, while it waits.
    pub(crate) ticket: Option<u64>,
    // Whether it found something before, so that it goes before those that wait.
    pub(crate) was_served: bool,
}

impl Call {
    /// Returns a call that begins with this operation. The token is that of the object that it is for, if there is one.
    pub fn new(operation: Operation, token: u64) -> Call
        ensures operation { result.operation ≡ operation }
        ensures token { result.token ≡ token }
        ensures ticket { result.ticket ≡ None }
        ensures turn { result.was_served ≡ false }
        ensures longer { result.longer ≡ 0 }
    {
        Call {
            operation,
            token,
            longer: 0,
            ticket: None,
            was_served: false,
        }
    }

    /// Returns the call, as a borrow that may wait by `longer` milliseconds longer than the settings say. It has no effect
    /// on a call of another kind, nor where the settings set no limit.
    pub fn with_longer_wait(self, longer: u64) -> Call
        ensures { result ≡ record self { longer = longer } }
    {
        Call { longer, ..self }
    }

    /// Returns what kind of call it is, and what it has come to: its counts, after a call over several objects.
    pub fn operation(&self) -> Operation
        ensures { result ≡ self.now.operation }
    {
        self.operation
    }
}
