//! What a host reports after an action of a call.

/// What the host of a call reports.
#[derive(Clone, Copy, Debug, PartialEq, Eq)]
pub enum Report {
    /// The call begins, or goes on after many steps.
    GoOn,
    /// The factory made the object, which has this token.
    Made(u64),
    /// Another call of the factory succeeded.
    Succeeded,
    /// A call of the factory failed: it refused, or ended with an error.
    Failed,
    /// The sleep is over: the ticket was woken, or the time is over.
    Woken,
    /// The journal was cut.
    RoomMade,
    /// The journal could not be cut.
    NoRoom,
    /// The host gives the call up, and has stopped what was under way.
    GivenUp,
}
