//! What begins a call, as C passes it, and the call of each kind.
ghost use Rattle.std.specs.Prelude.{◌≡◌, true};
ghost use Rattle.std.specs.Option.{is_some};
ghost use Rattle.pool_calls.specs.Operations.{step_at};
ghost use Rattle.pool_host.specs.Hosting.{Begins};
ghost use Rattle.zuphinka.specs.CallCodes.{kind_at};
ghost use Rattle.zuphinka.specs.Calling.{IsKind};

use pool_host::{Call, HostedPool};

/// What a call is.
#[derive(Clone, Copy)]
pub enum Kind {
    Borrow,
    Return,
    Invalidate,
    Detach,
    Touch,
    Add,
    Fill,
    Evict,
    Reclaim,
    Clear,
    Close,
}

/// What begins a call. The kind determines which fields are read.
#[repr(C)]
#[derive(Clone, Copy)]
pub struct CallStart {
    /// The time, in milliseconds.
    pub at: u64,
    /// The object's id; for a borrow the number of milliseconds by which it may wait longer than the settings say.
    pub id: u64,
    /// The object's token.
    pub object: u64,
    /// The number of the caller.
    pub caller: u32,
    /// The code of the kind.
    pub kind: u32,
}

// Returns the kind with this code, if it is one. Most calls borrow or return, so their codes are looked at first.
#[inline(always)]
fn kind_at(code: u32) -> Option<Kind>
    ensures { result ≡ kind_at code }
{
    if code < 3 {
        return match code {
            1 => Some(Kind::Borrow),
            2 => Some(Kind::Return),
            _ => None,
        };
    }
    match code {
        3 => Some(Kind::Invalidate),
        4 => Some(Kind::Detach),
        5 => Some(Kind::Touch),
        6 => Some(Kind::Add),
        7 => Some(Kind::Fill),
        8 => Some(Kind::Evict),
        9 => Some(Kind::Reclaim),
        10 => Some(Kind::Clear),
        11 => Some(Kind::Close),
        _ => None,
    }
}

impl CallStart {
    /// Returns the kind of the call, if its code is valid.
    #[inline(always)]
    pub(crate) fn kind(&self) -> Option<Kind>
        ensures { result ≡ kind_at self.now.kind }
    {
        kind_at(self.kind)
    }

    /// Returns a call of this kind, which begins.
    #[inline(always)]
    pub(crate) fn call(&self, pool: &HostedPool, kind: Kind) -> Call
        ensures begins { Begins pool.now.plan result }
        ensures is { IsKind self.now pool.now.last kind result }
        ensures steps { is_some (step_at result.operation) ≡ true }
    {
        match kind {
            Kind::Borrow => pool.borrow(self.at).with_longer_wait(self.id),
            Kind::Return => pool.give_back(self.id, self.object),
            Kind::Invalidate => pool.invalidate(self.id, self.object),
            Kind::Detach => pool.detach(self.id, self.object),
            Kind::Touch => pool.touch(self.id),
            Kind::Add => pool.add(),
            Kind::Fill => pool.fill(),
            Kind::Evict => pool.evict(),
            Kind::Reclaim => pool.reclaim(),
            Kind::Clear => pool.clear(),
            Kind::Close => pool.close(),
        }
    }
}
