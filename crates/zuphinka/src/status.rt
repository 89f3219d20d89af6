//! The status of each call of the library, and the code that C gets for it.
ghost use Rattle.std.specs.Prelude.{◌≡◌};
ghost use Rattle.zuphinka.specs.Status.{status_code, fault_status};

use pool_settings::SettingsFault;

/// The status of a call.
#[derive(Clone, Copy)]
pub(crate) enum Status {
    /// The call is done.
    Done,
    /// The handle has no pool.
    NotOpen,
    /// The handle has a pool.
    AlreadyOpen,
    /// An allocation failed.
    OutOfMemory,
    /// The journal has no room for the entry and those outstanding after it.
    JournalFull,
    /// A code of the request is wrong.
    BadRequest,
    /// The journal has no entry, or the base no line, at this position.
    NoEntry,
    /// The line does not fit into the buffer.
    NoRoom,
    /// The settings are not UTF-8.
    NotText,
    /// The settings are not a TOML document.
    NotToml,
    /// No setting has this key.
    UnknownKey,
    /// The value of the key has another type.
    WrongType,
    /// The number of the key is out of its range.
    OutOfRange,
    /// The pool has no such call in progress.
    NoCall,
    /// The report does not fit the call's last action.
    Misfit,
    /// No call is to be woken.
    NoWake,
    /// The call is over: its object is lent, or idle, and no call is to be woken.
    AtOnce,
}

impl Status {
    pub(crate) fn code(self) -> u32
        ensures { result ≡ status_code self }
    {
        match self {
            Status::Done => 0,
            Status::NotOpen => 1,
            Status::AlreadyOpen => 2,
            Status::OutOfMemory => 3,
            Status::JournalFull => 4,
            Status::BadRequest => 5,
            Status::NoEntry => 6,
            Status::NoRoom => 7,
            Status::NotText => 8,
            Status::NotToml => 9,
            Status::UnknownKey => 10,
            Status::WrongType => 11,
            Status::OutOfRange => 12,
            Status::NoCall => 13,
            Status::Misfit => 14,
            Status::NoWake => 15,
            Status::AtOnce => 16,
        }
    }
}

/// Returns the status of an error in settings, without its key.
pub(crate) fn status_of(fault: &SettingsFault) -> Status
    ensures { result ≡ fault_status fault.now }
{
    match fault {
        SettingsFault::NotToml => Status::NotToml,
        SettingsFault::UnknownKey(_) => Status::UnknownKey,
        SettingsFault::WrongType(_) => Status::WrongType,
        SettingsFault::OutOfRange(_) => Status::OutOfRange,
        SettingsFault::OutOfMemory => Status::OutOfMemory,
    }
}
