//! What a host reports of the last action of a call, as C passes it.
ghost use Rattle.std.specs.Prelude.{◌≡◌};
ghost use Rattle.zuphinka.specs.CallCodes.{plain_report, report_of};

use pool_host::Report;

/// What became of the last action of a call. The report determines which fields are read.
#[repr(C)]
#[derive(Clone, Copy)]
pub struct CallEvent {
    /// The time, in milliseconds.
    pub at: u64,
    /// The token of the object that was made.
    pub object: u64,
    /// The number of the caller.
    pub caller: u32,
    /// The code of the report.
    pub report: u32,
}

// The reports that their codes alone determine.
fn plain_report(code: u32) -> Option<Report>
    ensures { result ≡ plain_report code }
{
    match code {
        1 => Some(Report::GoOn),
        3 => Some(Report::Succeeded),
        4 => Some(Report::Failed),
        5 => Some(Report::Woken),
        6 => Some(Report::RoomMade),
        7 => Some(Report::NoRoom),
        8 => Some(Report::GivenUp),
        _ => None,
    }
}

impl CallEvent {
    /// Returns the report, if its code is valid.
    pub(crate) fn report(&self) -> Option<Report>
        ensures { result ≡ report_of self.now }
    {
        if self.report == 2 {
            return Some(Report::Made(self.object));
        }
        plain_report(self.report)
    }
}
