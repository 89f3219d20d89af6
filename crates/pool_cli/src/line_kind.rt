//! The kind of a line that is invalid at its position, for a hint.
ghost use Rattle.std.specs.Prelude.{◌≡◌};
ghost use Rattle.pool_cli.specs.Hints as Spec;

use pool_journal::{read_entry, read_head, read_input};

/// The kind of a line that is invalid at its position, but would be valid elsewhere.
#[derive(Clone, Copy, Debug)]
pub(crate) enum LineKind {
    /// The first line of a segment.
    Head,
    /// A line of a script.
    Request,
    /// A line of a journal.
    Entry,
    /// A line that ends with a carriage return and a line feed.
    CarriageReturn,
}

/// Returns the kind of the line that the bytes begin with. `CarriageReturn` is found
/// only if the bytes are that one line.
pub(crate) fn kind_of(bytes: &[u8]) -> Option<LineKind>
    ensures { result ≡ Spec.kind_of bytes.now }
{
    if read_head(bytes).is_ok() {
        Some(LineKind::Head)
    } else if read_input(bytes).is_ok() {
        Some(LineKind::Request)
    } else if read_entry(bytes).is_ok() {
        Some(LineKind::Entry)
    } else if ends_with_return(bytes) {
        Some(LineKind::CarriageReturn)
    } else {
        None
    }
}

fn ends_with_return(bytes: &[u8]) -> bool
    ensures { result ≡ Spec.ends_with_return bytes.now }
{
    let count = bytes.len();
    count > 1 && bytes[count - 2] == b'\r' && bytes[count - 1] == b'\n'
}
