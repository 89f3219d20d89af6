//! What an engine did with the bytes it was given: it took a line, needs more, or is finished.

/// The result of one turn of an engine, before some bytes.
pub(crate) enum LineProgress {
    /// They begin with a whole line, of this length, which is handled.
    Consumed(usize),
    /// They contain no whole line.
    Incomplete,
    /// The engine has finished, whatever follows.
    Finished,
}
