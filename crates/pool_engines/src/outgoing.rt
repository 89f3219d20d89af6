//! Writes the buffered output, so that there is room for a line.
ghost use Rattle.std.specs.Prelude.{◌≡◌, ℕ, ◌+◌, ◌<◌, ◌≤◌, List, [], ◌++◌, length, take, is_err, IsOk, IfOk, IfErr, OnOk, OnErr, vec_capacity};
ghost use Rattle.std.specs.Io.KnownBytes.{Appends, Keeps};
ghost use Rattle.pool_engines.specs.Handing.{AppendsFront, HasRoom, buffer_room};
ghost use Rattle.pool_engines.specs.Faults.{IsReported};

use crate::engine_fault::EngineFault;
use crate::sink::Sink;

/// The most bytes that are buffered before a line.
const FULL: usize = 65_536 - 256;

/// Writes the buffered output if there is little room left. Then a line has room.
pub(crate) fn reserve_line<W: Sink>(
    buffered: &mut Vec<u8>,
    writer: &mut W,
) -> Result<(), EngineFault>
    requires room { buffer_room ≤ vec_capacity buffered.old }
    ensures ok { OnOk result ((sent : List ℕ) × (buffered.old.items ≡ sent ++ buffered.new.items)
        × Appends (W.contents writer.old) (W.contents writer.new) sent) }
    ensures room { OnOk result (HasRoom buffered.new) }
    ensures capacity { vec_capacity buffered.new ≡ vec_capacity buffered.old }
    ensures on_error { OnErr result
        (AppendsFront (W.contents writer.old) (W.contents writer.new) buffered.old.items) }
    ensures fault { IfErr result (λ fault. fault ≡ EngineFault.Write) }
    ensures reported { IsReported (is_err result) (W.may_have_failed writer.old)
        (W.may_have_failed writer.new) }
{
    if buffered.len() > FULL {
        write_buffered(buffered, writer)
    } else {
        Ok(())
    }
}

/// Writes all buffered output, and leaves the buffer empty. On an error the writer got a prefix of it. If the buffer is
/// empty, the writer is not called.
pub(crate) fn write_buffered<W: Sink>(
    buffered: &mut Vec<u8>,
    writer: &mut W,
) -> Result<(), EngineFault>
    ensures ok { OnOk result ((buffered.new.items ≡ [])
        × Appends (W.contents writer.old) (W.contents writer.new) buffered.old.items) }
    ensures on_error { OnErr result
        (AppendsFront (W.contents writer.old) (W.contents writer.new) buffered.old.items) }
    ensures fault { IfErr result (λ fault. fault ≡ EngineFault.Write) }
    ensures reported { IsReported (is_err result) (W.may_have_failed writer.old)
        (W.may_have_failed writer.new) }
    ensures idle { buffered.old.items ≡ [] → IsOk result }
    ensures capacity { vec_capacity buffered.new ≡ vec_capacity buffered.old }
{
    if buffered.is_empty() {
        return Ok(());
    }
    write_whole(writer, buffered)?;
    buffered.clear();
    match writer.flush_all() {
        Ok(()) => Ok(()),
        Err(_) => Err(EngineFault::Write),
    }
}

/// Writes all the bytes. On an error a prefix of them is written.
fn write_whole<W: Sink>(writer: &mut W, bytes: &[u8]) -> Result<(), EngineFault>
    ensures ok { OnOk result (Appends (W.contents writer.old) (W.contents writer.new) bytes.now) }
    ensures on_error { OnErr result
        (AppendsFront (W.contents writer.old) (W.contents writer.new) bytes.now) }
    ensures fault { IfErr result (λ fault. fault ≡ EngineFault.Write) }
    ensures reported { IsReported (is_err result) (W.may_have_failed writer.old)
        (W.may_have_failed writer.new) }
{
    let mut rest = bytes;
    while !rest.is_empty() {
        let count = match writer.write_some(rest) {
            Ok(count) => count,
            Err(_) => return Err(EngineFault::Write),
        };
        rest = &rest[count..];
    }
    Ok(())
}
