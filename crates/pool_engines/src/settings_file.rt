//! Reads the settings from a file of limited length.
ghost use Rattle.std.specs.Prelude.{◌≡◌, ℕ, ◌+◌, ◌<◌, ◌≤◌, List, [], ◌++◌, length, is_err, vec_len, vec_capacity, Err, IfOk, IfErr, IfSome, OnOk};
ghost use Rattle.std.specs.Io.KnownBytes.{Consumes, IsAtEnd, Keeps};
ghost use Rattle.pool_settings.specs.Ranges.{IsInRange};
ghost use Rattle.pool_engines.specs.SettingsFile.{TakesAtMost, IsAnswered, IsJudged, is_unread};
ghost use Rattle.pool_engines.specs.Faults.{IsReported};

use crate::file_fault::FileFault;
use crate::input_buffer::read_behind;
use crate::source::Source;
use pool_settings::Settings;
use std::alloc::Global;
use std::str;

/// The most bytes that a settings file may have.
const LIMIT: usize = 1_048_576;

/// The most bytes that are read at once.
const CHUNK: usize = 4_096;

/// Reads the settings from a file, and at most 1,048,577 bytes of it.
///
/// # Errors
///
/// `OutOfMemory` before anything is read, and `Read` if the reader fails. Then `TooLong` for more than 1,048,576 bytes,
/// `NotUtf8` for bytes that aren't text, and `Text` for what [`Settings::from_text`] rejects, also for an allocation
/// failure in it.
pub fn read_settings<R: Source>(alloc: Global, reader: &mut R) -> Result<Settings, FileFault>
    ensures read { TakesAtMost 1048577 (R.remaining reader.old) (R.remaining reader.new) }
    ensures answer { IfSome (R.remaining reader.old) (λ bytes. IsAnswered bytes result) }
    ensures in_range { IfOk result IsInRange }
    ensures unread { result ≡ Err FileFault.OutOfMemory
        → Keeps (R.remaining reader.old) (R.remaining reader.new) }
    ensures reported { IsReported (is_unread result) (R.may_have_failed reader.old)
        (R.may_have_failed reader.new) }
{
    let mut bytes = match Vec::with_capacity(alloc, LIMIT + 1) {
        Ok(bytes) => bytes,
        Err(_) => return Err(FileFault::OutOfMemory),
    };
    fill(&mut bytes, reader)?;
    judge(alloc, &bytes)
}

/// Appends what the reader has, up to one byte more than the longest settings file has. There is room for it.
fn fill<R: Source>(bytes: &mut Vec<u8>, reader: &mut R) -> Result<(), FileFault>
    requires empty { bytes.old.items ≡ [] }
    requires room { 1048577 ≤ vec_capacity bytes.old }
    ensures ok { OnOk result ((length bytes.new.items ≤ 1048577)
        × Consumes (R.remaining reader.old) (R.remaining reader.new) bytes.new.items
        × (length bytes.new.items < 1048577 → IsAtEnd (R.remaining reader.new))) }
    ensures error { IfErr result (λ fault. (fault ≡ FileFault.Read)
        × TakesAtMost 1048577 (R.remaining reader.old) (R.remaining reader.new)) }
    ensures reported { IsReported (is_err result) (R.may_have_failed reader.old)
        (R.may_have_failed reader.new) }
{
    let mut chunk = [0; CHUNK];
    while bytes.len() < LIMIT + 1 {
        let most = CHUNK.min(LIMIT + 1 - bytes.len());
        match read_behind(&mut chunk, 0, most, reader) {
            Ok(0) => return Ok(()),
            Ok(count) => append(bytes, &chunk[..count]),
            Err(_) => return Err(FileFault::Read),
        }
    }
    Ok(())
}

/// Appends bytes for which there is room.
fn append(bytes: &mut Vec<u8>, more: &[u8])
    requires { vec_len bytes.old + length more.now ≤ vec_capacity bytes.old }
    ensures items { bytes.new.items ≡ bytes.old.items ++ more.now }
    ensures room { vec_capacity bytes.old ≤ vec_capacity bytes.new }
{
    match bytes.extend_from_slice(more) {
        Ok(()) => {}
        Err(_) => unreachable!(),
    }
}

/// Returns the settings in the bytes of a file, if these aren't too many.
fn judge(alloc: Global, bytes: &[u8]) -> Result<Settings, FileFault>
    ensures judged { IsJudged bytes.now result }
    ensures in_range { IfOk result IsInRange }
{
    if bytes.len() > LIMIT {
        return Err(FileFault::TooLong);
    }
    match str::from_utf8(bytes) {
        Ok(text) => Settings::from_text(alloc, text).map_err(FileFault::Text),
        Err(_) => Err(FileFault::NotUtf8),
    }
}
