//! A whole text from a source.
ghost use Rattle.std.specs.Prelude.{◌≡◌, ◌+◌, ◌<◌, ◌≤◌, [], IfOk, OnOk, IsErrOf, length};
ghost use Rattle.std.specs.Io.KnownBytes.{Consumes};
ghost use Rattle.graphite_base.specs.Causes.{Rose, faults_after_text};
ghost use Rattle.graphite_base.specs.Known.{IsWhole, TookJust, TookAtMost};
ghost use Rattle.graphite_base.specs.declared.reading.ReadText.TheVariants.{NoMemory};

use crate::{Got, Source};
use std::alloc::{AllocError, Global};

/// The greatest limit of a text, in bytes: 256 MiB.
pub const TEXT_LIMIT: usize = 268_435_456;

/// The most vertices, and the most edges, that a made text may have. It is then no longer than
/// [`TEXT_LIMIT`].
pub const MADE_LIMIT: u32 = 1_000_000;

/// Bytes that one read of a text asks for at most.
const PIECE: usize = 65_536;

/// Why a text was not read.
#[derive(Clone, Copy, Debug, PartialEq, Eq)]
pub enum ReadText {
    /// A read failed before the end, and before more bytes came than the limit allows. One fault was
    /// counted.
    Failed,
    /// More bytes came than the limit allows, before the end and before a read failed.
    TooLong,
    /// Memory could not be had.
    NoMemory,
}

impl From<AllocError> for ReadText {
    ghost from_gives = { λ _ e. e ≡ NoMemory };

    fn from(_error: AllocError) -> ReadText {
        ReadText::NoMemory
    }
}

/// All bytes of a source, up to its end. `limit` is a number of bytes, at most [`TEXT_LIMIT`], and no
/// more than one byte past it is taken. Nothing is read after a read that failed: the count of faults
/// rises by one at [`ReadText::Failed`], and else stays.
pub fn read_text<S: Source>(
    alloc: Global,
    source: &mut S,
    limit: usize,
) -> Result<Vec<u8>, ReadText>
    requires { limit ≤ TEXT_LIMIT }
    ensures whole { IfOk result (λ text. IsWhole (S.left source.old) (S.left source.new) text.items) }
    ensures within { IfOk result (λ text. length text.items ≤ limit) }
    ensures too_long { IsErrOf result ReadText.TooLong
        → TookJust (S.left source.old) (S.left source.new) (limit + 1) }
    ensures failed { IsErrOf result ReadText.Failed → Rose (S.faults source.old) (S.faults source.new) }
    ensures failed_within { IsErrOf result ReadText.Failed
        → TookAtMost (S.left source.old) (S.left source.new) limit }
    ensures counted { S.faults source.new ≡ faults_after_text result (S.faults source.old) }

    // Whatever the answer is.
    ensures at_most { TookAtMost (S.left source.old) (S.left source.new) (limit + 1) }
    ensures later { S.faults source.old ≤ S.faults source.new }
{
    let mut buffer = vec![in alloc; 0; PIECE]?;
    let mut text = Vec::new(alloc);
    gather(source, &mut buffer, &mut text, limit)?;
    Ok(text)
}

// Appends to an empty text, piece by piece through the buffer.
fn gather<S: Source>(
    source: &mut S,
    buffer: &mut [u8],
    text: &mut Vec<u8>,
    limit: usize,
) -> Result<(), ReadText>
    requires limit { limit ≤ TEXT_LIMIT }
    requires buffer { 0 < length buffer.old }
    requires text { text.old.items ≡ [] }
    ensures whole { OnOk result (IsWhole (S.left source.old) (S.left source.new) text.new.items) }
    ensures within { OnOk result (length text.new.items ≤ limit) }
    ensures too_long { IsErrOf result ReadText.TooLong
        → TookJust (S.left source.old) (S.left source.new) (limit + 1) }
    ensures failed { IsErrOf result ReadText.Failed → Rose (S.faults source.old) (S.faults source.new) }
    ensures failed_within { IsErrOf result ReadText.Failed
        → TookAtMost (S.left source.old) (S.left source.new) limit }
    ensures counted { S.faults source.new ≡ faults_after_text result (S.faults source.old) }
    ensures at_most { TookAtMost (S.left source.old) (S.left source.new) (limit + 1) }
    ensures later { S.faults source.old ≤ S.faults source.new }
{
    while text.len() <= limit {
        let most = buffer.len().min(limit + 1 - text.len());
        match source.read(&mut buffer[..most]) {
            Got::Bytes(count) => text.extend_from_slice(&buffer[..count])?,
            Got::End => return Ok(()),
            Got::Failed => return Err(ReadText::Failed),
        }
    }
    Err(ReadText::TooLong)
}
