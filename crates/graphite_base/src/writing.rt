//! Whole pieces into a sink.
ghost use Rattle.std.specs.Prelude.{◌≡◌, ◌≤◌, [], OnOk, OnErr, length};
ghost use Rattle.std.specs.Io.KnownBytes.{Appends};
ghost use Rattle.graphite_base.specs.Causes.{Rose, one_more};
ghost use Rattle.graphite_base.specs.Known.{AppendsPart};

use crate::{Put, Sink};

/// A sink failed before all bytes were written.
#[derive(Clone, Copy, Debug, PartialEq, Eq)]
pub struct WriteFailed;

/// Writes all bytes of `piece`, or a part of it before the sink's first failure, after which nothing
/// is written. The count of faults rises by one at [`WriteFailed`], and else stays. An empty piece
/// leaves the sink as it is. It takes no memory.
pub fn write_all<K: Sink>(sink: &mut K, piece: &[u8]) -> Result<(), WriteFailed>
    ensures done { OnOk result (Appends (K.written sink.old) (K.written sink.new) piece.now) }
    ensures part { OnErr result (AppendsPart (K.written sink.old) (K.written sink.new) piece.now) }
    ensures empty { piece.now ≡ [] → sink.new ≡ sink.old }
    ensures later { K.faults sink.old ≤ K.faults sink.new }
    ensures failed { OnErr result (Rose (K.faults sink.old) (K.faults sink.new)) }
    ensures one_fault { OnErr result (K.faults sink.new ≡ one_more (K.faults sink.old)) }
    ensures no_fault { OnOk result (K.faults sink.new ≡ K.faults sink.old) }
{
    let mut done = 0;
    while done < piece.len() {
        match sink.write(&piece[done..]) {
            Put::Took(count) => done += count,
            Put::Failed => return Err(WriteFailed),
        }
    }
    Ok(())
}
