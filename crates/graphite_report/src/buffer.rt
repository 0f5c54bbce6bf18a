//! The buffer in which the text of a report is gathered, so that a write is large.
ghost use Rattle.std.specs.Prelude.{◌≡◌, ◌≤◌, [], OnOk, OnErr};
ghost use Rattle.graphite_base.specs.Causes.{Rose};
ghost use Rattle.graphite_base.specs.Known.{AppendsPart};
ghost use Rattle.graphite_report.specs.Through.{Sends};

use graphite_base::{Sink, WriteFailed, write_all};

/// How many bytes are gathered before they are sent.
pub const PIECE: usize = 65_536;

/// Sends what the buffer holds, and empties it.
pub fn send<K: Sink>(buffer: &mut Vec<u8>, sink: &mut K) -> Result<(), WriteFailed>
    ensures sends { OnOk result (Sends (K.written sink.old) (K.written sink.new) buffer.old.items buffer.new.items) }
    ensures empty { OnOk result (buffer.new.items ≡ []) }
    ensures part { OnErr result (AppendsPart (K.written sink.old) (K.written sink.new) buffer.old.items) }
    ensures failed { OnErr result (Rose (K.faults sink.old) (K.faults sink.new)) }
    ensures later { K.faults sink.old ≤ K.faults sink.new }
{
    write_all(sink, buffer)?;
    buffer.clear();
    Ok(())
}

/// Sends what the buffer holds where that is enough for a large write.
pub fn send_full<K: Sink>(buffer: &mut Vec<u8>, sink: &mut K) -> Result<(), WriteFailed>
    ensures sends { OnOk result (Sends (K.written sink.old) (K.written sink.new) buffer.old.items buffer.new.items) }
    ensures part { OnErr result (AppendsPart (K.written sink.old) (K.written sink.new) buffer.old.items) }
    ensures failed { OnErr result (Rose (K.faults sink.old) (K.faults sink.new)) }
    ensures later { K.faults sink.old ≤ K.faults sink.new }
{
    if buffer.len() < PIECE {
        return Ok(());
    }
    send(buffer, sink)
}
