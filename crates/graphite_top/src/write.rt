//! A whole text, written with the status that it comes with.
ghost use Rattle.std.specs.Prelude.{◌≤◌};
ghost use Rattle.graphite_top.specs.Call.{WritesThis, IsWritten};

use crate::Status;
use graphite_base::{Sink, write_all};

/// Writes a whole text that comes with a status.
pub fn write<K: Sink>(sink: &mut K, text: &[u8], status: Status) -> Status
    requires { IsWritten status }
    ensures writes { WritesThis result (record { status = status; text = text.now }) (K.written sink.old) (K.written sink.new) (K.faults sink.old) (K.faults sink.new) }
    ensures later { K.faults sink.old ≤ K.faults sink.new }
{
    match write_all(sink, text) {
        Ok(()) => status,
        Err(_) => Status::WriteFault,
    }
}
