//! The outside of the engine: bytes come in and go out in order, and faults are counted.
#![tactic(auto)]

mod bytes;
mod numbers;
mod reading;
mod script;
mod script_sink;
mod script_source;
mod sink;
mod slice_source;
mod source;
mod std_sink;
mod std_source;
mod vec_sink;
mod writing;

pub use bytes::Bytes;
pub use numbers::{number_of, push_number};
pub use reading::{MADE_LIMIT, ReadText, TEXT_LIMIT, read_text};
pub use script_sink::ScriptSink;
pub use script_source::ScriptSource;
pub use sink::{Put, Sink};
pub use slice_source::SliceSource;
pub use source::{Got, Source};
pub use std_sink::StdSink;
pub use std_source::StdSource;
pub use vec_sink::VecSink;
pub use writing::{WriteFailed, write_all};
