//! Ends in memory and of the system, whole texts, and numbers.
use graphite_base::{
    Bytes, Got, ReadText, ScriptSink, ScriptSource, Sink, SliceSource, Source, StdSink, StdSource,
    VecSink, WriteFailed, number_of, push_number, read_text, write_all,
};
use std::alloc::Global;
use std::hash::{DefaultHasher, Hash, Hasher};
use std::io;
use std::io::{Error, ErrorKind, Read, Write};
use std::process::Abort;
use std::test::Fail;

/// What a hasher makes of a value.
fn hash_of(bytes: &Bytes) -> u64 {
    let mut hasher = DefaultHasher::new();
    bytes.hash(&mut hasher);
    hasher.finish()
}

#[test]
fn bytes_are_kept(rt: HostRuntime) -> Result<(), Fail> {
    let kept = Bytes::from_slice(rt.alloc(), b"a")?;
    let again = Bytes::from_slice(rt.alloc(), b"a")?;
    let other = Bytes::from_slice(rt.alloc(), b"ab")?;
    assert_eq!(rt; kept.as_slice(), b"a".as_slice());
    assert!(rt; kept == again && kept != other);
    assert_eq!(rt; hash_of(&kept), hash_of(&again));
    Ok(())
}

#[test]
fn a_text_is_read_up_to_a_limit(rt: HostRuntime) -> Result<(), Fail> {
    let alloc = rt.alloc();
    let text = read_text(alloc, &mut SliceSource::new(b"abc"), 3)?;
    assert_eq!(rt; text.as_slice(), b"abc".as_slice());
    let longer = read_text(alloc, &mut SliceSource::new(b"abc"), 2);
    assert!(rt; matches!(&longer, Err(ReadText::TooLong)));
    let none = read_text(alloc, &mut SliceSource::new(b""), 0)?;
    assert_eq!(rt; none.len(), 0);
    Ok(())
}

#[test]
fn a_source_fails_at_its_second_call(rt: HostRuntime) -> Result<(), Fail> {
    let alloc = rt.alloc();
    let mut into = [0u8; 8];
    let mut source = ScriptSource::new(alloc, b"abcdefg", &[4], &[2])?;
    assert_eq!(rt; source.read(&mut into), Got::Bytes(4));
    assert_eq!(rt; &into[..4], b"abcd".as_slice());
    assert_eq!(rt; source.read(&mut into), Got::Failed);
    assert_eq!(rt; source.read(&mut into), Got::Bytes(3));
    assert_eq!(rt; &into[..3], b"efg".as_slice());
    assert_eq!(rt; source.read(&mut into), Got::End);

    let mut again = ScriptSource::new(alloc, b"abcdefg", &[4], &[2])?;
    let failed = read_text(alloc, &mut again, 100);
    assert!(rt; matches!(&failed, Err(ReadText::Failed)));
    Ok(())
}

#[test]
fn a_sink_holds_what_it_took(rt: HostRuntime) -> Result<(), Fail> {
    let alloc = rt.alloc();
    let mut full = VecSink::new(alloc, 4)?;
    assert_eq!(rt; write_all(&mut full, b"abc"), Ok(()));
    assert_eq!(rt; write_all(&mut full, b""), Ok(()));
    assert_eq!(rt; write_all(&mut full, b"def"), Err(WriteFailed));
    assert_eq!(rt; full.written(), b"abcd".as_slice());

    let mut sink = ScriptSink::new(alloc, 100, &[1], &[2])?;
    assert_eq!(rt; write_all(&mut sink, b"hello"), Err(WriteFailed));
    assert_eq!(rt; sink.written(), b"h".as_slice());
    assert_eq!(rt; write_all(&mut sink, b"ello"), Ok(()));
    assert_eq!(rt; sink.written(), b"hello".as_slice());
    Ok(())
}

#[test]
fn numbers_are_written_and_read(rt: HostRuntime) -> Result<(), Fail> {
    let mut text = Vec::new(rt.alloc());
    push_number(&mut text, 0)?;
    push_number(&mut text, u128::MAX)?;
    assert_eq!(rt;
        text.as_slice(),
        b"0340282366920938463463374607431768211455".as_slice()
    );
    Ok(())
}

#[test]
fn a_field_is_a_number_or_none(rt: HostRuntime) {
    assert_eq!(rt; number_of(b"0", 0), Some(0));
    assert_eq!(rt;
        number_of(b"4294967295", u64::from(u32::MAX)),
        Some(4_294_967_295)
    );
    assert_eq!(rt; number_of(b"4294967296", u64::from(u32::MAX)), None);
    assert_eq!(rt;
        number_of(b"18446744073709551615", u64::MAX),
        Some(u64::MAX)
    );
    assert_eq!(rt; number_of(b"18446744073709551616", u64::MAX), None);
    assert_eq!(rt; number_of(b"", 9), None);
    assert_eq!(rt; number_of(b"00", 9), None);
    assert_eq!(rt; number_of(b"+1", 9), None);
    assert_eq!(rt; number_of(b"1 ", 9), None);
}

// A reader that is interrupted so many times, and then gives what its bytes give.
#[derive(Drop)]
struct Interrupted<'a> {
    times: u32,
    bytes: &'a [u8],
}

impl<'a> Read for Interrupted<'a> {
    fn read(&mut self, buf: &mut [u8]) -> io::Result<usize> {
        if self.times > 0 {
            self.times -= 1;
            return Err(Error::new(ErrorKind::Interrupted, "again"));
        }
        self.bytes.read(buf)
    }
}

#[test]
fn a_reader_is_a_source(rt: HostRuntime) -> Result<(), Fail> {
    let alloc = rt.alloc();
    let text = read_text(alloc, &mut StdSource::new(b"abc".as_slice()), 3)?;
    assert_eq!(rt; text.as_slice(), b"abc".as_slice());

    let mut borne = StdSource::new(Interrupted {
        times: 1_024,
        bytes: b"abc",
    });
    let text = read_text(alloc, &mut borne, 3)?;
    assert_eq!(rt; text.as_slice(), b"abc".as_slice());

    let mut worn = StdSource::new(Interrupted {
        times: 1_025,
        bytes: b"abc",
    });
    let failed = read_text(alloc, &mut worn, 3);
    assert!(rt; matches!(&failed, Err(ReadText::Failed)));
    Ok(())
}

// A reader that gives its bytes, and then fails with one kind of error. It counts its calls.
#[derive(Drop)]
struct Torn<'a> {
    bytes: &'a [u8],
    kind: ErrorKind,
    calls: u32,
}

impl<'a> Read for Torn<'a> {
    fn read(&mut self, buf: &mut [u8]) -> io::Result<usize> {
        self.calls = self.calls.saturating_add(1);
        if self.bytes.is_empty() {
            return Err(Error::new(self.kind, "torn"));
        }
        self.bytes.read(buf)
    }
}

// How often a reader is called until its text has failed.
fn calls_of_a_torn_text(rt: &impl Abort, alloc: Global, bytes: &[u8], kind: ErrorKind) -> u32 {
    let mut reader = Torn {
        bytes,
        kind,
        calls: 0,
    };
    let mut source = StdSource::new(&mut reader);
    let failed = read_text(alloc, &mut source, 100);
    assert!(rt; matches!(&failed, Err(ReadText::Failed)));
    drop(source);
    reader.calls
}

#[test]
fn only_an_interrupted_read_is_tried_again(rt: HostRuntime) {
    let alloc = rt.alloc();
    for (kind, calls) in [
        (ErrorKind::Interrupted, 1_026),
        (ErrorKind::ConnectionReset, 2),
        (ErrorKind::UnexpectedEof, 2),
        (ErrorKind::WouldBlock, 2),
    ] {
        assert_eq!(rt; calls_of_a_torn_text(&rt, alloc, b"ab", kind), calls);
    }
}

// A writer that takes so many bytes, one in a call, and then fails, or takes none. It counts its
// calls.
#[derive(Drop)]
struct Clogged {
    room: u32,
    kind: Option<ErrorKind>,
    calls: u32,
}

impl Write for Clogged {
    fn write(&mut self, buf: &[u8]) -> io::Result<usize> {
        self.calls = self.calls.saturating_add(1);
        if self.room > 0 {
            self.room -= 1;
            return Ok(buf.len().min(1));
        }
        match self.kind {
            Some(kind) => Err(Error::new(kind, "clogged")),
            None => Ok(0),
        }
    }

    fn flush(&mut self) -> io::Result<()> {
        Ok(())
    }
}

// How often a writer is called until three bytes have failed.
fn calls_of_a_clogged_piece(rt: &impl Abort, kind: Option<ErrorKind>) -> u32 {
    let mut writer = Clogged {
        room: 2,
        kind,
        calls: 0,
    };
    let mut sink = StdSink::new(&mut writer);
    assert_eq!(rt; write_all(&mut sink, b"abc"), Err(WriteFailed));
    drop(sink);
    writer.calls
}

#[test]
fn a_write_that_fails_or_takes_nothing_is_not_tried_again(rt: HostRuntime) {
    assert_eq!(rt;
        calls_of_a_clogged_piece(&rt, Some(ErrorKind::BrokenPipe)),
        3
    );
    assert_eq!(rt;
        calls_of_a_clogged_piece(&rt, Some(ErrorKind::Interrupted)),
        3
    );
    assert_eq!(rt; calls_of_a_clogged_piece(&rt, None), 3);
}

// A writer that takes all bytes, and never brings them out.
#[derive(Drop)]
struct Unflushed;

impl Write for Unflushed {
    fn write(&mut self, buf: &[u8]) -> io::Result<usize> {
        Ok(buf.len())
    }

    fn flush(&mut self) -> io::Result<()> {
        Err(Error::other("stuck"))
    }
}

#[test]
fn a_writer_is_a_sink(rt: HostRuntime) -> Result<(), Fail> {
    let mut bytes: Vec<u8> = Vec::new(rt.alloc());
    let mut sink = StdSink::new(&mut bytes);
    assert_eq!(rt; write_all(&mut sink, b"abc"), Ok(()));
    assert_eq!(rt; write_all(&mut sink, b"de"), Ok(()));
    drop(sink);
    assert_eq!(rt; bytes.as_slice(), b"abcde".as_slice());

    let mut stuck = StdSink::new(Unflushed);
    assert_eq!(rt; write_all(&mut stuck, b"abc"), Err(WriteFailed));
    Ok(())
}
