//! Runs of the program on whole texts, by the top call.
ghost use Rattle.std.specs.Prelude.{None};

use graphite_base::{Got, ScriptSink, ScriptSource, SliceSource, Source, VecSink, push_number};
use graphite_time::NoMemory;
use graphite_top::{Status, run};
use std::alloc::{AllocError, Global};
use std::ops::Range;
use std::process::Abort;
use std::test::Fail;

/// Three vertices, of which one lives shorter, and two edges.
pub(crate) const STOPS: &[u8] =
    b"graph 1 10\nv a 0 10\nv b 0 10\nv c 2 8\ne ab a b 0 5\ne bc b c 3 7\nend\n";

const STOPS_REPORT: &[u8] =
    b"graphite degree steps 0 calls 0\na 0 5 1\na 5 10 0\nb 0 3 0\nb 3 7 1\nb 7 10 0\nc 2 8 0\nend\n";

const NO_SUCH_VERTEX: &[u8] = b"refused query 1\n";

const NO_SUCH_INSTANT: &[u8] = b"refused query 2\n";

pub(crate) fn words_of(alloc: Global, words: &[&str]) -> Result<Vec<String>, AllocError> {
    let mut all = Vec::new(alloc);
    for word in words {
        all.push(String::from_str(alloc, word)?)?;
    }
    Ok(all)
}

/// Runs words on a text, and compares what it writes.
pub(crate) fn expect_run(
    rt: &impl Abort,
    alloc: Global,
    words: &[&str],
    text: &[u8],
    status: Status,
    written: &[u8],
) -> Result<(), Fail> {
    let words = words_of(alloc, words)?;
    let mut source = SliceSource::new(text);
    let mut sink = VecSink::new(alloc, 200_000)?;
    assert_eq!(rt; run(alloc, &words, &mut source, &mut sink), status);
    assert_eq!(rt; sink.written(), written);
    Ok(())
}

#[test]
fn worked_runs(rt: HostRuntime) -> Result<(), Fail> {
    let cases: [(&str, &[u8], &[u8]); 4] = [
        ("degree", STOPS, STOPS_REPORT),
        (
            "degree",
            b"graph 1 1\nend\n",
            b"graphite degree steps 0 calls 0\nend\n",
        ),
        // equal neighbours are one line, and edges that overlap count twice
        (
            "degree",
            b"graph 1 6\nv a 0 6\nv b 0 6\ne x a b 0 3\ne y a b 3 6\ne z b a 1 4\ne w b b 2 3\nend\n",
            b"graphite degree steps 0 calls 0\na 0 6 1\nb 0 1 0\nb 1 2 1\nb 2 3 2\nb 3 4 1\nb 4 6 0\nend\n",
        ),
        (
            "show",
            b"# bus\ngraph 1 10\n\nv a 0 10\npv a load 0 4 7\nv b 0 10\ne ab a b 0 5\npe ab cost 0 5 3\npv b load 2 6 3\nend\n# done\n",
            b"graph 1 10\nv a 0 10\nv b 0 10\ne ab a b 0 5\npv a load 0 4 7\npv b load 2 6 3\npe ab cost 0 5 3\nend\n",
        ),
    ];
    for (word, text, written) in cases {
        expect_run(&rt, rt.alloc(), &[word], text, Status::Done, written)?;
    }
    Ok(())
}

/// Breadth-first search, and what of it the words change.
#[test]
fn searches(rt: HostRuntime) -> Result<(), Fail> {
    let cases: [(&[&str], Status, &[u8]); 5] = [
        (
            &["bfs", "--source", "a"],
            Status::Done,
            b"graphite bfs steps 4 calls 5\na 0 10 0\nb 0 5 1\nb 5 10 none\nc 2 3 none\nc 3 5 2\nc 5 8 none\nend\n",
        ),
        (
            &["bfs", "--source=a", "--steps=1"],
            Status::Done,
            b"graphite bfs steps 1 calls 3\na 0 10 0\nb 0 10 none\nc 2 8 none\nend\n",
        ),
        (
            &["bfs", "--source", "z"],
            Status::QueryRefused,
            NO_SUCH_VERTEX,
        ),
        // a value is taken as it is, also where it looks like an option or is empty
        (
            &["bfs", "--source=--steps"],
            Status::QueryRefused,
            NO_SUCH_VERTEX,
        ),
        (
            &["bfs", "--source", ""],
            Status::QueryRefused,
            NO_SUCH_VERTEX,
        ),
    ];
    for (words, status, written) in cases {
        expect_run(&rt, rt.alloc(), words, STOPS, status, written)?;
    }
    Ok(())
}

/// The values at one instant, and their sums.
#[test]
fn other_reports(rt: HostRuntime) -> Result<(), Fail> {
    let cases: [(&[&str], Status, &[u8]); 8] = [
        (
            &["degree", "--at", "3"],
            Status::Done,
            b"graphite degree steps 0 calls 0\na 1\nb 1\nc 0\nend\n",
        ),
        (
            &["degree", "--at", "9"],
            Status::Done,
            b"graphite degree steps 0 calls 0\na 0\nb 0\nend\n",
        ),
        (
            &["degree", "--at", "10"],
            Status::QueryRefused,
            NO_SUCH_INSTANT,
        ),
        // the vertex is asked for first
        (
            &["bfs", "--at", "10", "--source", "z"],
            Status::QueryRefused,
            NO_SUCH_VERTEX,
        ),
        (
            &["degree", "--report", "sums"],
            Status::Done,
            b"graphite degree steps 0 calls 0\na 10 10 5\nb 10 10 4\nc 6 6 0\nend\n",
        ),
        (
            &["degree", "--report=intervals"],
            Status::Done,
            STOPS_REPORT,
        ),
        // a vertex that has no value is alive all the same
        (
            &["bfs", "--source", "a", "--at", "6"],
            Status::Done,
            b"graphite bfs steps 4 calls 5\na 0\nb none\nc none\nend\n",
        ),
        (
            &["bfs", "--source", "a", "--report", "sums"],
            Status::Done,
            b"graphite bfs steps 4 calls 5\na 10 10 0\nb 10 5 5\nc 6 2 4\nend\n",
        ),
    ];
    for (words, status, written) in cases {
        expect_run(&rt, rt.alloc(), words, STOPS, status, written)?;
    }
    Ok(())
}

/// Two edges that touch are one interval with one note, and two that overlap a group of two notes between groups of one.
#[test]
fn searches_along_two_edges(rt: HostRuntime) -> Result<(), Fail> {
    let cases: [(&[u8], &[u8]); 2] = [
        (
            b"graph 1 6\nv a 0 6\nv b 0 6\ne x a b 0 3\ne y a b 3 6\nend\n",
            b"graphite bfs steps 3 calls 3\na 0 6 0\nb 0 6 1\nend\n",
        ),
        (
            b"graph 1 6\nv a 0 6\nv b 0 6\ne x a b 0 4\ne y a b 2 6\nend\n",
            b"graphite bfs steps 3 calls 5\na 0 6 0\nb 0 6 1\nend\n",
        ),
    ];
    for (text, written) in cases {
        let words = ["bfs", "--source", "a"];
        expect_run(&rt, rt.alloc(), &words, text, Status::Done, written)?;
    }
    Ok(())
}

/// Components, the greatest value of a property, the least cost and rank.
#[test]
fn other_programs_of_snapshots(rt: HostRuntime) -> Result<(), Fail> {
    let cases: [(&[&str], &[u8], &[u8]); 6] = [
        (
            &["components"],
            b"graph 1 1\nend\n",
            b"graphite components steps 1 calls 0\nend\n",
        ),
        (
            &["rank", "--steps", "3"],
            b"graph 1 4\nv a 0 4\nv b 0 4\nv c 0 2\ne ab a b 0 4\ne ac a c 0 2\ne ba b a 0 4\nend\n",
            b"graphite rank steps 3 calls 15\na 0 2 212916666\na 2 4 500000000\nb 0 2 191666666\nb 2 4 500000000\nc 0 2 191666666\nend\n",
        ),
        (
            &["components"],
            STOPS,
            b"graphite components steps 4 calls 13\na 0 10 0\nb 0 5 0\nb 5 10 1\nc 2 3 2\nc 3 5 0\nc 5 7 1\nc 7 8 2\nend\n",
        ),
        (
            &["max", "--key", "load"],
            b"graph 1 10\nv a 0 10\nv b 0 10\nv c 2 8\ne ab a b 0 5\ne bc b c 3 7\npv a load 0 4 7\npv b load 2 6 3\nend\n",
            b"graphite max steps 4 calls 10\na 0 4 7\na 4 10 none\nb 0 4 7\nb 4 6 3\nb 6 10 none\nc 2 3 none\nc 3 4 7\nc 4 6 3\nc 6 8 none\nend\n",
        ),
        (
            &["distance", "--source", "a"],
            b"graph 1 10\nv a 0 10\nv b 0 10\ne x a b 0 10\npe x cost 2 6 5\nend\n",
            b"graphite distance steps 3 calls 5\na 0 10 0\nb 0 2 1\nb 2 6 5\nb 6 10 1\nend\n",
        ),
        // a key that no line has is no refusal
        (
            &["max", "--key", "height"],
            STOPS,
            b"graphite max steps 1 calls 3\na 0 10 none\nb 0 10 none\nc 2 8 none\nend\n",
        ),
    ];
    for (words, text, written) in cases {
        expect_run(&rt, rt.alloc(), words, text, Status::Done, written)?;
    }
    Ok(())
}

#[test]
fn texts_that_are_refused(rt: HostRuntime) -> Result<(), Fail> {
    let cases: [(&[u8], &[u8]); 7] = [
        // an edge outlives one of its ends
        (
            b"graph 1 10\nv a 0 10\nv b 0 10\nv c 2 8\ne ac a c 0 5\ne bc b c 3 7\nend\n",
            b"refused text line 5 rule 9\n",
        ),
        // it goes past the horizon too
        (
            b"graph 1 10\nv a 0 10\nv b 0 10\nv c 2 8\ne ac a c 0 12\ne bc b c 3 7\nend\n",
            b"refused text line 5 rule 6\n",
        ),
        (
            b"graph 1 10\nv a 0 10\nv b 0 10\nv c 2 8\ne ab a b 0 5\ne bc b c 3 7\n",
            b"refused text line 7 rule 14\n",
        ),
        (
            b"graph 1 10\nv a 0 10\nend\nv d 0 1\n",
            b"refused text line 4 rule 15\n",
        ),
        (b"graph 1 10\nv a 0 1", b"refused text line 2 rule 1\n"),
        (b"", b"refused text line 1 rule 14\n"),
        (b"graph 2 10\nend\n", b"refused text line 1 rule 2\n"),
    ];
    for (text, written) in cases {
        expect_run(
            &rt,
            rt.alloc(),
            &["degree"],
            text,
            Status::TextRefused,
            written,
        )?;
    }
    Ok(())
}

/// The text of the stops with a line put in before its end, as line 7.
fn with_line(alloc: Global, line: &[u8]) -> Result<Vec<u8>, AllocError> {
    let mut text = Vec::new(alloc);
    text.extend_from_slice(
        b"graph 1 10\nv a 0 10\nv b 0 10\nv c 2 8\ne ab a b 0 5\ne bc b c 3 7\n",
    )?;
    text.extend_from_slice(line)?;
    text.extend_from_slice(b"\nend\n")?;
    Ok(text)
}

#[test]
fn lines_at_their_limits(rt: HostRuntime) -> Result<(), Fail> {
    let alloc = rt.alloc();
    let comment = [b'#'; 1024];
    let longer = [b'#'; 1025];
    let name = b"v xxxxxxxxxxxxxxxxxxxxxxxxxxxxxxxxxxxxxxxxxxxxxxxxxxxxxxxxxxxxxxxxx 0 1";
    let cases: [(&[u8], Status, &[u8]); 3] = [
        (&comment, Status::Done, STOPS_REPORT),
        (
            &longer,
            Status::TextRefused,
            b"refused text line 7 rule 1\n",
        ),
        (name, Status::TextRefused, b"refused text line 7 rule 4\n"),
    ];
    for (line, status, written) in cases {
        let text = with_line(alloc, line)?;
        expect_run(&rt, alloc, &["degree"], &text, status, written)?;
    }
    Ok(())
}

/// Three instants, far apart, in a life that ends at the last instant of all.
#[test]
fn instants_near_the_last(rt: HostRuntime) -> Result<(), Fail> {
    let text: &[u8] =
        b"graph 1 17592186044416\nv central 0 17592186044416\nv museum 0 17592186044416\nv harbour 0 17592186044416\ne t1 central museum 1700000000000 1700000000001\ne t2 museum harbour 1700000420000 1700000420001\ne t3 museum harbour 1700000240000 1700000240001\npe t1 time 1700000000000 1700000000001 300000\npe t2 time 1700000420000 1700000420001 600000\npe t3 time 1700000240000 1700000240001 240000\nend\n";
    let degrees: &[u8] =
        b"graphite degree steps 0 calls 0\ncentral 0 1700000000000 0\ncentral 1700000000000 1700000000001 1\ncentral 1700000000001 17592186044416 0\nmuseum 0 1700000240000 0\nmuseum 1700000240000 1700000240001 1\nmuseum 1700000240001 1700000420000 0\nmuseum 1700000420000 1700000420001 1\nmuseum 1700000420001 17592186044416 0\nharbour 0 17592186044416 0\nend\n";
    let numbers: &[u8] =
        b"graphite bfs steps 3 calls 4\ncentral 0 17592186044416 0\nmuseum 0 1700000000000 none\nmuseum 1700000000000 1700000000001 1\nmuseum 1700000000001 17592186044416 none\nharbour 0 17592186044416 none\nend\n";
    let cases: [(&[&str], &[u8]); 6] = [
        (&["degree"], degrees),
        (&["bfs", "--source", "central"], numbers),
        (
            &["distance", "--source", "central"],
            b"graphite distance steps 3 calls 4\ncentral 0 17592186044416 0\nmuseum 0 1700000000000 none\nmuseum 1700000000000 1700000000001 1\nmuseum 1700000000001 17592186044416 none\nharbour 0 17592186044416 none\nend\n",
        ),
        (
            &["max", "--key", "load"],
            b"graphite max steps 1 calls 3\ncentral 0 17592186044416 none\nmuseum 0 17592186044416 none\nharbour 0 17592186044416 none\nend\n",
        ),
        (
            &["components"],
            b"graphite components steps 3 calls 12\ncentral 0 17592186044416 0\nmuseum 0 1700000000000 1\nmuseum 1700000000000 1700000000001 0\nmuseum 1700000000001 17592186044416 1\nharbour 0 1700000240000 2\nharbour 1700000240000 1700000240001 1\nharbour 1700000240001 1700000420000 2\nharbour 1700000420000 1700000420001 1\nharbour 1700000420001 17592186044416 2\nend\n",
        ),
        (
            &["rank", "--steps", "2"],
            b"graphite rank steps 2 calls 24\ncentral 0 17592186044416 50000000\nmuseum 0 1700000000000 50000000\nmuseum 1700000000000 1700000000001 333333333\nmuseum 1700000000001 17592186044416 50000000\nharbour 0 1700000240000 50000000\nharbour 1700000240000 1700000240001 333333333\nharbour 1700000240001 1700000420000 50000000\nharbour 1700000420000 1700000420001 333333333\nharbour 1700000420001 17592186044416 50000000\nend\n",
        ),
    ];
    for (words, written) in cases {
        expect_run(&rt, rt.alloc(), words, text, Status::Done, written)?;
    }
    Ok(())
}

#[test]
fn words_that_are_refused(rt: HostRuntime) -> Result<(), Fail> {
    let alloc = rt.alloc();
    let lists: [&[&str]; 8] = [
        &[],
        &["frob"],
        &["degree", "extra"],
        &["bfs"],
        &["bfs", "--source", "-"],
        &["bfs", "--source", "a", "--source", "b"],
        &["degree", "--report", "sums", "--at", "1"],
        &["earliest", "--source", "a", "--path", "c"],
    ];
    for list in lists {
        let words = words_of(alloc, list)?;
        let mut source = SliceSource::new(STOPS);
        let mut sink = VecSink::new(alloc, 4096)?;
        assert_eq!(rt;
            run(alloc, &words, &mut source, &mut sink),
            Status::WordsRefused
        );
        assert_eq!(rt; sink.written(), b"refused words\n".as_slice());
    }
    Ok(())
}

#[test]
fn a_failing_source_and_a_failing_sink(rt: HostRuntime) -> Result<(), Fail> {
    let alloc = rt.alloc();
    let words = words_of(alloc, &["degree"])?;

    let mut source = ScriptSource::new(alloc, STOPS, &[4], &[2])?;
    let mut sink = VecSink::new(alloc, 100)?;
    assert_eq!(rt;
        run(alloc, &words, &mut source, &mut sink),
        Status::ReadFault
    );
    assert_eq!(rt; sink.written(), b"".as_slice());

    let mut source = SliceSource::new(STOPS);
    let mut sink = ScriptSink::new(alloc, 100, &[1], &[2])?;
    assert_eq!(rt;
        run(alloc, &words, &mut source, &mut sink),
        Status::WriteFault
    );
    assert_eq!(rt; sink.written(), b"g".as_slice());
    Ok(())
}

/// A line for each vertex of these numbers: its name between two other parts.
fn push_rows(
    all: &mut Vec<u8>,
    numbers: Range<u32>,
    before: &[u8],
    behind: &[u8],
) -> Result<(), NoMemory> {
    for number in numbers {
        all.extend_from_slice(before)?;
        push_number(all, u128::from(number))?;
        all.extend_from_slice(behind)?;
    }
    Ok(())
}

/// 9,000 vertices without an edge.
fn many_vertices(alloc: Global) -> Result<Vec<u8>, NoMemory> {
    let mut text = Vec::from_slice(alloc, b"graph 1 10\n")?;
    push_rows(&mut text, 0..9000, b"v n", b" 0 10\n")?;
    text.extend_from_slice(b"end\n")?;
    Ok(text)
}

/// The report of a search from the first of them, which is longer than what is gathered for a write.
fn search_of_many(alloc: Global) -> Result<Vec<u8>, NoMemory> {
    let mut report = Vec::from_slice(alloc, b"graphite bfs steps 2 calls 9000\n")?;
    push_rows(&mut report, 0..1, b"n", b" 0 10 0\n")?;
    push_rows(&mut report, 1..9000, b"n", b" 0 10 none\n")?;
    report.extend_from_slice(b"end\n")?;
    Ok(report)
}

#[test]
fn a_report_of_thousands_of_vertices(rt: HostRuntime) -> Result<(), Fail> {
    let text = many_vertices(rt.alloc())?;
    let report = search_of_many(rt.alloc())?;
    let words = ["bfs", "--source", "n0"];
    expect_run(&rt, rt.alloc(), &words, &text, Status::Done, &report)
}

/// A source that gives so many bytes, of which it holds none: those that stand where they are read to.
#[derive(Drop)]
struct LongSource {
    rest: usize,
}

impl Source for LongSource {
    ghost left = { λ _. None };

    ghost faults = { λ _. 0 };

    fn read(&mut self, into: &mut [u8]) -> Got {
        let count = self.rest.min(into.len());
        if count == 0 {
            return Got::End;
        }
        self.rest -= count;
        Got::Bytes(count)
    }
}

#[test]
fn a_text_of_one_byte_too_many(rt: HostRuntime) -> Result<(), Fail> {
    let words = words_of(rt.alloc(), &["degree"])?;
    let mut source = LongSource { rest: 268_435_457 };
    let mut sink = VecSink::new(rt.alloc(), 100)?;
    assert_eq!(rt;
        run(rt.alloc(), &words, &mut source, &mut sink),
        Status::TextRefused
    );
    assert_eq!(rt; sink.written(), b"refused text line 0 rule 16\n".as_slice());
    Ok(())
}

#[test]
fn exit_codes(rt: HostRuntime) {
    let statuses = [
        (Status::Done, 0),
        (Status::TextRefused, 1),
        (Status::WordsRefused, 2),
        (Status::QueryRefused, 3),
        (Status::Budget, 4),
        (Status::ReadFault, 5),
        (Status::WriteFault, 6),
        (Status::NoMemory, 7),
    ];
    for (status, code) in statuses {
        assert_eq!(rt; status.code(), code);
    }
}
