//! Runs on made graphs, by the top call. The source fails at its first read, so none of them reads it.

use crate::runs::{STOPS, words_of};
use graphite_base::{ScriptSource, VecSink};
use graphite_top::{Status, run};
use std::alloc::Global;
use std::process::Abort;
use std::test::Fail;

/// What a program on a made graph writes: `numbers` are its seed, vertices, edges and horizon.
fn made(
    rt: &impl Abort,
    alloc: Global,
    numbers: [&str; 4],
    of: &str,
    status: Status,
) -> Result<VecSink, Fail> {
    let [seed, vertices, edges, horizon] = numbers;
    let words = [
        "made",
        "--seed",
        seed,
        "--vertices",
        vertices,
        "--edges",
        edges,
        "--horizon",
        horizon,
        "--of",
        of,
    ];
    let words = words_of(alloc, &words)?;
    let mut source = ScriptSource::new(alloc, STOPS, &[], &[1])?;
    let mut sink = VecSink::new(alloc, 4096)?;
    assert_eq!(rt; run(alloc, &words, &mut source, &mut sink), status);
    Ok(sink)
}

#[test]
fn programs_on_a_made_graph(rt: HostRuntime) -> Result<(), Fail> {
    let cases: [(&str, &[u8]); 11] = [
        (
            "degree",
            b"graphite made degree steps 0 calls 0\ntext 642\ngraph 5 9 23\nreport 20 20\nend\n",
        ),
        (
            "bfs",
            b"graphite made bfs steps 4 calls 10\ntext 642\ngraph 5 9 23\nreport 12 5\nend\n",
        ),
        (
            "components",
            b"graphite made components steps 4 calls 42\ntext 642\ngraph 5 9 23\nreport 17 17\nend\n",
        ),
        (
            "max",
            b"graphite made max steps 5 calls 19\ntext 642\ngraph 5 9 23\nreport 16 16\nend\n",
        ),
        (
            "distance",
            b"graphite made distance steps 4 calls 10\ntext 642\ngraph 5 9 23\nreport 12 5\nend\n",
        ),
        (
            "rank",
            b"graphite made rank steps 30 calls 1303\ntext 642\ngraph 5 9 23\nreport 37 37\nend\n",
        ),
        (
            "reach",
            b"graphite made reach steps 4\ntext 642\ngraph 5 9 23\nreport 9 5\nend\n",
        ),
        (
            "earliest",
            b"graphite made earliest steps 4\ntext 642\ngraph 5 9 23\nreport 9 5\nend\n",
        ),
        (
            "cheapest",
            b"graphite made cheapest steps 4\ntext 642\ngraph 5 9 23\nreport 10 6\nend\n",
        ),
        (
            "fastest",
            b"graphite made fastest steps 4\ntext 642\ngraph 5 9 23\nreport 32 28\nend\n",
        ),
        (
            "latest",
            b"graphite made latest steps 3\ntext 642\ngraph 5 9 23\nreport 6 2\nend\n",
        ),
    ];
    for (of, written) in cases {
        let sink = made(&rt, rt.alloc(), ["36", "5", "9", "20"], of, Status::Done)?;
        assert_eq!(rt; sink.written(), written);
    }
    Ok(())
}

#[test]
fn made_graphs_at_their_limits(rt: HostRuntime) -> Result<(), Fail> {
    let done = Status::Done;
    let refused = Status::QueryRefused;
    let cases: [([&str; 4], &str, Status, &[u8]); 5] = [
        (
            ["7", "1", "0", "1"],
            "degree",
            done,
            b"graphite made degree steps 0 calls 0\ntext 42\ngraph 1 0 1\nreport 1 1\nend\n",
        ),
        (
            ["7", "0", "0", "10"],
            "degree",
            done,
            b"graphite made degree steps 0 calls 0\ntext 15\ngraph 0 0 0\nreport 0 0\nend\n",
        ),
        // the window of the fastest journeys ends after 4,096 instants
        (
            ["5", "3", "2", "10000"],
            "fastest",
            done,
            b"graphite made fastest steps 2\ntext 268\ngraph 3 2 7\nreport 480 478\nend\n",
        ),
        // there is no first vertex
        (["7", "0", "0", "10"], "bfs", refused, b"refused query 1\n"),
        (
            ["7", "0", "0", "10"],
            "latest",
            refused,
            b"refused query 1\n",
        ),
    ];
    for (numbers, of, status, written) in cases {
        let sink = made(&rt, rt.alloc(), numbers, of, status)?;
        assert_eq!(rt; sink.written(), written);
    }
    Ok(())
}

/// The line of a text with this number, counted from 0.
fn line_at(text: &[u8], number: usize) -> &[u8] {
    text.split(|byte| *byte == b'\n').nth(number).unwrap_or(b"")
}

#[test]
fn large_made_graphs(rt: HostRuntime) -> Result<(), Fail> {
    let numbers = ["1", "2000", "10000", "100000"];
    let first = made(&rt, rt.alloc(), numbers, "earliest", Status::Done)?;
    let again = made(&rt, rt.alloc(), numbers, "earliest", Status::Done)?;
    assert_eq!(rt; first.written(), again.written());
    assert_eq!(rt;
        line_at(first.written(), 2),
        b"graph 2000 10000 22000".as_slice()
    );

    let numbers = ["1", "100000", "100000", "1000000000"];
    let wide = made(&rt, rt.alloc(), numbers, "bfs", Status::Done)?;
    assert_eq!(rt;
        line_at(wide.written(), 2),
        b"graph 100000 100000 300000".as_slice()
    );
    Ok(())
}
