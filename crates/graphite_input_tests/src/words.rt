//! Lists of words, and what they ask for.
use graphite_base::Bytes;
use graphite_time::NoMemory;
use graphite_words::{Command, MadeAsk, Query, Report, Steps, WordsFault, query_of};
use std::alloc::{AllocError, Global};
use std::process::Abort;
use std::test::Fail;

/// A program with all its intervals reported.
fn query(command: Command) -> Query {
    Query {
        command,
        vertex: None,
        key: None,
        from: 0,
        until: None,
        steps: None,
        report: Report::Intervals,
        told: None,
        made: None,
    }
}

/// A program that starts from or leads to a vertex of this name, with all its intervals reported.
fn vertex_query(alloc: Global, command: Command, name: &[u8]) -> Result<Query, NoMemory> {
    Ok(Query {
        vertex: Some(Bytes::from_slice(alloc, name)?),
        ..query(command)
    })
}

/// Breadth-first search from a vertex of this name.
fn bfs(alloc: Global, name: &[u8], steps: Option<Steps>) -> Result<Query, NoMemory> {
    Ok(Query {
        steps,
        ..vertex_query(alloc, Command::Bfs, name)?
    })
}

fn words_of(alloc: Global, words: &[&str]) -> Result<Vec<String>, AllocError> {
    let mut all = Vec::new(alloc);
    for word in words {
        all.push(String::from_str(alloc, word)?)?;
    }
    Ok(all)
}

fn expect_query(
    rt: &impl Abort,
    alloc: Global,
    words: &[&str],
    query: Result<Query, WordsFault>,
) -> Result<(), Fail> {
    let words = words_of(alloc, words)?;
    assert!(rt; query_of(alloc, &words) == query);
    Ok(())
}

#[test]
fn words_that_are_accepted(rt: HostRuntime) -> Result<(), Fail> {
    let alloc = rt.alloc();
    let one = Some(Steps::new(1));
    let sums = Query {
        key: Some(Bytes::from_slice(alloc, b"load")?),
        report: Report::Sums,
        ..query(Command::Max)
    };
    let at = Query {
        report: Report::At(3),
        ..query(Command::Degree)
    };
    let last = Query {
        report: Report::At(17_592_186_044_416),
        ..query(Command::Degree)
    };
    let most = Query {
        steps: Some(Steps::new(2_097_152)),
        ..query(Command::Rank)
    };
    let cases: [(&[&str], Query); 11] = [
        (&["degree"], query(Command::Degree)),
        (&["degree", "--at", "3"], at),
        (&["degree", "--at", "17592186044416"], last),
        (&["rank", "--steps", "2097152"], most),
        (&["bfs", "--source", "a"], bfs(alloc, b"a", None)?),
        (&["bfs", "--source=a", "--steps=1"], bfs(alloc, b"a", one)?),
        (
            &["bfs", "--steps", "1", "--source", "a"],
            bfs(alloc, b"a", one)?,
        ),
        (&["bfs", "--source=-x"], bfs(alloc, b"-x", None)?),
        (&["bfs", "--source="], bfs(alloc, b"", None)?),
        (&["max", "--key", "load", "--report", "sums"], sums),
        (&["--report", "intervals", "rank"], query(Command::Rank)),
    ];
    for (words, query) in cases {
        expect_query(&rt, alloc, words, Ok(query))?;
    }
    Ok(())
}

#[test]
fn words_of_journeys_that_are_accepted(rt: HostRuntime) -> Result<(), Fail> {
    let alloc = rt.alloc();
    let window = Query {
        from: 4,
        until: Some(5),
        ..vertex_query(alloc, Command::Reach, b"a")?
    };
    let cheapest = Query {
        steps: Some(Steps::new(2)),
        ..vertex_query(alloc, Command::Cheapest, b"a")?
    };
    let at = Query {
        report: Report::At(3),
        ..vertex_query(alloc, Command::Earliest, b"a")?
    };
    let fastest = Query {
        until: Some(5),
        ..vertex_query(alloc, Command::Fastest, b"a")?
    };
    let latest = Query {
        from: 1,
        until: Some(9),
        ..vertex_query(alloc, Command::Latest, b"c")?
    };
    let cases: [(&[&str], Query); 7] = [
        (
            &["earliest", "--source", "a"],
            vertex_query(alloc, Command::Earliest, b"a")?,
        ),
        (
            &["reach", "--source", "a", "--from", "4", "--until", "5"],
            window,
        ),
        (&["cheapest", "--source", "a", "--steps", "2"], cheapest),
        (&["earliest", "--source=a", "--at=3"], at),
        (&["fastest", "--source", "a", "--until", "5"], fastest),
        (
            &["latest", "--target", "c"],
            vertex_query(alloc, Command::Latest, b"c")?,
        ),
        (
            &["latest", "--target=c", "--from", "1", "--until", "9"],
            latest,
        ),
    ];
    for (words, query) in cases {
        expect_query(&rt, alloc, words, Ok(query))?;
    }
    Ok(())
}

#[test]
fn words_of_paths_that_are_accepted(rt: HostRuntime) -> Result<(), Fail> {
    let alloc = rt.alloc();
    let all = Query {
        report: Report::Paths,
        ..vertex_query(alloc, Command::Earliest, b"a")?
    };
    let one = Query {
        report: Report::PathAt(3),
        told: Some(Bytes::from_slice(alloc, b"b")?),
        ..vertex_query(alloc, Command::Earliest, b"a")?
    };
    let any_name = Query {
        report: Report::PathAt(0),
        told: Some(Bytes::from_slice(alloc, b"-x")?),
        ..vertex_query(alloc, Command::Latest, b"c")?
    };
    let cases: [(&[&str], Query); 3] = [
        (&["earliest", "--source", "a", "--report", "paths"], all),
        (
            &["earliest", "--source", "a", "--path", "b", "--at", "3"],
            one,
        ),
        (&["--at=0", "--path=-x", "latest", "--target=c"], any_name),
    ];
    for (words, query) in cases {
        expect_query(&rt, alloc, words, Ok(query))?;
    }
    Ok(())
}

#[test]
fn words_of_paths_that_are_refused(rt: HostRuntime) -> Result<(), Fail> {
    let cases: [&[&str]; 9] = [
        // no program of journeys
        &["bfs", "--source", "a", "--report", "paths"],
        &["degree", "--path", "b", "--at", "3"],
        &["show", "--path", "b"],
        // no instant, or none in time
        &["earliest", "--source", "a", "--path", "b"],
        &["earliest", "--source", "a", "--path", "b", "--at", "03"],
        // a kind of report besides
        &["earliest", "--source=a", "--path=b", "--report=paths"],
        &[
            "earliest",
            "--source=a",
            "--path=b",
            "--at=3",
            "--report=paths",
        ],
        &["earliest", "--source=a", "--at=3", "--report=paths"],
        // two paths
        &["earliest", "--source=a", "--path=b", "--path=c", "--at=3"],
    ];
    for words in cases {
        expect_query(&rt, rt.alloc(), words, Err(WordsFault::Refused))?;
    }
    Ok(())
}

#[test]
fn words_that_are_refused(rt: HostRuntime) -> Result<(), Fail> {
    let cases: [&[&str]; 32] = [
        // no program of the table, or more words than its own
        &[],
        &["frob"],
        &["degree", "extra"],
        &["--help"],
        &["degree", "-h"],
        // an option that is not taken, or is missing
        &["degree", "--steps", "3"],
        &["show", "--at", "3"],
        &["bfs"],
        &["earliest"],
        &["earliest", "--target", "a"],
        &["fastest", "--source", "a"],
        &["latest"],
        &["latest", "--source", "c"],
        &["bfs", "--source", "a", "--from", "1"],
        &["degree", "--until", "3"],
        &["max", "--source", "a"],
        &["degree", "--colour", "red"],
        // no such number
        &["bfs", "--source", "a", "--steps", "0"],
        &["bfs", "--source", "a", "--steps", "01"],
        &["rank", "--steps", "2097153"],
        &["degree", "--at", "17592186044417"],
        &["earliest", "--source", "a", "--from", "01"],
        &["earliest", "--source", "a", "--until", "17592186044417"],
        // no value, or two
        &["bfs", "--source", "a", "--source", "b"],
        &["bfs", "--source"],
        &["bfs", "--source", "-x"],
        &["bfs", "--source", "--steps"],
        // dashes alone
        &["bfs", "--source", "-"],
        &["degree", "--"],
        &["--", "degree"],
        // what to report
        &["degree", "--report", "paths"],
        &["degree", "--report", "sums", "--at", "1"],
    ];
    for words in cases {
        expect_query(&rt, rt.alloc(), words, Err(WordsFault::Refused))?;
    }
    Ok(())
}

/// The words that ask for a graph made from these values, and for a program to run on it.
fn made_words<'w>(values: [&'w str; 5]) -> [&'w str; 11] {
    [
        "made",
        "--seed",
        values[0],
        "--vertices",
        values[1],
        "--edges",
        values[2],
        "--horizon",
        values[3],
        "--of",
        values[4],
    ]
}

#[test]
fn words_of_made_graphs_that_are_accepted(rt: HostRuntime) -> Result<(), Fail> {
    let least = MadeAsk {
        seed: 0,
        vertices: 0,
        edges: 0,
        horizon: 1,
        of: Command::Degree,
    };
    let greatest = MadeAsk {
        seed: 18_446_744_073_709_551_615,
        vertices: 1_000_000,
        edges: 1_000_000,
        horizon: 17_592_186_044_416,
        of: Command::Latest,
    };
    let cases: [([&str; 5], MadeAsk); 2] = [
        (["0", "0", "0", "1", "degree"], least),
        (
            [
                "18446744073709551615",
                "1000000",
                "1000000",
                "17592186044416",
                "latest",
            ],
            greatest,
        ),
    ];
    for (values, made) in cases {
        let query = Query {
            made: Some(made),
            ..query(Command::Made)
        };
        expect_query(&rt, rt.alloc(), &made_words(values), Ok(query))?;
    }
    Ok(())
}

#[test]
fn values_of_made_graphs_that_are_refused(rt: HostRuntime) -> Result<(), Fail> {
    let cases: [[&str; 5]; 10] = [
        // no such number
        ["18446744073709551616", "1", "1", "1", "degree"],
        ["01", "1", "1", "1", "degree"],
        ["0", "1000001", "1", "1", "degree"],
        ["0", "1", "1000001", "1", "degree"],
        ["0", "1", "1", "0", "degree"],
        ["0", "1", "1", "17592186044417", "degree"],
        // no program with a report
        ["0", "1", "1", "1", "show"],
        ["0", "1", "1", "1", "made"],
        ["0", "1", "1", "1", "frob"],
        // an edge without a vertex
        ["0", "0", "1", "1", "degree"],
    ];
    for values in cases {
        let words = made_words(values);
        expect_query(&rt, rt.alloc(), &words, Err(WordsFault::Refused))?;
    }
    Ok(())
}

#[test]
fn options_of_made_graphs_that_are_refused(rt: HostRuntime) -> Result<(), Fail> {
    let cases: [&[&str]; 4] = [
        // an option that is missing
        &[
            "made",
            "--seed=0",
            "--vertices=1",
            "--edges=1",
            "--horizon=1",
        ],
        // one that is not taken
        &[
            "made",
            "--seed=0",
            "--vertices=1",
            "--edges=1",
            "--horizon=1",
            "--of=rank",
            "--steps=3",
        ],
        &["degree", "--seed", "0"],
        &["show", "--of", "degree"],
    ];
    for words in cases {
        expect_query(&rt, rt.alloc(), words, Err(WordsFault::Refused))?;
    }
    Ok(())
}
