//! Runs of the programs of journeys on whole texts, by the top call.

use crate::runs::{STOPS, expect_run};
use graphite_top::Status;
use std::test::Fail;

/// An edge that can be entered at ten instants, at first for a journey of nine instants and then for one of a single
/// instant: the later departure arrives first.
const LATER_IS_EARLIER: &[u8] =
    b"graph 1 20\nv a 0 20\nv b 0 20\ne x a b 0 10\npe x time 0 5 9\npe x time 5 10 1\nend\n";

/// Two edges that form a way round that costs nothing, and one that leads on.
const FREE_ROUND: &[u8] =
    b"graph 1 10\nv a 0 10\nv b 0 10\nv c 0 10\ne ab a b 0 10\ne ba b a 0 10\ne bc b c 0 10\npe ab cost 0 10 0\npe ba cost 0 10 0\nend\n";

/// Arrivals at the last instant, at the horizon, and at a vertex that is dead by then.
const LAST_ARRIVALS: &[u8] =
    b"graph 1 10\nv a 0 10\nv b 0 10\nv c 0 10\nv d 0 8\ne x a b 8 9\ne y a c 9 10\ne z a d 7 8\nend\n";

/// A timetable whose instants are epoch milliseconds.
const TIMETABLE: &[u8] =
    b"graph 1 17592186044416\nv central 0 17592186044416\nv museum 0 17592186044416\nv harbour 0 17592186044416\ne t1 central museum 1700000000000 1700000000001\ne t2 museum harbour 1700000420000 1700000420001\ne t3 museum harbour 1700000240000 1700000240001\npe t1 time 1700000000000 1700000000001 300000\npe t2 time 1700000420000 1700000420001 600000\npe t3 time 1700000240000 1700000240001 240000\nend\n";

/// Two edges that tie, an edge from the source to itself that costs nothing, a journey of three steps, and a vertex that dies.
const TIES: &[u8] =
    b"graph 1 12\nv a 0 12\nv b 0 12\nv c 0 12\nv d 0 8\ne x a b 0 6\ne y a b 0 6\ne aa a a 0 6\ne bc b c 0 9\ne cd c d 0 7\npe aa cost 0 6 0\nend\n";

#[test]
fn best_values(rt: HostRuntime) -> Result<(), Fail> {
    let cases: [(&[&str], &[u8], &[u8]); 9] = [
        (
            &["earliest", "--source", "a"],
            STOPS,
            b"graphite earliest steps 4\na 0 10 0\nb 0 1 none\nb 1 10 1\nc 2 4 none\nc 4 8 4\nend\n",
        ),
        (
            &["cheapest", "--source", "a", "--steps", "4"],
            STOPS,
            b"graphite cheapest steps 4\na 0 10 0\nb 0 1 none\nb 1 10 1\nc 2 4 none\nc 4 8 2\nend\n",
        ),
        // the window meets the last instant of an edge, and then misses it
        (
            &["reach", "--source", "a", "--from", "4", "--until", "5"],
            STOPS,
            b"graphite reach steps 4\na 0 4 none\na 4 10 0\nb 0 5 none\nb 5 10 0\nc 2 6 none\nc 6 8 0\nend\n",
        ),
        (
            &["reach", "--source", "a", "--from", "5", "--until", "6"],
            STOPS,
            b"graphite reach steps 2\na 0 5 none\na 5 10 0\nb 0 10 none\nc 2 8 none\nend\n",
        ),
        (
            &["earliest", "--source", "a", "--at", "3"],
            STOPS,
            b"graphite earliest steps 4\na 0\nb 1\nc none\nend\n",
        ),
        (
            &["earliest", "--source", "a"],
            LATER_IS_EARLIER,
            b"graphite earliest steps 3\na 0 20 0\nb 0 6 none\nb 6 20 6\nend\n",
        ),
        (
            &["cheapest", "--source", "a"],
            FREE_ROUND,
            b"graphite cheapest steps 4\na 0 10 0\nb 0 1 none\nb 1 10 0\nc 0 2 none\nc 2 10 1\nend\n",
        ),
        (
            &["earliest", "--source", "a"],
            LAST_ARRIVALS,
            b"graphite earliest steps 3\na 0 10 0\nb 0 9 none\nb 9 10 9\nc 0 10 none\nd 0 8 none\nend\n",
        ),
        (
            &["earliest", "--source", "central", "--from", "1699999990000"],
            TIMETABLE,
            b"graphite earliest steps 4\ncentral 0 1699999990000 none\ncentral 1699999990000 17592186044416 1699999990000\nmuseum 0 1700000300000 none\nmuseum 1700000300000 17592186044416 1700000300000\nharbour 0 1700001020000 none\nharbour 1700001020000 17592186044416 1700001020000\nend\n",
        ),
    ];
    for (words, text, written) in cases {
        expect_run(&rt, rt.alloc(), words, text, Status::Done, written)?;
    }
    Ok(())
}

/// The latest departures towards a vertex, and the fastest journeys with their durations.
#[test]
fn starts_and_durations(rt: HostRuntime) -> Result<(), Fail> {
    let cases: [(&[&str], &[u8]); 4] = [
        (
            &["latest", "--target", "c"],
            b"graphite latest steps 4\na 0 5 4\na 5 10 none\nb 0 7 6\nb 7 10 none\nc 2 8 7\nend\n",
        ),
        (
            &["fastest", "--source", "a", "--until", "5"],
            b"graphite fastest steps 4\na 0 1 0\na 1 2 1\na 2 3 2\na 3 4 3\na 4 10 4\n= a 0 0 0\nb 0 1 none\nb 1 2 0\nb 2 3 1\nb 3 4 2\nb 4 5 3\nb 5 10 4\n= b 1 0 1\nc 2 4 none\nc 4 5 2\nc 5 6 3\nc 6 8 4\n= c 2 2 4\nend\n",
        ),
        // the other reports tell no durations
        (
            &["fastest", "--source", "a", "--until", "5", "--at", "5"],
            b"graphite fastest steps 4\na 4\nb 4\nc 3\nend\n",
        ),
        (
            &["latest", "--target", "c", "--at", "3"],
            b"graphite latest steps 4\na 4\nb 6\nc 7\nend\n",
        ),
    ];
    for (words, written) in cases {
        expect_run(&rt, rt.alloc(), words, STOPS, Status::Done, written)?;
    }
    Ok(())
}

/// Written journeys: the later departure that arrives first, a way round that costs nothing, epoch milliseconds, the latest
/// departure, one journey alone, and durations beside journeys.
#[test]
fn written_journeys(rt: HostRuntime) -> Result<(), Fail> {
    let cases: [(&[&str], &[u8], &[u8]); 6] = [
        (
            &["earliest", "--source", "a", "--report", "paths"],
            LATER_IS_EARLIER,
            b"graphite earliest steps 3\na 0 20 0\nb 0 6 none\nb 6 20 6\n> x 5 6 1\nend\n",
        ),
        (
            &["cheapest", "--source", "a", "--report", "paths"],
            FREE_ROUND,
            b"graphite cheapest steps 4\na 0 10 0\nb 0 1 none\nb 1 10 0\n> ab 0 1 0\nc 0 2 none\nc 2 10 1\n> ab 0 1 0\n> bc 1 2 1\nend\n",
        ),
        (
            &[
                "earliest",
                "--source",
                "central",
                "--from",
                "1699999990000",
                "--path",
                "harbour",
                "--at",
                "1700001020000",
            ],
            TIMETABLE,
            b"graphite earliest steps 4\nharbour 1700001020000 1700001020000\n> t1 1700000000000 1700000300000 1\n> t2 1700000420000 1700001020000 1\nend\n",
        ),
        (
            &["latest", "--target", "c", "--report", "paths"],
            STOPS,
            b"graphite latest steps 4\na 0 5 4\n> ab 4 5 1\n> bc 6 7 1\na 5 10 none\nb 0 7 6\n> bc 6 7 1\nb 7 10 none\nc 2 8 7\nend\n",
        ),
        (
            &["reach", "--source", "a", "--path", "c", "--at", "3"],
            STOPS,
            b"graphite reach steps 4\nc 3 none\nend\n",
        ),
        (
            &[
                "fastest", "--source", "a", "--until", "2", "--report", "paths",
            ],
            STOPS,
            b"graphite fastest steps 4\na 0 1 0\na 1 10 1\n= a 0 0 0\nb 0 1 none\nb 1 2 0\n> ab 0 1 1\nb 2 10 1\n> ab 1 2 1\n= b 1 0 1\nc 2 4 none\nc 4 8 1\n> ab 1 2 1\n> bc 3 4 1\n= c 3 1 4\nend\n",
        ),
    ];
    for (words, text, written) in cases {
        expect_run(&rt, rt.alloc(), words, text, Status::Done, written)?;
    }
    Ok(())
}

/// The least edge and then the least departure, for the latest the greatest; no step where staying is as good; and which of
/// two reasons to refuse comes first.
#[test]
fn journeys_that_tie(rt: HostRuntime) -> Result<(), Fail> {
    let cases: [(&[&str], Status, &[u8]); 6] = [
        (
            &["cheapest", "--source", "a", "--path", "d", "--at", "7"],
            Status::Done,
            b"graphite cheapest steps 5\nd 7 3\n> x 0 1 1\n> bc 1 2 1\n> cd 2 3 1\nend\n",
        ),
        (
            &["latest", "--target", "d", "--path", "a", "--at", "1"],
            Status::Done,
            b"graphite latest steps 5\na 1 4\n> x 4 5 1\n> bc 5 6 1\n> cd 6 7 1\nend\n",
        ),
        (
            &["cheapest", "--source", "a", "--path", "a", "--at", "5"],
            Status::Done,
            b"graphite cheapest steps 5\na 5 0\nend\n",
        ),
        (
            &["reach", "--source", "a", "--path", "z", "--at", "12"],
            Status::QueryRefused,
            b"refused query 1\n",
        ),
        (
            &[
                "reach", "--source", "a", "--path", "d", "--at", "9", "--from", "3", "--until", "3",
            ],
            Status::QueryRefused,
            b"refused query 3\n",
        ),
        (
            &[
                "reach", "--source", "a", "--path", "d", "--at", "9", "--steps", "1",
            ],
            Status::QueryRefused,
            b"refused query 4\n",
        ),
    ];
    for (words, status, written) in cases {
        expect_run(&rt, rt.alloc(), words, TIES, status, written)?;
    }
    Ok(())
}

/// Windows of as many instants as the fastest journeys may have, and of one more, on a graph that is long enough.
#[test]
fn windows_at_their_limit(rt: HostRuntime) -> Result<(), Fail> {
    let cases: [(&[&str], &[u8], Status, &[u8]); 3] = [
        (
            &["fastest", "--source", "a", "--until", "5000"],
            STOPS,
            Status::QueryRefused,
            b"refused query 2\n",
        ),
        (
            &["fastest", "--source", "central", "--until", "4097"],
            TIMETABLE,
            Status::QueryRefused,
            b"refused query 3\n",
        ),
        (
            &[
                "fastest", "--source", "central", "--until", "4097", "--from", "1", "--at", "4096",
            ],
            TIMETABLE,
            Status::Done,
            b"graphite fastest steps 4\ncentral 4096\nmuseum none\nharbour none\nend\n",
        ),
    ];
    for (words, text, status, written) in cases {
        expect_run(&rt, rt.alloc(), words, text, status, written)?;
    }
    Ok(())
}

/// Budgets that end too early, and queries whose instants do not fit.
#[test]
fn journeys_that_are_refused(rt: HostRuntime) -> Result<(), Fail> {
    let cases: [(&[&str], Status, &[u8]); 9] = [
        (
            &["cheapest", "--source", "a", "--steps", "2"],
            Status::Budget,
            b"refused budget 2\n",
        ),
        (
            &["cheapest", "--source", "a", "--steps", "3"],
            Status::Budget,
            b"refused budget 3\n",
        ),
        (
            &["reach", "--source", "z"],
            Status::QueryRefused,
            b"refused query 1\n",
        ),
        (
            &["earliest", "--source", "a", "--at", "10"],
            Status::QueryRefused,
            b"refused query 2\n",
        ),
        // the end of a window is asked for before its length
        (
            &["earliest", "--source", "a", "--from", "10", "--until", "10"],
            Status::QueryRefused,
            b"refused query 2\n",
        ),
        (
            &["earliest", "--source", "a", "--from", "5", "--until", "5"],
            Status::QueryRefused,
            b"refused query 3\n",
        ),
        // the vertex whose journey is to be told
        (
            &["earliest", "--source", "a", "--path", "z", "--at", "6"],
            Status::QueryRefused,
            b"refused query 1\n",
        ),
        (
            &["earliest", "--source", "a", "--path", "c", "--at", "10"],
            Status::QueryRefused,
            b"refused query 2\n",
        ),
        (
            &["earliest", "--source", "a", "--path", "c", "--at", "1"],
            Status::QueryRefused,
            b"refused query 4\n",
        ),
    ];
    for (words, status, written) in cases {
        expect_run(&rt, rt.alloc(), words, STOPS, status, written)?;
    }
    Ok(())
}
