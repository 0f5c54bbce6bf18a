//! Tests on lines, records and their rules.
use graphite_text::{
    Lines, Record, Span, field, is_header, is_line, is_skipped, is_wrong_start, line_count,
    push_record, record_of,
};
use std::test::Fail;

#[test]
fn lines_are_numbered_from_one(rt: HostRuntime) -> Result<(), Fail> {
    let mut lines = Lines::new(b"graph 1 10\n\nend");
    let first = lines.next().ok_or("no first line")?;
    assert_eq!(rt; first.number, 1);
    assert_eq!(rt; first.bytes, b"graph 1 10".as_slice());
    assert!(rt; first.ended);
    let blank = lines.next().ok_or("no second line")?;
    assert_eq!(rt; blank.number, 2);
    assert!(rt; blank.bytes.is_empty());
    assert!(rt; blank.ended);
    let last = lines.next().ok_or("no third line")?;
    assert_eq!(rt; last.number, 3);
    assert_eq!(rt; last.bytes, b"end".as_slice());
    assert!(rt; !last.ended);
    assert!(rt; lines.next().is_none());
    Ok(())
}

#[test]
fn lines_are_counted(rt: HostRuntime) {
    let texts = [
        (b"".as_slice(), 0),
        (b"\n".as_slice(), 1),
        (b"# bus\ngraph 1 10\n\nend\n".as_slice(), 4),
        (b"graph 1 10\nend".as_slice(), 2),
    ];
    for (text, count) in texts {
        assert_eq!(rt; line_count(text), count);
    }
}

#[test]
fn records_say_what_their_lines_say(rt: HostRuntime) {
    let over = Span { a: 0, b: 5 };
    let lines = [
        (
            b"graph 1 10".as_slice(),
            Record::Graph {
                version: 1,
                horizon: 10,
            },
        ),
        (b"v ab 0 5".as_slice(), Record::Vertex { name: b"ab", over }),
        (
            b"e ab a b 0 5".as_slice(),
            Record::Edge {
                name: b"ab",
                from: b"a",
                to: b"b",
                over,
            },
        ),
        (
            b"pv a load 0 5 7".as_slice(),
            Record::VertexProp {
                owner: b"a",
                key: b"load",
                over,
                value: 7,
            },
        ),
        (
            b"pe ab time 0 5 4294967295".as_slice(),
            Record::EdgeProp {
                owner: b"ab",
                key: b"time",
                over,
                value: 4294967295,
            },
        ),
        (b"end".as_slice(), Record::End),
    ];
    for (line, record) in lines {
        assert!(rt; is_line(line));
        assert_eq!(rt; record_of(line), Ok(Some(record)));
    }
}

#[test]
fn broken_lines_name_the_least_rule(rt: HostRuntime) {
    let lines = [
        (b"v  d 0 1".as_slice(), 1),
        (b"v d 0 1 ".as_slice(), 1),
        (b"v d!  01".as_slice(), 1),
        (b"v d\x7f 0 1".as_slice(), 1),
        (b"x d 0 1".as_slice(), 3),
        (b"v d 0".as_slice(), 3),
        (b"x d! 0 01".as_slice(), 3),
        (b"v d! 0 1".as_slice(), 4),
        (b"v d! 0 01".as_slice(), 4),
        (b"v d 0 01".as_slice(), 5),
        (b"v d 0 17592186044417".as_slice(), 5),
        (b"pv a k 0 1 4294967296".as_slice(), 5),
        (b"graph 1 0".as_slice(), 5),
    ];
    for (line, rule) in lines {
        assert_eq!(rt; record_of(line), Err(rule));
    }
}

#[test]
fn blank_lines_and_comments_say_nothing(rt: HostRuntime) {
    for line in [
        b"".as_slice(),
        b"#".as_slice(),
        b"#  two spaces ".as_slice(),
    ] {
        assert!(rt; is_skipped(line));
        assert_eq!(rt; record_of(line), Ok(None));
    }
    assert!(rt; !is_skipped(b"end"));
    assert!(rt; is_line(&[b'#'; 1024]));
    assert!(rt; !is_line(&[b'#'; 1025]));
}

#[test]
fn fields_are_counted_from_zero(rt: HostRuntime) {
    let line = b"e ab a b 0 5".as_slice();
    assert_eq!(rt; field(line, 0), Some(b"e".as_slice()));
    assert_eq!(rt; field(line, 5), Some(b"5".as_slice()));
    assert_eq!(rt; field(line, 6), None);
    assert_eq!(rt; field(b"", 0), Some(b"".as_slice()));
}

#[test]
fn headers_are_told_apart(rt: HostRuntime) {
    assert!(rt; is_header(b"graph 2 10"));
    assert!(rt; !is_header(b"graphs 1 10"));
    assert!(rt; !is_wrong_start(b"graph 1 10"));
    assert!(rt; !is_wrong_start(b"graph"));
    assert!(rt; is_wrong_start(b"graph 2 10"));
    assert!(rt; is_wrong_start(b"v a 0 10"));
}

#[test]
fn records_are_written_as_their_lines(rt: HostRuntime) -> Result<(), Fail> {
    let over = Span { a: 0, b: 5 };
    let records = [
        Record::Graph {
            version: 1,
            horizon: 17_592_186_044_416,
        },
        Record::Vertex { name: b"a", over },
        Record::Edge {
            name: b"ab",
            from: b"a",
            to: b"b",
            over,
        },
        Record::VertexProp {
            owner: b"a",
            key: b"load",
            over,
            value: 7,
        },
        Record::EdgeProp {
            owner: b"ab",
            key: b"time",
            over,
            value: 4_294_967_295,
        },
        Record::End,
    ];
    let mut text = Vec::new(rt.alloc());
    for record in records {
        push_record(&mut text, record)?;
    }
    assert_eq!(rt;
        text.as_slice(),
        b"graph 1 17592186044416\nv a 0 5\ne ab a b 0 5\npv a load 0 5 7\npe ab time 0 5 4294967295\nend\n".as_slice()
    );
    Ok(())
}
