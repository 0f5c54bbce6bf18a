//! Tests on properties that touch, overlap and come in any order.
use crate::lives::interval;
use graphite_props::{AddFault, Rows, Timelines};
use std::alloc::Global;
use std::test::Fail;

#[test]
fn touching_properties_join_and_overlapping_ones_are_refused(rt: HostRuntime) -> Result<(), Fail> {
    let mut timelines = Timelines::new(rt.alloc());
    let first = interval(0, 4)?;
    let overlapping = interval(3, 5)?;
    let touching = interval(4, 5)?;
    assert_eq!(rt; timelines.add(0, b"k", first, 7), Ok(()));
    assert_eq!(rt;
        timelines.add(0, b"k", overlapping, 7),
        Err(AddFault::Overlap)
    );
    assert_eq!(rt; timelines.add(0, b"k", touching, 7), Ok(()));

    let timeline = timelines.timeline(0, b"k").ok_or("no timeline")?;
    assert_eq!(rt; timeline.pieces().len(), 1);
    assert_eq!(rt; timeline.pieces()[0].over, interval(0, 5)?);
    assert_eq!(rt; timeline.pieces()[0].value, 7);

    let rows = timelines.rows();
    assert_eq!(rt; rows.len(), 2);
    assert_eq!(rt; rows[0].over, first);
    assert_eq!(rt; rows[1].over, touching);
    assert_eq!(rt; rows[1].value, 7);
    assert_eq!(rt; rows[1].key, 0);
    assert_eq!(rt; timelines.key_name(0), b"k".as_slice());
    Ok(())
}

/// The properties of rows that fall, the last of which fills the gap between two others.
fn fallen(alloc: Global) -> Result<Timelines<'static>, Fail> {
    let mut rows = Rows::new(alloc);
    rows.add(0, b"k", interval(8, 9)?, 1)
        .map_err(|_| "no first row")?;
    rows.add(0, b"k", interval(0, 4)?, 7)
        .map_err(|_| "no second row")?;
    rows.add(0, b"k", interval(4, 8)?, 7)
        .map_err(|_| "no third row")?;
    Ok(Timelines::of_rows(rows)?)
}

#[test]
fn rows_that_fall_make_rising_timelines(rt: HostRuntime) -> Result<(), Fail> {
    let timelines = fallen(rt.alloc())?;
    let timeline = timelines.timeline(0, b"k").ok_or("no timeline")?;
    assert_eq!(rt; timeline.pieces().len(), 2);
    assert_eq!(rt; timeline.pieces()[0].over, interval(0, 8)?);
    assert_eq!(rt; timeline.pieces()[1].over, interval(8, 9)?);
    assert_eq!(rt; timelines.rows()[0].value, 1);
    Ok(())
}
