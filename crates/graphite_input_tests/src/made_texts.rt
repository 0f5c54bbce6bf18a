//! Made texts, which were worked out by another program from the definition of the made graph.
ghost use Rattle.graphite_gen.specs.Made.{IsRecipe};

use graphite_gen::made_text;
use std::alloc::Global;
use std::process::Abort;
use std::test::Fail;

fn assert_made(
    rt: &impl Abort,
    alloc: Global,
    seed: u64,
    v: u32,
    e: u32,
    h: u64,
    text: &[u8],
) -> Result<(), Fail>
    requires { IsRecipe (record { seed = seed; vertices = v; edges = e; horizon = h }) }
{
    let made = made_text(alloc, seed, v, e, h)?;
    assert_eq!(rt; made.as_slice(), text);
    Ok(())
}

#[test]
fn texts_are_made(rt: HostRuntime) -> Result<(), Fail> {
    let alloc = rt.alloc();
    assert_made(&rt, alloc, 5, 0, 0, 10, b"graph 1 10\nend\n")?;
    assert_made(
        &rt,
        alloc,
        7,
        1,
        0,
        1,
        b"graph 1 1\nv v0 0 1\npv v0 size 0 1 946\nend\n",
    )?;
    assert_made(
        &rt,
        alloc,
        1,
        3,
        4,
        100,
        b"graph 1 100\n\
            v v0 15 84\n\
            v v1 35 53\n\
            v v2 45 56\n\
            e e0 v1 v0 51 52\n\
            e e1 v2 v0 46 51\n\
            e e2 v0 v0 23 45\n\
            e e3 v2 v1 47 52\n\
            pv v0 size 15 84 490\n\
            pv v1 size 35 53 348\n\
            pv v2 size 45 56 820\n\
            pe e0 time 51 52 3\n\
            pe e0 cost 51 52 6\n\
            pe e1 time 46 51 1\n\
            pe e1 cost 46 51 6\n\
            pe e2 time 23 45 4\n\
            pe e2 cost 23 45 9\n\
            pe e3 time 47 52 3\n\
            pe e3 cost 47 52 3\n\
            end\n",
    )?;
    Ok(())
}
