// The soundness call, and the first bad row.
ghost use Rattle.std.specs.Prelude.{◌≤◌};

use crate::told;
use out::{flat, heading, worked};
use plan::lent::Table;
use std::io;
use table::climb::first_bad;
use table::sound::{is_sound, soundness};

// What is said of one table, after its name.
fn case(rt: &impl Print, name: &str, t: Table) -> io::Result<()> {
    print!(rt; "{name}: ")?;
    told::answer(rt, soundness(t))?;
    print!(rt; "  first bad row: ")?;
    told::row(rt, first_bad(t.dist, t.size))
}

// Are rows f to e of the insertions a run that is sound by itself?
fn run(rt: &impl Print, f: usize, e: usize) -> io::Result<()>
    requires from_to { f ≤ e }
    requires within { e ≤ 3 }
{
    let i = worked::INSERTIONS;
    let part = Table {
        dist: &i.dist[f..e],
        size: &i.size[f..e],
        value: &i.value[f..e],
    };
    let sound = is_sound(part);
    let told = if sound { "sound" } else { "not sound" };
    println!(rt; "insertions from {f} to {e}: {told}")
}

// The flat table of n rows.
fn flat_case(rt: &impl Print, n: u32) -> io::Result<()>
    requires { n ≤ 65536 }
{
    let mut dist = [0u32; 65536];
    let mut size = [0u32; 65536];
    flat(&mut dist, &mut size, n);
    let m = n as usize;
    let t = Table {
        dist: &dist[..m],
        size: &size[..m],
        value: &[0; 65536][..m],
    };
    print!(rt; "flat, {n}")?;
    case(rt, " rows", t)
}

// The table T, no rows, and columns that differ in length.
fn lengths(rt: &impl Print) -> io::Result<()> {
    let empty = Table {
        dist: &[],
        size: &[],
        value: &[],
    };
    let few_values = Table {
        value: &worked::TABLE.value[..6],
        ..worked::TABLE
    };
    let few_dists = Table {
        dist: &worked::TABLE.dist[..6],
        ..worked::TABLE
    };
    case(rt, "T", worked::TABLE)?;
    case(rt, "no rows", empty)?;
    case(rt, "values one row short", few_values)?;
    case(rt, "dists one row short", few_dists)
}

// A table of three rows.
fn three(rt: &impl Print, name: &str, dist: [u32; 3], size: [u32; 3]) -> io::Result<()> {
    let t = Table {
        dist: &dist,
        size: &size,
        value: &[10, 20, 30],
    };
    case(rt, name, t)
}

fn threes(rt: &impl Print) -> io::Result<()> {
    three(rt, "sizes 3,1,1 with dists 1,1,1", [1, 1, 1], [3, 1, 1])?;
    three(rt, "sizes 3,1,1 with dists 1,1,2", [1, 1, 2], [3, 1, 1])?;
    three(rt, "sizes 3,0,1 with dists 1,1,2", [1, 1, 2], [3, 0, 1])
}

fn huge(rt: &impl Print) -> io::Result<()> {
    let most: u32 = 4294967295;
    three(
        rt,
        "sizes 3,4294967295,1 with dists 1,1,2",
        [1, 1, 2],
        [3, most, 1],
    )?;
    three(
        rt,
        "sizes of 4294967295 with dists 1,1,2",
        [1, 1, 2],
        [most, most, most],
    )?;
    three(
        rt,
        "dists and sizes of 4294967295",
        [most, most, most],
        [most, most, most],
    )
}

fn runs(rt: &impl Print) -> io::Result<()> {
    run(rt, 0, 2)?;
    run(rt, 2, 3)?;
    run(rt, 0, 3)?;
    run(rt, 1, 1)
}

pub fn all(rt: &impl Print) -> io::Result<()> {
    heading(rt, b"soundness")?;
    lengths(rt)?;
    threes(rt)?;
    huge(rt)?;
    runs(rt)?;
    flat_case(rt, 65535)?;
    flat_case(rt, 65536)
}
