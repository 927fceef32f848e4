// The axes.
use crate::told;
use out::{column, heading, worked};
use plan::lent::Table;
use plan::refusal::RowRefusal;
use std::io;
use table::axes::{first_child, next_sibling, parent, subtree, subtree_top};

// One answer, after its question.
fn line(
    rt: &impl Print,
    question: &str,
    r: u32,
    a: Result<Option<usize>, RowRefusal>,
) -> io::Result<()> {
    print!(rt; "{question} {r}: ")?;
    told::found(rt, a)
}

// Every axis of row r.
fn row(rt: &impl Print, t: Table, r: u32) -> io::Result<()> {
    line(rt, "parent of", r, parent(t, r))?;
    line(rt, "first child of", r, first_child(t, r))?;
    line(rt, "next sibling of", r, next_sibling(t, r))?;
    line(rt, "subtree of", r, subtree_top(t, r).map(|x| Some(x)))?;
    print!(rt; "  values:")?;
    column(rt, subtree(t.dist, t.size, t.value, r))?;
    println!(rt)
}

// Every axis of the rows before n.
fn rows(rt: &impl Print, t: Table, n: u32) -> io::Result<()> {
    for r in 0..n {
        row(rt, t, r)?;
    }
    Ok(())
}

fn worked_table(rt: &impl Print) -> io::Result<()> {
    heading(rt, b"T, every row, then rows 7 and 4294967295")?;
    rows(rt, worked::TABLE, 7)?;
    row(rt, worked::TABLE, 7)?;
    row(rt, worked::TABLE, 4294967295)
}

fn lengths(rt: &impl Print) -> io::Result<()> {
    let short = Table {
        value: &worked::TABLE.value[..6],
        ..worked::TABLE
    };
    let empty = Table {
        dist: &[],
        size: &[],
        value: &[],
    };
    heading(
        rt,
        b"T with values one row short: row 0, then row 4294967295",
    )?;
    row(rt, short, 0)?;
    row(rt, short, 4294967295)?;
    heading(rt, b"no rows: row 0")?;
    row(rt, empty, 0)
}

// Every row of a table of three.
fn three(rt: &impl Print, name: &str, dist: [u32; 3], size: [u32; 3]) -> io::Result<()> {
    let t = Table {
        dist: &dist,
        size: &size,
        value: &[10, 20, 30],
    };
    heading(rt, name.as_bytes())?;
    rows(rt, t, 3)
}

fn threes(rt: &impl Print) -> io::Result<()> {
    let most: u32 = 4294967295;
    three(rt, "sizes 3,1,1 with dists 1,1,1", [1, 1, 1], [3, 1, 1])?;
    three(rt, "sizes 3,1,1 with dists 1,1,2", [1, 1, 2], [3, 1, 1])?;
    three(rt, "sizes 3,0,1 with dists 1,1,2", [1, 1, 2], [3, 0, 1])?;
    three(
        rt,
        "sizes of 4294967295 with dists 1,1,2",
        [1, 1, 2],
        [most, most, most],
    )?;
    three(
        rt,
        "sizes 3,1,1 with dists 0,0,4294967295",
        [0, 0, most],
        [3, 1, 1],
    )
}

pub fn all(rt: &impl Print) -> io::Result<()> {
    worked_table(rt)?;
    lengths(rt)?;
    threes(rt)
}
