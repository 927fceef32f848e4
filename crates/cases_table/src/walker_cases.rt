// The walker over a row's children.
use crate::told;
use out::{heading, worked};
use plan::lent::Table;
use std::io;
use walker::walker::Walker;

// The walk over the children of row r, for three steps.
fn walk(rt: &impl Print, t: Table, r: u32) -> io::Result<()> {
    let started = Walker::new(t.dist, t.size, t.value, r);
    let mut walker = started.walker;
    print!(rt; "walker over the children of {r}: ")?;
    told::start(rt, started.answer)?;
    print!(rt; "  steps:")?;
    for _ in 0..3 {
        told::step(rt, walker.step())?;
    }
    println!(rt)
}

// Rows 0 and 1, and a walk that is refused at its start.
fn worked_table(rt: &impl Print) -> io::Result<()> {
    heading(rt, b"the walker on T")?;
    walk(rt, worked::TABLE, 0)?;
    walk(rt, worked::TABLE, 1)?;
    walk(rt, worked::TABLE, 7)
}

// A walk that is refused at its second candidate.
fn unsound(rt: &impl Print) -> io::Result<()> {
    let t = Table {
        dist: &[1, 1, 2, 3, 4],
        size: &[5, 1, 4, 1, 1],
        value: &[10, 20, 30, 40, 50],
    };
    heading(
        rt,
        b"the walker on sizes 5,1,4,1,1: the second child passes the end",
    )?;
    walk(rt, t, 0)
}

pub fn all(rt: &impl Print) -> io::Result<()> {
    worked_table(rt)?;
    unsound(rt)
}
