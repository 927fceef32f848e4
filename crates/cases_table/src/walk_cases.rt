// The walk over a row's children.
use crate::told;
use out::{heading, worked};
use plan::lent::Table;
use std::io;
use table::walk::{start_walk, step};

// So many steps of a walk.
fn steps(rt: &impl Print, size: &[u32], start: usize, end: usize, count: u32) -> io::Result<()> {
    let mut next = start;
    for _ in 0..count {
        let answer = step(size, next, end);
        told::step(rt, answer)?;
        if let Ok(Some(child)) = answer {
            next = child.next;
        }
    }
    Ok(())
}

// The walk over the children of row r, for so many steps: a walk that is refused has no child to give.
fn walk(rt: &impl Print, t: Table, r: u32, count: u32) -> io::Result<()> {
    print!(rt; "walk over the children of {r}: ")?;
    let (answer, next, end) = match start_walk(t, r) {
        Ok(span) => (Ok(span.top), span.next, span.end),
        Err(e) => (Err(e), 0, 0),
    };
    told::start(rt, answer)?;
    print!(rt; "  steps:")?;
    steps(rt, t.size, next, end, count)?;
    println!(rt)
}

fn worked_table(rt: &impl Print) -> io::Result<()> {
    heading(rt, b"walks over T")?;
    walk(rt, worked::TABLE, 0, 5)?;
    walk(rt, worked::TABLE, 1, 4)?;
    walk(rt, worked::TABLE, 2, 2)?;
    walk(rt, worked::TABLE, 4, 3)?;
    walk(rt, worked::TABLE, 7, 2)
}

// Values one row short.
fn lengths(rt: &impl Print) -> io::Result<()> {
    let short = Table {
        value: &worked::TABLE.value[..6],
        ..worked::TABLE
    };
    heading(rt, b"T with values one row short")?;
    walk(rt, short, 0, 2)
}

// Two walks over an unsound table of five rows.
fn five(rt: &impl Print, name: &str, size: [u32; 5], r: u32) -> io::Result<()> {
    let t = Table {
        dist: &[1, 1, 2, 3, 4],
        size: &size,
        value: &[10, 20, 30, 40, 50],
    };
    heading(rt, name.as_bytes())?;
    walk(rt, t, 0, 4)?;
    walk(rt, t, r, 2)
}

fn fives(rt: &impl Print) -> io::Result<()> {
    five(
        rt,
        "sizes 5,1,4,1,1: the second child passes the end",
        [5, 1, 4, 1, 1],
        2,
    )?;
    five(
        rt,
        "sizes 5,2,1,0,1: the second child has size 0",
        [5, 2, 1, 0, 1],
        3,
    )?;
    five(rt, "sizes 4,4294967295,1,1,1", [4, 4294967295, 1, 1, 1], 1)
}

pub fn all(rt: &impl Print) -> io::Result<()> {
    worked_table(rt)?;
    lengths(rt)?;
    fives(rt)
}
