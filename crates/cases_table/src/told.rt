// The answers of the calls, in words.
use plan::Child;
use plan::refusal::{Misfit, Refusal, RowRefusal};
use std::io;

// The answer of the soundness call, to the end of the line.
pub fn answer(rt: &impl Print, a: Result<u64, Refusal>) -> io::Result<()> {
    match a {
        Ok(rows) => println!(rt; "accepted, place 0, count {rows}"),
        Err(e) => println!(rt; "{e}"),
    }
}

// A row, or none, to the end of the line.
pub fn row(rt: &impl Print, x: Option<usize>) -> io::Result<()> {
    match x {
        Some(x) => println!(rt; "{x}"),
        None => println!(rt; "none"),
    }
}

// The answer of an axis, to the end of the line.
pub fn found(rt: &impl Print, a: Result<Option<usize>, RowRefusal>) -> io::Result<()> {
    match a {
        Ok(x) => row(rt, x),
        Err(e) => println!(rt; "{e}"),
    }
}

// The row that a walk starts at, to the end of the line.
pub fn start(rt: &impl Print, a: Result<usize, RowRefusal>) -> io::Result<()> {
    found(rt, a.map(|x| Some(x)))
}

// A step of a walk.
pub fn step(rt: &impl Print, a: Result<Option<Child>, Misfit>) -> io::Result<()> {
    match a {
        Ok(Some(child)) => print!(rt; " {}", child.row),
        Ok(None) => print!(rt; " none"),
        Err(e) => print!(rt; " ({e})"),
    }
}
