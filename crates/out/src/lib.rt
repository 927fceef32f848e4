// For the programs that print cases: a heading, a column, a flat table, the worked plan.
#![tactic(auto)]

use std::io;

pub mod worked;

// A heading, on a line of its own. It takes any bytes.
pub fn heading(rt: &impl Print, s: &[u8]) -> io::Result<()> {
    print!(rt; "-- ")?;
    rt.write_all(s)?;
    println!(rt;)
}

// The numbers of a column, each after a space.
pub fn column(rt: &impl Print, s: &[u32]) -> io::Result<()> {
    for x in s {
        print!(rt; " {x}")?;
    }
    Ok(())
}

// The flat table of n rows, at the head of the columns: a root and its children, which have none. Each column is filled
// as far as it goes.
pub fn flat(dist: &mut [u32], size: &mut [u32], n: u32) {
    for (r, d) in (0..n).zip(dist.iter_mut()) {
        *d = r;
    }
    for (_, s) in (0..n).zip(size.iter_mut()) {
        *s = 1;
    }
    if let Some(d) = dist.first_mut() {
        *d = 1;
    }
    if let Some(s) = size.first_mut() {
        *s = n;
    }
}
