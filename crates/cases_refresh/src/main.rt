// What the bulk call and the single call answer and write: the worked plan's accepted lists, rows behind a new table
// that stay, new columns that are too short, and a table at the limit.
#![tactic(auto)]

use out::{column, flat, heading, worked};
use plan::Record;
use plan::lent::{Changes, Table};
use plan::refusal::Refusal;
use refresh::{bulk, single};
use std::io;

// The answer, to the end of the line.
fn told(rt: &impl Print, answer: Result<u64, Refusal>) -> io::Result<()> {
    match answer {
        Ok(count) => println!(rt; "accepted, count {count}"),
        Err(refusal) => println!(rt; "{refusal}"),
    }
}

// A list on T, with new columns of 9 rows that hold 99.
fn on_t(rt: &impl Print, name: &str, l: Changes) -> io::Result<()> {
    let mut ndist: [u32; 9] = [99; 9];
    let mut nsize: [u32; 9] = [99; 9];
    let mut nvalue: [u32; 9] = [99; 9];
    print!(rt; "{name}: ")?;
    told(
        rt,
        bulk(
            worked::TABLE,
            l,
            worked::INSERTIONS,
            &mut ndist,
            &mut nsize,
            &mut nvalue,
        ),
    )?;
    print!(rt; "  dist:")?;
    column(rt, &ndist)?;
    print!(rt; "\n  size:")?;
    column(rt, &nsize)?;
    print!(rt; "\n  value:")?;
    column(rt, &nvalue)?;
    println!(rt)
}

// Case L: A with new columns of 7 rows.
fn short(rt: &impl Print) -> io::Result<()> {
    let mut ndist: [u32; 7] = [99; 7];
    let mut nsize: [u32; 7] = [99; 7];
    let mut nvalue: [u32; 7] = [99; 7];
    print!(rt; "L: ")?;
    told(
        rt,
        bulk(
            worked::TABLE,
            worked::A,
            worked::INSERTIONS,
            &mut ndist,
            &mut nsize,
            &mut nvalue,
        ),
    )?;
    print!(rt; "  dist:")?;
    column(rt, &ndist)?;
    println!(rt)
}

// A list on the flat table of 65,535 rows, with new columns of as many rows. All other columns of the list are `none`.
fn on_flat(
    rt: &impl Print,
    name: &str,
    kind: &[u32],
    location: &[u32],
    none: &[u32],
) -> io::Result<()> {
    let mut dist = [0u32; 65535];
    let mut size = [0u32; 65535];
    let value = [7u32; 65535];
    let mut ndist = [0u32; 65535];
    let mut nsize = [0u32; 65535];
    let mut nvalue = [0u32; 65535];
    flat(&mut dist, &mut size, 65535);
    let t = Table {
        dist: &dist,
        size: &size,
        value: &value,
    };
    let l = Changes {
        kind,
        location,
        parent: none,
        from: none,
        value: none,
    };
    let i = Table {
        dist: &[1],
        size: &[1],
        value: &[1],
    };
    print!(rt; "{name}: ")?;
    told(rt, bulk(t, l, i, &mut ndist, &mut nsize, &mut nvalue))
}

// The single call: delete 4 on T.
fn alone(rt: &impl Print) -> io::Result<()> {
    let delete = Record {
        kind: Record::DELETE,
        location: 4,
        parent: 0,
        from: 0,
        value: 0,
    };
    let mut ndist: [u32; 7] = [99; 7];
    let mut nsize: [u32; 7] = [99; 7];
    let mut nvalue: [u32; 7] = [99; 7];
    print!(rt; "single, delete 4: ")?;
    told(
        rt,
        single(
            worked::TABLE,
            delete,
            worked::INSERTIONS,
            &mut ndist,
            &mut nsize,
            &mut nvalue,
        ),
    )?;
    print!(rt; "  value:")?;
    column(rt, &nvalue)?;
    println!(rt)
}

fn main(rt: HostRuntime) -> io::Result<()> {
    heading(&rt, b"lists on T; new columns of 9 rows that hold 99")?;
    on_t(&rt, "A", worked::A)?;
    on_t(&rt, "B", worked::B)?;
    on_t(&rt, "C", worked::C)?;
    on_t(&rt, "D", worked::D)?;
    on_t(&rt, "G, rename", worked::G)?;
    on_t(&rt, "I", worked::I)?;
    on_t(&rt, "J", worked::J)?;
    on_t(&rt, "K", worked::K)?;
    short(&rt)?;
    alone(&rt)?;
    heading(&rt, b"the flat table of 65,535 rows")?;
    on_flat(&rt, "rename", &[Record::RENAME], &[65534], &[0])?;
    on_flat(&rt, "insert of one row", &[Record::INSERT], &[65535], &[0])?;
    on_flat(
        &rt,
        "delete and insert, 65,536 rows in between",
        &[Record::DELETE, Record::INSERT],
        &[1, 65535],
        &[0, 0],
    )
}
