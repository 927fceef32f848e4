// What the mappings of row numbers answer and write: both mappings of every row for lists on the worked plan, row by
// row and as whole columns; rows that no table has; lent columns that are too short.
#![tactic(auto)]

use mapping::{map_new, map_old, new_to_old, old_to_new};
use out::{column, heading, worked};
use plan::lent::Changes;
use plan::refusal::Refusal;
use plan::{NewPre, OldPre, Source};
use std::io;

// What became of every old row, and of the first that is none.
fn rows_old(rt: &impl Print, l: Changes) -> io::Result<()> {
    for r in 0..8 {
        match old_to_new(worked::TABLE, l, worked::INSERTIONS, OldPre(r)) {
            Ok(Some(row)) => print!(rt; " {}", row.0)?,
            Ok(None) => print!(rt; " gone")?,
            Err(refusal) => print!(rt; " ({refusal})")?,
        }
    }
    Ok(())
}

// Which row every new one was, and the first that is none, up to row 8.
fn rows_new(rt: &impl Print, l: Changes) -> io::Result<()> {
    for r in 0..9 {
        match new_to_old(worked::TABLE, l, worked::INSERTIONS, NewPre(r)) {
            Ok(Source::Old(row)) => print!(rt; " {}", row.0)?,
            Ok(Source::Run(record, row)) => print!(rt; " (record {record} row {row})")?,
            Err(refusal) => print!(rt; " ({refusal})")?,
        }
    }
    Ok(())
}

// The answer of a call on whole columns.
fn tell(rt: &impl Print, answer: Result<u64, Refusal>) -> io::Result<()> {
    match answer {
        Ok(count) => print!(rt; " accepted, count {count}"),
        Err(refusal) => print!(rt; " ({refusal})"),
    }
}

// The new number of every old row, into the lent column.
fn column_old(rt: &impl Print, l: Changes, number: &mut [u32]) -> io::Result<()> {
    tell(rt, map_old(worked::TABLE, l, worked::INSERTIONS, number))?;
    print!(rt; "\n    number:")?;
    column(rt, number)?;
    println!(rt)
}

// The origin of every new row, into the lent columns.
fn columns_new(
    rt: &impl Print,
    l: Changes,
    records: &mut [u32],
    rows: &mut [u32],
) -> io::Result<()> {
    tell(
        rt,
        map_new(worked::TABLE, l, worked::INSERTIONS, records, rows),
    )?;
    print!(rt; "\n    record:")?;
    column(rt, records)?;
    print!(rt; "\n    row:")?;
    column(rt, rows)?;
    println!(rt)
}

// Both mappings of a list on T, row by row and as whole columns of 9 rows that hold 99.
fn on_t(rt: &impl Print, name: &str, l: Changes) -> io::Result<()> {
    let mut number = [99; 9];
    let mut record = [99; 9];
    let mut row = [99; 9];
    print!(rt; "{name}\n  old to new:")?;
    rows_old(rt, l)?;
    print!(rt; "\n  new to old:")?;
    rows_new(rt, l)?;
    print!(rt; "\n  every old row:")?;
    column_old(rt, l, &mut number)?;
    print!(rt; "  every new row:")?;
    columns_new(rt, l, &mut record, &mut row)
}

// Case A, with lent columns that are a row short, just long enough, or differ in length.
fn on_short(rt: &impl Print) -> io::Result<()> {
    let mut six = [99; 6];
    let mut seven = [99; 7];
    let mut eight = [99; 8];
    let mut other = [99; 8];
    print!(rt; "A, a column of 6 rows:")?;
    column_old(rt, worked::A, &mut six)?;
    print!(rt; "A, a column of 7 rows:")?;
    column_old(rt, worked::A, &mut seven)?;
    print!(rt; "A, columns of 6 and 7 rows:")?;
    columns_new(rt, worked::A, &mut six, &mut seven)?;
    print!(rt; "A, columns of 8 rows:")?;
    columns_new(rt, worked::A, &mut eight, &mut other)
}

fn main(rt: HostRuntime) -> io::Result<()> {
    heading(
        &rt,
        b"both mappings of lists on T; the last rows asked about are not in the table",
    )?;
    on_t(&rt, "A", worked::A)?;
    on_t(&rt, "B", worked::B)?;
    on_t(&rt, "C", worked::C)?;
    on_t(&rt, "D", worked::D)?;
    on_t(&rt, "I", worked::I)?;
    on_t(&rt, "K", worked::K)?;
    heading(&rt, b"lent columns")?;
    on_short(&rt)
}
