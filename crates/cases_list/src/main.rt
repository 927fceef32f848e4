// What the judgement of a list answers: the worked plan, each test at the ends of its range, and the limits.
#![tactic(auto)]

ghost use Rattle.std.specs.Prelude.{◌≤◌};

use judge::judged;
use out::{heading, worked};
use plan::Record;
use plan::lent::{Changes, Table};
use std::io;

const LAST: u32 = u32::MAX;

const DELETE: u32 = Record::DELETE;

const INSERT: u32 = Record::INSERT;

const RENAME: u32 = Record::RENAME;

const REPLACE: u32 = Record::REPLACE;

// The judgement of a list on a table, after its name.
fn case(rt: &impl Print, name: &str, t: Table, l: Changes, i: Table) -> io::Result<()> {
    match judged(t, l, i) {
        Ok(rows) => println!(rt; "{name}: needs {rows}"),
        Err(refusal) => println!(rt; "{name}: {refusal}"),
    }
}

// A list on the table T.
fn on_t(rt: &impl Print, name: &str, l: Changes) -> io::Result<()> {
    case(rt, name, worked::TABLE, l, worked::INSERTIONS)
}

// A list on the table T, each record as its five numbers.
fn list<const N: usize>(rt: &impl Print, name: &str, a: [[u32; 5]; N]) -> io::Result<()>
    requires { N ≤ 1025 }
{
    let kind = a.map(|r| r[0]);
    let location = a.map(|r| r[1]);
    let parent = a.map(|r| r[2]);
    let from = a.map(|r| r[3]);
    let value = a.map(|r| r[4]);
    let l = Changes {
        kind: &kind,
        location: &location,
        parent: &parent,
        from: &from,
        value: &value,
    };
    on_t(rt, name, l)
}

// The lists of the worked plan that are accepted.
fn accepted(rt: &impl Print) -> io::Result<()> {
    on_t(rt, "A", worked::A)?;
    on_t(rt, "B", worked::B)?;
    on_t(rt, "D", worked::D)?;
    on_t(rt, "G, rename", worked::G)?;
    on_t(rt, "I", worked::I)?;
    on_t(rt, "J", worked::J)?;
    on_t(rt, "K", worked::K)
}

// Those that are refused.
fn refused(rt: &impl Print) -> io::Result<()> {
    on_t(rt, "C", worked::C)?;
    list(rt, "E", [[DELETE, 4, 0, 0, 0], [INSERT, 4, 0, 2, 0]])?;
    list(rt, "F", [[RENAME, 4, 0, 0, 9], [DELETE, 4, 0, 0, 0]])?;
    list(rt, "G", [[DELETE, 0, 0, 0, 0]])?;
    list(rt, "H", [[INSERT, 5, 0, 2, 0]])
}

// Test 4.
fn kinds(rt: &impl Print) -> io::Result<()> {
    list(rt, "kind 0", [[0, 1, 0, 0, 0]])?;
    list(rt, "kind 5", [[5, 1, 0, 0, 0]])?;
    list(
        rt,
        "kind 0 at a location past the table",
        [[0, LAST, 0, 0, 0]],
    )
}

// Test 5.
fn places(rt: &impl Print) -> io::Result<()> {
    list(rt, "delete the last row", [[DELETE, 6, 0, 0, 0]])?;
    list(rt, "delete at n", [[DELETE, 7, 0, 0, 0]])?;
    list(rt, "rename at n", [[RENAME, 7, 0, 0, 0]])?;
    list(rt, "replace 0", [[REPLACE, 0, 0, 0, 0]])
}

fn far_places(rt: &impl Print) -> io::Result<()> {
    list(rt, "delete at 4294967295", [[DELETE, LAST, 0, 0, 0]])?;
    list(rt, "insert at 4294967295", [[INSERT, LAST, 0, 0, 0]])?;
    list(rt, "insert under 4294967295", [[INSERT, 6, LAST, 0, 0]])?;
    list(
        rt,
        "delete whose other fields are 4294967295",
        [[DELETE, 4, LAST, LAST, LAST]],
    )
}

// The first record that fails decides, with its lowest number; what is vain counts nothing.
fn firsts(rt: &impl Print) -> io::Result<()> {
    list(
        rt,
        "test 7, and test 4 in a later record",
        [[INSERT, 6, 0, 0, 0], [INSERT, 6, 4, 2, 0], [0, 6, 0, 0, 0]],
    )?;
    list(
        rt,
        "test 5 before test 6",
        [[DELETE, 1, 0, 0, 0], [INSERT, 5, 0, 3, 0]],
    )?;
    list(
        rt,
        "delete, with a vain insert and a vain replace",
        [
            [DELETE, 1, 0, 0, 0],
            [INSERT, 3, 2, 0, 0],
            [REPLACE, 3, 0, 0, 0],
        ],
    )
}

// One insert from f on T, with these insertions.
fn run(rt: &impl Print, name: &str, dist: [u32; 3], size: [u32; 3], f: u32) -> io::Result<()> {
    let i = Table {
        dist: &dist,
        size: &size,
        ..worked::INSERTIONS
    };
    let l = Changes {
        kind: &[INSERT],
        location: &[7],
        parent: &[0],
        from: &[f],
        value: &[0],
    };
    case(rt, name, worked::TABLE, l, i)
}

// Test 6.
fn runs(rt: &impl Print) -> io::Result<()> {
    run(rt, "the last run", [1, 1, 1], [2, 1, 1], 2)?;
    run(rt, "from m", [1, 1, 1], [2, 1, 1], 3)?;
    run(rt, "from 4294967295", [1, 1, 1], [2, 1, 1], LAST)?;
    run(rt, "a run that ends at m", [1, 1, 1], [2, 2, 1], 1)
}

fn bad_runs(rt: &impl Print) -> io::Result<()> {
    run(rt, "a run that passes m", [1, 1, 1], [2, 1, 2], 2)?;
    run(rt, "a run of 4294967295 rows", [1, 1, 1], [2, 1, LAST], 2)?;
    run(rt, "a run of no rows", [1, 1, 1], [0, 1, 1], 0)?;
    run(rt, "an unsound run", [1, 2, 1], [2, 1, 1], 0)
}

// Three inserts at the end of three rows with dists 1,1,1 and these sizes.
fn chain_of(rt: &impl Print, name: &str, size: [u32; 3], parent: [u32; 3]) -> io::Result<()> {
    let t = Table {
        dist: &[1; 3],
        size: &size,
        value: &[1; 3],
    };
    let l = Changes {
        kind: &[INSERT; 3],
        location: &[3; 3],
        parent: &parent,
        from: &[2, 2, 0],
        value: &[1; 3],
    };
    case(rt, name, t, l, worked::INSERTIONS)
}

// The same on the chain of three rows.
fn chain(rt: &impl Print, name: &str, parent: [u32; 3]) -> io::Result<()> {
    chain_of(rt, name, [3, 2, 1], parent)
}

// Inserts at location n, under each row of the last line of parents.
fn ends(rt: &impl Print) -> io::Result<()> {
    list(
        rt,
        "under 6, then 0",
        [[INSERT, 7, 6, 2, 0], [INSERT, 7, 0, 2, 0]],
    )?;
    list(
        rt,
        "under 0, then 6",
        [[INSERT, 7, 0, 2, 0], [INSERT, 7, 6, 2, 0]],
    )?;
    list(rt, "under 1, which ends before", [[INSERT, 7, 1, 2, 0]])
}

fn chains(rt: &impl Print) -> io::Result<()> {
    chain(rt, "chain, under 2, 1, 0", [2, 1, 0])?;
    chain(rt, "chain, under 2, 2, 0", [2, 2, 0])?;
    chain(rt, "chain, under 0, 1, 2", [0, 1, 2])?;
    chain(rt, "chain, under 2, 0, 1", [2, 0, 1])
}

// Tests 1 and 2: columns of different length, and an unsound table.
fn columns(rt: &impl Print) -> io::Result<()> {
    let l = Changes {
        kind: &[DELETE],
        location: &[4],
        parent: &[0],
        from: &[0],
        value: &[],
    };
    on_t(rt, "list, values one short", l)?;
    chain_of(rt, "sizes 3,1,1 with dists 1,1,1", [3, 1, 1], [2, 1, 0])
}

// Test 3: so many equal inserts.
fn many(rt: &impl Print) -> io::Result<()> {
    list(rt, "1024 records", [[INSERT, 7, 0, 2, 0]; 1024])?;
    list(rt, "1025 records", [[INSERT, 7, 0, 2, 0]; 1025])
}

// One record on the flat table of 65,535 rows.
fn flat(rt: &impl Print, name: &str, kind: u32, location: u32) -> io::Result<()> {
    let mut dist = [0u32; 65535];
    let mut size = [0u32; 65535];
    out::flat(&mut dist, &mut size, 65535);
    let t = Table {
        dist: &dist,
        size: &size,
        value: &[0; 65535],
    };
    let l = Changes {
        kind: &[kind],
        location: &[location],
        parent: &[0],
        from: &[0],
        value: &[9],
    };
    let i = Table {
        dist: &[1],
        size: &[1],
        value: &[60],
    };
    case(rt, name, t, l, i)
}

fn on_flat(rt: &impl Print) -> io::Result<()> {
    flat(rt, "65535 rows, rename", RENAME, 65534)?;
    flat(rt, "65535 rows, insert of one row", INSERT, 65535)?;
    flat(rt, "65535 rows, replace by one row", REPLACE, 65534)
}

fn main(rt: HostRuntime) -> io::Result<()> {
    heading(&rt, b"lists")?;
    accepted(&rt)?;
    refused(&rt)?;
    columns(&rt)?;
    many(&rt)?;
    kinds(&rt)?;
    places(&rt)?;
    far_places(&rt)?;
    runs(&rt)?;
    bad_runs(&rt)?;
    firsts(&rt)?;
    ends(&rt)?;
    chains(&rt)?;
    on_flat(&rt)
}
