// The pass: a list of records over the columns of a table, in one walk from left to right. Old rows are copied, records
// are taken as their places come; what is open is found again by the distances, so there is no array and no stack.
// In the contracts t is the table, i the insertions, u the new columns before, and v after.
#![tactic(auto)]

ghost use Rattle.std.specs.Prelude.{◌≡◌, ◌<◌, ◌≤◌, length, get_or};
ghost use Rattle.plan.specs.Table.{table, read};
ghost use Rattle.plan.specs.Way.{stand};
ghost use Rattle.pass_moves.specs.Rows.{Room};
ghost use Rattle.pass_moves.specs.Written.{row, cursor, rowed};
ghost use Rattle.pass_way.specs.Machine.{Away};
ghost use Rattle.pass_way.specs.Walk.{ahead};
ghost use Rattle.pass.specs.Taking.{Under, Brings, with_run};
ghost use Rattle.pass.specs.Underway.{Next, Taken, Last, Copied, Through, Closed, Finished};

use judge_record::run::has_run;
use judge_record::way::{meet, row_behind, run_rows};
use pass_moves::{Cursor, close, end, paste, revalue, stretch};
use pass_way::upto;
use plan::lent::Table;
use plan::{Meeting, NewPre, OldPre, Record, Stand};

// The record's run, of so many rows, becomes the next new rows.
fn bring(
    c: Cursor,
    r: Record,
    run: u32,
    i: Table,
    ndist: &mut [u32],
    nsize: &mut [u32],
    nvalue: &mut [u32],
)
    requires { let u = table ndist.old nsize.old nvalue.old in
        Brings (read i) u c r run }
    ensures { let u = table ndist.old nsize.old nvalue.old in
        let v = table ndist.new nsize.new nvalue.new in
        v ≡ with_run (read i.entry) u c r run }
{
    if has_run(r) {
        let from = r.from as usize;
        paste(c, i, from, run as usize, ndist, nsize, nvalue);
    }
}

// The row under which the record's change is made: an insert's own parent. Of the table it reads one column.
fn parent_of(dist: &[u32], r: Record) -> OldPre
    requires { let p = r.location in
        (r.kind ≡ 2 → ⊥) → (p < length dist.now) × (get_or dist.now p 0 ≤ p) }
    ensures { Under dist.now r result.0 }
{
    if r.kind == Record::INSERT {
        return OldPre(r.parent);
    }
    OldPre(r.location - dist[r.location as usize])
}

// The next record is taken. The root is open already: a record there gives it another value. So does a rename, to a row
// ahead: the pass stays where it is.
pub fn one(
    c: Cursor,
    r: Record,
    t: Table,
    i: Table,
    ndist: &mut [u32],
    nsize: &mut [u32],
    nvalue: &mut [u32],
) -> Cursor
    requires { let u = table ndist.old nsize.old nvalue.old in
        Next (read t) (read i) u c r }
    ensures { let u = table ndist.old nsize.old nvalue.old in
        let v = table ndist.new nsize.new nvalue.new in
        Taken (read t.entry) (read i.entry) u c r v result }
{
    if r.location == 0 {
        nvalue[0] = r.value;
        return c;
    }
    let behind = row_behind(t.size, r);
    let run = run_rows(i.size, r);
    match meet(c.stand, r, behind, run) {
        Meeting::Vain => c,
        Meeting::Renamed(next) => {
            revalue(c, OldPre(r.location), r.value, t.value, nvalue);
            Cursor {
                stand: next,
                valued: OldPre(r.location + 1),
                ..c
            }
        }
        Meeting::Here(p, rows, next) => {
            let q = parent_of(t.dist, r);
            let k = upto(c, p, q, t, ndist, nsize, nvalue);
            bring(k, r, rows, i, ndist, nsize, nvalue);
            Cursor { stand: next, ..k }
        }
    }
}

// Behind the last record, one step: the open row is closed, or all rows left under it are copied.
fn tail_step(
    c: Cursor,
    t: Table,
    ndist: &mut [u32],
    nsize: &mut [u32],
    nvalue: &mut [u32],
) -> Cursor
    requires { let u = table ndist.old nsize.old nvalue.old in
        Last (read t) u c × Away (length t.size.now) 0 (row c) c.parent.0 }
    ensures { let t = read t.entry in
        let u = table ndist.old nsize.old nvalue.old in
        let v = table ndist.new nsize.new nvalue.new in
        Copied t u c v result × (ahead t result < ahead t c) }
{
    let e = end(t.size, c.parent);
    if c.stand.row == e {
        return close(c, t.dist, ndist, nsize);
    }
    stretch(c, e, t, ndist, nsize, nvalue)
}

// All rows are copied: the rows that are open are closed, one by one, but for the root. Of the new columns it takes the
// two that it reads or writes. Out of line it is a short loop with nothing beside it: on a path nearly all rows are
// closed here (docs/BENCHMARKS.md).
#[inline(never)]
fn close_all(start: Cursor, t: Table, ndist: &[u32], nsize: &mut [u32]) -> Cursor
    requires { Through (read t) ndist.now nsize.old start }
    ensures { let t = read t.entry in
        Closed t ndist.now nsize.old start nsize.new result × (row result ≡ length t.size) × (result.parent.0 ≡ 0) }
{
    let mut c = start;
    while c.parent != OldPre(0) {
        c = close(c, t.dist, ndist, nsize);
    }
    c
}

// Behind the last record: all rows that are left are copied, and the root alone stays open.
// By `upto` the rows above the last one would be opened and closed again, one by one; here they are copied at once, and
// only those that are open already are closed.
fn tail(start: Cursor, t: Table, ndist: &mut [u32], nsize: &mut [u32], nvalue: &mut [u32]) -> Cursor
    requires { let u = table ndist.old nsize.old nvalue.old in
        Last (read t) u start }
    ensures { let t = read t.entry in
        let u = table ndist.old nsize.old nvalue.old in
        let v = table ndist.new nsize.new nvalue.new in
        Copied t u start v result × (row result ≡ length t.size) × (result.parent.0 ≡ 0) }
{
    let n = OldPre(t.size.len() as u32);
    let mut c = start;
    while c.stand.row != n {
        c = tail_step(c, t, ndist, nsize, nvalue);
    }
    close_all(c, t, ndist, nsize)
}

// The rows behind the last record, and the root's size. The answer is the number of new rows.
pub fn finish(
    c: Cursor,
    t: Table,
    ndist: &mut [u32],
    nsize: &mut [u32],
    nvalue: &mut [u32],
) -> usize
    requires { let u = table ndist.old nsize.old nvalue.old in
        Last (read t) u c }
    ensures { let u = table ndist.old nsize.old nvalue.old in
        let v = table ndist.new nsize.new nvalue.new in
        Finished (read t.entry) u c v result }
{
    let rows = tail(c, t, ndist, nsize, nvalue).stand.out.0;
    nsize[0] = rows;
    rows as usize
}

// The root's row, with the value a. It is open.
pub fn begin(a: u32, ndist: &mut [u32], nsize: &mut [u32], nvalue: &mut [u32]) -> Cursor
    requires { Room 1 (table ndist.old nsize.old nvalue.old) }
    ensures value { result ≡ cursor (stand 1 1 0 0) 0 0 0 }
    ensures v_after { let u = table ndist.old nsize.old nvalue.old in
        let v = table ndist.new nsize.new nvalue.new in
        v ≡ rowed u 0 1 0 a }
{
    ndist[0] = 1;
    nsize[0] = 0;
    nvalue[0] = a;
    Cursor {
        stand: Stand {
            row: OldPre(1),
            out: NewPre(1),
            ..Stand::start()
        },
        parent: OldPre(0),
        under: NewPre(0),
        valued: OldPre(0),
    }
}
