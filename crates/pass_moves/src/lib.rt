// The small moves of the pass: rows are copied, values are written ahead, a row is closed. Each says what the new
// columns hold then. In the contracts t is the table that rows are taken from, u the new columns before, and v after.
// Here and in the pass the new columns are three parameters: with one struct of them a refresh of a path takes longer
// than to recompute all distances (docs/BENCHMARKS.md), and with three it does not.
#![tactic(auto)]

ghost use Rattle.std.specs.Prelude.{◌≡◌, ◌+◌, ◌-◌, ◌<◌, ◌≤◌, length, get_or, set, drop};
ghost use Rattle.plan.specs.Table.{table, read, most_rows};
ghost use Rattle.pass_moves.specs.Written.{row, out, on_to, cursor, copied, laid, hung, rehung};
ghost use Rattle.pass_moves.specs.Written.{Ended, Pastes, Unread, Stretches, Wrote, Revalues, Revalued, Closes};

use plan::lent::Table;
use plan::{NewPre, OldPre, Stand};

// Where the pass stands.
#[derive(Clone, Copy)]
pub struct Cursor {
    // the next old row and the next new row, and the old rows that the last record took away
    pub stand: Stand,
    // the innermost open row, in the old table and in the new
    pub parent: OldPre,
    pub under: NewPre,
    // the values of the old rows before this one are there already
    pub valued: OldPre,
}

// The row behind a row and its subtree. It takes the one column that it reads.
pub fn end(size: &[u32], row: OldPre) -> OldPre
    requires { Ended size.now row.0 }
    ensures { result.0 ≡ row.0 + get_or size.now row.0 0 }
{
    OldPre(row.0 + size[row.0 as usize])
}

// Copies a part of a column.
fn copy(column: &[u32], from: usize, count: usize, new: &mut [u32], at: usize)
    requires { (from + count ≤ length column.now) × (at + count ≤ length new.old) }
    ensures { new.new ≡ copied new.old at column.now from count }
{
    for j in 0..count {
        new[at + j] = column[from + j];
    }
}

// The rows of a run become the next new rows, under the open row.
pub fn paste(
    c: Cursor,
    t: Table,
    from: usize,
    count: usize,
    ndist: &mut [u32],
    nsize: &mut [u32],
    nvalue: &mut [u32],
)
    requires { let u = table ndist.old nsize.old nvalue.old in
        Pastes (read t) from count u c }
    ensures { let u = table ndist.old nsize.old nvalue.old in
        let v = table ndist.new nsize.new nvalue.new in
        v ≡ laid u (out c) (read t.entry) from count (out c - c.under.0) }
{
    let at = c.stand.out.0 as usize;
    copy(t.dist, from, count, ndist, at);
    ndist[at] = c.stand.out.0 - c.under.0;
    copy(t.size, from, count, nsize, at);
    copy(t.value, from, count, nvalue, at);
}

// The distance of the row at place j of a stretch: it leads to the open row, d rows before the stretch, or stays.
fn hang(d: u32, j: u32, x: u32) -> u32
    requires { d + j ≤ most_rows }
    ensures { result ≡ hung d j x }
{
    if x > j { d + j } else { x }
}

// Copies a part of the distances, of rows that all lie under the open row, d rows before the part. It takes
// the one column that it reads.
fn rehang(dist: &[u32], from: usize, count: usize, d: u32, new: &mut [u32], at: usize)
    requires { let n = length dist.now in
        (from + count ≤ n) × (at + count ≤ length new.old) × (d + count ≤ most_rows) }
    ensures { let x = rehung d 0 (drop from dist.now) in
        new.new ≡ copied new.old at x 0 count }
{
    for j in 0..count {
        new[at + j] = hang(d, j as u32, dist[from + j]);
    }
}

// Of the rows from `row` up to `stop`, the first whose value is not there yet.
fn unread(row: OldPre, valued: OldPre, stop: OldPre) -> OldPre
    requires { row.0 ≤ stop.0 }
    ensures { Unread row.0 valued.0 stop.0 result.0 }
{
    OldPre(valued.0.clamp(row.0, stop.0))
}

// The rows up to row `stop`, which all lie under the open row, become the next new rows.
pub fn stretch(
    c: Cursor,
    stop: OldPre,
    t: Table,
    ndist: &mut [u32],
    nsize: &mut [u32],
    nvalue: &mut [u32],
) -> Cursor
    requires { let u = table ndist.old nsize.old nvalue.old in
        Stretches (read t) stop.0 u c }
    ensures result_value { let s = on_to c.stand stop.0 (out c + (stop.0 - row c)) in
        result ≡ cursor s c.parent.0 c.under.0 c.valued.0 }
    ensures fact { let u = table ndist.old nsize.old nvalue.old in
        let v = table ndist.new nsize.new nvalue.new in
        Wrote (read t.entry) u c stop.0 v }
{
    let row = c.stand.row;
    let out = c.stand.out;
    let at = out.0 as usize;
    let first = row.0 as usize;
    let rows = stop.0 as usize - first;
    rehang(t.dist, first, rows, out.0 - c.under.0, ndist, at);
    copy(t.size, first, rows, nsize, at);
    let left = unread(row, c.valued, stop);
    let from = left.0 as usize;
    copy(
        t.value,
        from,
        stop.0 as usize - from,
        nvalue,
        at + (from - first),
    );
    Cursor {
        stand: Stand {
            row: stop,
            out: NewPre(out.0 + (stop.0 - row.0)),
            ..c.stand
        },
        ..c
    }
}

// The values of the rows before row p are copied to where these rows will stand, and row p gets the value a there.
// It takes the one column that it reads and the one that it writes.
pub fn revalue(c: Cursor, p: OldPre, a: u32, value: &[u32], nvalue: &mut [u32])
    requires { Revalues value.now nvalue.old c p.0 }
    ensures { Revalued value.now nvalue.old c p.0 a nvalue.new }
{
    let row = c.stand.row;
    let at = c.stand.out.0 as usize;
    let first = row.0 as usize;
    let place = p.0 as usize;
    let left = unread(row, c.valued, p);
    let from = left.0 as usize;
    copy(value, from, place - from, nvalue, at + (from - first));
    nvalue[at + (place - first)] = a;
}

// The open row is closed: its size is known. Its parent, old and new, is open. It takes the columns that it reads.
pub fn close(c: Cursor, dist: &[u32], ndist: &[u32], nsize: &mut [u32]) -> Cursor
    requires { Closes dist.now ndist.now nsize.old c }
    ensures result_value { let q = c.parent.0 - get_or dist.now c.parent.0 0 in
        let j = c.under.0 - get_or ndist.now c.under.0 0 in
        result ≡ cursor c.stand q j c.valued.0 }
    ensures nsize_after { nsize.new ≡ set nsize.old c.under.0 (out c - c.under.0) }
{
    let parent = c.parent.0;
    let under = c.under.0;
    nsize[under as usize] = c.stand.out.0 - under;
    Cursor {
        parent: OldPre(parent - dist[parent as usize]),
        under: NewPre(under - ndist[under as usize]),
        ..c
    }
}
