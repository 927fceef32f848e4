// The way of the pass from one record's place to the next: the open row is closed, or rows under it are copied at once.
#![tactic(auto)]

ghost use Rattle.std.specs.Prelude.{◌≡◌, ◌<◌};
ghost use Rattle.plan.specs.Table.{table, read};
ghost use Rattle.pass_way.specs.Machine.{Away};
ghost use Rattle.pass_moves.specs.Written.{row};
ghost use Rattle.pass_way.specs.Walk.{Elsewhere, Nearer, Readied, Went, ahead};

use pass_moves::{Cursor, close, end, stretch};
use plan::lent::Table;
use plan::{NewPre, OldPre};

// Is the pass not yet where row p is next and q is open?
pub fn elsewhere(c: Cursor, p: OldPre, q: OldPre) -> bool
    ensures { Elsewhere result c p.0 q.0 }
{
    c.stand.row != p || c.parent != q
}

// The nearer of two rows.
fn nearer(a: OldPre, b: OldPre) -> OldPre
    ensures { Nearer a.0 b.0 result.0 }
{
    a.min(b)
}

// One step: the open row is closed, or all rows left under it are copied, or those up to row p, the last of which is
// then open.
fn step(
    c: Cursor,
    p: OldPre,
    q: OldPre,
    t: Table,
    ndist: &mut [u32],
    nsize: &mut [u32],
    nvalue: &mut [u32],
) -> Cursor
    requires { let u = table ndist.old nsize.old nvalue.old in
        Readied (read t) u c p.0 q.0 × Away p.0 q.0 (row c) c.parent.0 }
    ensures { let t = read t.entry in
        let u = table ndist.old nsize.old nvalue.old in
        let v = table ndist.new nsize.new nvalue.new in
        Went t u c p.0 q.0 v result × (ahead t result < ahead t c) }
{
    let e = end(t.size, c.parent);
    if c.stand.row == e {
        return close(c, t.dist, ndist, nsize);
    }
    let k = stretch(c, nearer(e, p), t, ndist, nsize, nvalue);
    if e < p {
        return k;
    }
    Cursor {
        parent: OldPre(p.0 - 1),
        under: NewPre(k.stand.out.0 - 1),
        ..k
    }
}

// On to where row p is next and q is open. It counts nothing: each step brings the pass nearer.
pub fn upto(
    start: Cursor,
    p: OldPre,
    q: OldPre,
    t: Table,
    ndist: &mut [u32],
    nsize: &mut [u32],
    nvalue: &mut [u32],
) -> Cursor
    requires { let u = table ndist.old nsize.old nvalue.old in
        Readied (read t) u start p.0 q.0 }
    ensures { let t = read t.entry in
        let u = table ndist.old nsize.old nvalue.old in
        let v = table ndist.new nsize.new nvalue.new in
        Went t u start p.0 q.0 v result × (row result ≡ p.0) × (result.parent.0 ≡ q.0) }
{
    let mut c = start;
    while elsewhere(c, p, q) {
        c = step(c, p, q, t, ndist, nsize, nvalue);
    }
    c
}
