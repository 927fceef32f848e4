// The bulk call and the single call over plain columns: judged by the published tests, and written in one pass.
// Accepted, the first rows of the new columns are the new table, and the rows behind stay. Refused, nothing is written.
// In the contracts u are the new columns before, and w after. They are three parameters, as in the pass.
// The table, the list and the insertions stay apart too: a struct of the three would be generic in the list.
#![tactic(auto)]

ghost use Rattle.std.specs.Prelude.{◌≡◌, true, [], ◌∷◌};
ghost use Rattle.plan.specs.Table.{table, read};
ghost use Rattle.plan.specs.Lent.{read_list, level, list};
ghost use Rattle.plan.specs.Told.{verdict_told, answer_told};
ghost use Rattle.plan.specs.Call.{bulk, Done};

use judge::exam::judged;
use judge::list::Level;
use judge::test_room;
use pass::{begin, finish, one};
use plan::Record;
use plan::lent::{Changes, Records, Table};
use plan::refusal::Refusal;
use table::test_even;

// Tests 1 to 10, in their order.
#[tactic(auto, using(crate::proofs::Settling::uneven_refused))]
fn test_all<L: Records>(t: Table, l: &L, i: Table, new: Table) -> Result<(), Refusal>
    ensures { let t' = read t.entry in
        let i' = read i.entry in
        verdict_told result ≡ bulk true t' i' (L.list l.now) (read new.entry) }
{
    test_even(new)?;
    let needed = judged(t, l, i)?;
    test_room(needed, new.size.len())
}

// A list of records, however it is lent, applied to a table: tested, and then written, one record after another. The
// answer is the number of new rows. Inlined, it takes less stack: the calls for C hold the columns already.
#[inline(always)]
pub fn apply<L: Records>(
    t: Table,
    l: &L,
    i: Table,
    ndist: &mut [u32],
    nsize: &mut [u32],
    nvalue: &mut [u32],
) -> Result<u64, Refusal>
    ensures { let u = table ndist.old nsize.old nvalue.old in
        let w = table ndist.new nsize.new nvalue.new in
        Done true (read t.entry) (read i.entry) (L.list l.now) u (answer_told result) w }
{
    let new = Table {
        dist: ndist,
        size: nsize,
        value: nvalue,
    };
    test_all(t, l, i, new)?;
    let mut c = begin(t.value[0], ndist, nsize, nvalue);
    for j in 0..l.len() {
        c = one(c, l.record(j), t, i, ndist, nsize, nvalue);
    }
    let rows = finish(c, t, ndist, nsize, nvalue);
    Ok(rows as u64)
}

// A list of changes, lent as columns.
pub fn bulk(
    t: Table,
    l: Changes,
    i: Table,
    ndist: &mut [u32],
    nsize: &mut [u32],
    nvalue: &mut [u32],
) -> Result<u64, Refusal>
    ensures { let l' = read_list l.entry in
        let u = table ndist.old nsize.old nvalue.old in
        let w = table ndist.new nsize.new nvalue.new in
        Done (level l') (read t.entry) (read i.entry) (list l') u (answer_told result) w }
{
    let level = Level::try_from(l)?;
    apply(t, &level, i, ndist, nsize, nvalue)
}

// One change: a list of one record.
pub fn single(
    t: Table,
    r: Record,
    i: Table,
    ndist: &mut [u32],
    nsize: &mut [u32],
    nvalue: &mut [u32],
) -> Result<u64, Refusal>
    ensures { let u = table ndist.old nsize.old nvalue.old in
        let w = table ndist.new nsize.new nvalue.new in
        Done true (read t.entry) (read i.entry) (r ∷ []) u (answer_told result) w }
{
    let list: &[Record] = &[r];
    apply(t, &list, i, ndist, nsize, nvalue)
}
