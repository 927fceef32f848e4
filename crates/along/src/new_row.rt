// One new row: which row it was.
ghost use Rattle.std.specs.Prelude.{◌≡◌, true};
ghost use Rattle.plan.specs.Tree.{count};
ghost use Rattle.plan.specs.Table.{read};
ghost use Rattle.plan.specs.Paint.{origins};
ghost use Rattle.plan.specs.Call.{result as result_of};
ghost use Rattle.plan.specs.Mapping.{origin_at, queried, was};
ghost use Rattle.plan.specs.Told.{was_told};

use crate::way::met;
use judge::exam::judged;
use judge::test_row;
use plan::lent::{Records, Table};
use plan::refusal::Refusal;
use plan::{Meeting, NewPre, OldPre, Source, Stand};

// At each record the row is an old one before it, one of its run, or goes on.
pub fn new_to_old<L: Records>(t: Table, l: &L, i: Table, row: NewPre) -> Result<Source, Refusal>
    ensures { let t' = read t.entry in
        let i' = read i.entry in
        let f = result_of t' i' (L.list l.now) in
        let v = queried true t' i' (L.list l.now) (count f) row.0 in
        was_told result ≡ was v (origin_at (origins f) row.0) }
{
    let n = judged(t, l, i)?;
    test_row(row.0, n)?;
    let mut s = Stand::start();
    for k in 0..l.len() {
        match met(s, l.record(k), t, i) {
            Meeting::Vain => {}
            Meeting::Renamed(goes) => s = goes,
            Meeting::Here(_, run, goes) => {
                let first = NewPre(goes.out.0 - run);
                if row < first {
                    return Ok(Source::Old(OldPre(s.row.0 + (row.0 - s.out.0))));
                }
                if row < goes.out {
                    return Ok(Source::Run(k as u32, row.0 - first.0));
                }
                s = goes;
            }
        }
    }
    Ok(Source::Old(OldPre(s.row.0 + (row.0 - s.out.0))))
}
