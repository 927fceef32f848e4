// One old row: which new row it became.
ghost use Rattle.std.specs.Prelude.{◌≡◌, true, length};
ghost use Rattle.plan.specs.Table.{read};
ghost use Rattle.plan.specs.Paint.{origins};
ghost use Rattle.plan.specs.Call.{result as result_of};
ghost use Rattle.plan.specs.Mapping.{fate, queried, became};
ghost use Rattle.plan.specs.Told.{became_told};

use crate::way::met;
use judge::exam::judged;
use judge::test_row;
use plan::lent::{Records, Table};
use plan::refusal::Refusal;
use plan::{Meeting, NewPre, OldPre, Stand};

// The row stands before a record, goes with it, or goes on.
pub fn old_to_new<L: Records>(
    t: Table,
    l: &L,
    i: Table,
    row: OldPre,
) -> Result<Option<NewPre>, Refusal>
    ensures { let t' = read t.entry in
        let i' = read i.entry in
        let v = queried true t' i' (L.list l.now) (length t'.size) row.0 in
        became_told result ≡ became v (fate (origins (result_of t' i' (L.list l.now))) 0 row.0) }
{
    judged(t, l, i)?;
    test_row(row.0, t.size.len() as u64)?;
    let mut s = Stand::start();
    for k in 0..l.len() {
        match met(s, l.record(k), t, i) {
            Meeting::Vain => {}
            Meeting::Renamed(goes) => s = goes,
            Meeting::Here(at, _, goes) => {
                if row < at {
                    return Ok(Some(NewPre(s.out.0 + (row.0 - s.row.0))));
                }
                if row < goes.row {
                    return Ok(None);
                }
                s = goes;
            }
        }
    }
    Ok(Some(NewPre(s.out.0 + (row.0 - s.row.0))))
}
