// Every old row: the column of new numbers.
ghost use Rattle.std.specs.Prelude.{◌≡◌, true};
ghost use Rattle.plan.specs.Table.{read};
ghost use Rattle.plan.specs.Mapping.{OldDone};
ghost use Rattle.plan.specs.Told.{answer_told};

use crate::fill::count_up;
use crate::way::met;
use judge::exam::judged;
use judge::test_room;
use plan::lent::{Records, Table};
use plan::refusal::Refusal;
use plan::{Meeting, NewPre, Stand};

// The numbers up to each record, and the mark of the rows that go with it.
pub fn map_old<L: Records>(t: Table, l: &L, i: Table, number: &mut [u32]) -> Result<u64, Refusal>
    ensures { OldDone true (read t.entry) (read i.entry) (L.list l.now) number.old (answer_told result) number.new }
{
    let rows = t.size.len();
    judged(t, l, i)?;
    test_room(rows as u64, number.len())?;
    let mut s = Stand::start();
    for k in 0..l.len() {
        match met(s, l.record(k), t, i) {
            Meeting::Vain => {}
            Meeting::Renamed(goes) => s = goes,
            Meeting::Here(at, _, goes) => {
                let here = at.0 as usize;
                count_up(&mut number[s.row.0 as usize..here], s.out.0 as usize);
                number[here..goes.row.0 as usize].fill(NewPre::GONE);
                s = goes;
            }
        }
    }
    count_up(&mut number[s.row.0 as usize..rows], s.out.0 as usize);
    Ok(rows as u64)
}
