// Every new row: the columns of origins.
ghost use Rattle.std.specs.Prelude.{◌≡◌, true};
ghost use Rattle.plan.specs.Table.{read};
ghost use Rattle.plan.specs.Mapping.{places, NewDone};
ghost use Rattle.plan.specs.Told.{answer_told};

use crate::fill::count_up;
use crate::way::met;
use judge::exam::judged;
use judge::test_room;
use plan::lent::{Records, Table};
use plan::refusal::Refusal;
use plan::{Meeting, Record, Stand};

// The origins up to each record, and those of its run. The two columns are lent apart in C, and a struct of them would
// be no plainer.
pub fn map_new<L: Records>(
    t: Table,
    l: &L,
    i: Table,
    records: &mut [u32],
    rows: &mut [u32],
) -> Result<u64, Refusal>
    ensures { let u = places records.old rows.old in
        let u' = places records.new rows.new in
        NewDone true (read t.entry) (read i.entry) (L.list l.now) u (answer_told result) u' }
{
    if rows.len() != records.len() {
        return Err(Refusal::Uneven);
    }
    let n = judged(t, l, i)?;
    test_room(n, records.len())?;
    let mut s = Stand::start();
    for k in 0..l.len() {
        match met(s, l.record(k), t, i) {
            Meeting::Vain => {}
            Meeting::Renamed(goes) => s = goes,
            Meeting::Here(_, run, goes) => {
                let start = s.out.0 as usize;
                let first = (goes.out.0 - run) as usize;
                let end = goes.out.0 as usize;
                records[start..first].fill(Record::NONE);
                records[first..end].fill(k as u32);
                count_up(&mut rows[start..first], s.row.0 as usize);
                count_up(&mut rows[first..end], 0);
                s = goes;
            }
        }
    }
    let start = s.out.0 as usize;
    let end = start + (t.size.len() - s.row.0 as usize);
    records[start..end].fill(Record::NONE);
    count_up(&mut rows[start..end], s.row.0 as usize);
    Ok(end as u64)
}
