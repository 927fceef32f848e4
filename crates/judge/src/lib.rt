// The judgement of a list: the published tests 1 to 9 in the published order, and the rows that the list needs.
// Nothing is written, and no array is kept.
#![tactic(auto)]

ghost use Rattle.std.specs.Prelude.{◌≡◌, leb, ltb};
ghost use Rattle.plan.specs.Call.{test, published};
ghost use Rattle.plan.specs.Lent.{read_list};
ghost use Rattle.plan.specs.Table.{read};
ghost use Rattle.plan.specs.Told.{verdict_told, judgement_told};

use crate::list::Level;
use plan::lent::{Changes, Table};
use plan::refusal::Refusal;

pub mod exam;
pub mod list;

// Test 10: the lent columns have room for n rows.
pub fn test_room(n: u64, room: usize) -> Result<(), Refusal>
    ensures { verdict_told result ≡ test (leb n room) 10 0 n }
{
    if n > room as u64 {
        return Err(Refusal::NoRoom(n));
    }
    Ok(())
}

// Test 11: the row is one of n rows.
pub fn test_row(row: u32, n: u64) -> Result<(), Refusal>
    ensures { verdict_told result ≡ test (ltb row n) 11 row 0 }
{
    if row as u64 >= n {
        return Err(Refusal::NoSuchRow(row));
    }
    Ok(())
}

// The whole judgement: tests 1 to 9, and the rows needed.
pub fn judged(t: Table, l: Changes, i: Table) -> Result<u64, Refusal>
    ensures { judgement_told result ≡ published (read t.entry) (read i.entry) (read_list l.entry) }
{
    let level = Level::try_from(l)?;
    exam::judged(t, &level, i)
}
