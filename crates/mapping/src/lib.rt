// The two mappings of row numbers, of one row or as whole columns, by a list that is lent as columns.
#![tactic(auto)]

ghost use Rattle.std.specs.Prelude.{◌≡◌, length};
ghost use Rattle.plan.specs.Tree.{count};
ghost use Rattle.plan.specs.Table.{read};
ghost use Rattle.plan.specs.Paint.{origins};
ghost use Rattle.plan.specs.Call.{result as result_of};
ghost use Rattle.plan.specs.Lent.{read_list, level, list};
ghost use Rattle.plan.specs.Mapping.{fate, origin_at, queried, became, was, places, OldDone, NewDone};
ghost use Rattle.plan.specs.Told.{became_told, was_told, answer_told};

use along::{every_new, every_old, new_row, old_row};
use judge::list::Level;
use plan::lent::{Changes, Table};
use plan::refusal::Refusal;
use plan::{NewPre, OldPre, Source};

// Which new row the old row became; None if it is gone.
#[tactic(auto, using(crate::proofs::Answers::became_uneven, std::proofs::lemmas::Grind::common_steps))]
pub fn old_to_new(t: Table, l: Changes, i: Table, row: OldPre) -> Result<Option<NewPre>, Refusal>
    ensures { let t' = read t.entry in
        let i' = read i.entry in
        let c = read_list l.entry in
        let v = queried (level c) t' i' (list c) (length t'.size) row.0 in
        became_told result ≡ became v (fate (origins (result_of t' i' (list c))) 0 row.0) }
{
    old_row::old_to_new(t, &Level::try_from(l)?, i, row)
}

// Which row the new row was.
#[tactic(auto, using(crate::proofs::Answers::was_uneven, std::proofs::lemmas::Grind::common_steps))]
pub fn new_to_old(t: Table, l: Changes, i: Table, row: NewPre) -> Result<Source, Refusal>
    ensures { let t' = read t.entry in
        let i' = read i.entry in
        let c = read_list l.entry in
        let f = result_of t' i' (list c) in
        was_told result ≡ was (queried (level c) t' i' (list c) (count f) row.0) (origin_at (origins f) row.0) }
{
    new_row::new_to_old(t, &Level::try_from(l)?, i, row)
}

// For every old row its new number, or the mark of a row that is gone.
pub fn map_old(t: Table, l: Changes, i: Table, number: &mut [u32]) -> Result<u64, Refusal>
    ensures { let c = read_list l.entry in
        OldDone (level c) (read t.entry) (read i.entry) (list c) number.old (answer_told result) number.new }
{
    every_old::map_old(t, &Level::try_from(l)?, i, number)
}

// For every new row its record and the row in its run, or the mark of no record and its old row.
pub fn map_new(
    t: Table,
    l: Changes,
    i: Table,
    records: &mut [u32],
    rows: &mut [u32],
) -> Result<u64, Refusal>
    ensures { let c = read_list l.entry in
        let u = places records.old rows.old in
        let u' = places records.new rows.new in
        NewDone (level c) (read t.entry) (read i.entry) (list c) u (answer_told result) u' }
{
    every_new::map_new(t, &Level::try_from(l)?, i, records, rows)
}
