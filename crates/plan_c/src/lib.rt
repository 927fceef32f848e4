// The calls for C and for Rust, as `include/plan.h` declares them. Each puts the lent columns side by side, hands them
// to the library, and hands its answer back as plain numbers. A list is lent as a slice of records.
// C lends column by column, so the parameters stay single.
#![tactic(auto)]

ghost use Rattle.std.specs.Prelude.{◌≡◌, true, [], ◌∷◌, length};
ghost use Rattle.plan.specs.Tree.{count};
ghost use Rattle.plan.specs.Table.{table};
ghost use Rattle.plan.specs.Paint.{origins};
ghost use Rattle.plan.specs.Call.{result as result_of};
ghost use Rattle.plan.specs.Mapping.{fate, origin_at, queried};
ghost use Rattle.plan.specs.Mapping.{became, was};
ghost use Rattle.plan.specs.Mapping.{places, OldDone, NewDone};
ghost use Rattle.plan.specs.Axes.{soundness as soundness_of, parent as parent_of, first_child, next_sibling, subtree_top, subtree as values_of, walk_start, step as step_at};
ghost use Rattle.plan.specs.Call.{Done};
ghost use Rattle.plan.specs.Handed.{row_of, part_of, walk_of, step_of, became_of, was_of};

use along::{every_new, every_old, new_row, old_row};
use handed::{answer_of, became_of, part_of, row_of, step_of, walk_of, was_of};
use plan::lent::Table;
use plan::{
    Answer, NewPre, OldPre, PlanBecame, PlanPart, PlanRow, PlanStep, PlanWalk, PlanWas, Record,
};
use refresh::{apply, single};
use table::axes::{first_child, next_sibling, parent, subtree, subtree_top};
use table::sound::soundness;
use table::walk::{start_walk, step};

// Is the table sound?
pub fn plan_soundness(dist: &[u32], size: &[u32], value: &[u32]) -> Answer
    ensures { result ≡ soundness_of (table dist.now size.now value.now) }
{
    answer_of(soundness(Table { dist, size, value }))
}

// The parent of a row; none for row 0.
pub fn plan_parent(dist: &[u32], size: &[u32], value: &[u32], row: u32) -> PlanRow
    ensures { let t = table dist.now size.now value.now in
        result ≡ row_of (parent_of t row) }
{
    row_of(parent(Table { dist, size, value }, row))
}

// The first child of a row, or none.
pub fn plan_first_child(dist: &[u32], size: &[u32], value: &[u32], row: u32) -> PlanRow
    ensures { let t = table dist.now size.now value.now in
        result ≡ row_of (first_child t row) }
{
    row_of(first_child(Table { dist, size, value }, row))
}

// The next sibling of a row, or none.
pub fn plan_next_sibling(dist: &[u32], size: &[u32], value: &[u32], row: u32) -> PlanRow
    ensures { let t = table dist.now size.now value.now in
        result ≡ row_of (next_sibling t row) }
{
    row_of(next_sibling(Table { dist, size, value }, row))
}

// The rows of one subtree: where that part of the columns starts, and how long it is.
pub fn plan_subtree(dist: &[u32], size: &[u32], value: &[u32], row: u32) -> PlanPart
    ensures { let t = table dist.now size.now value.now in
        result ≡ part_of (subtree_top t row) (length (values_of t row)) }
{
    let t = Table { dist, size, value };
    part_of(subtree_top(t, row), subtree(dist, size, value, row).len())
}

// A walk over the children of a row, at its start.
pub fn plan_children(dist: &[u32], size: &[u32], value: &[u32], row: u32) -> PlanWalk
    ensures { let t = table dist.now size.now value.now in
        result ≡ walk_of (walk_start t row) }
{
    walk_of(start_walk(Table { dist, size, value }, row))
}

// One step of a child walk over the size column.
pub fn plan_child(size: &[u32], next: u64, end: u64) -> PlanStep
    ensures { result ≡ step_of (step_at size.now next end) next }
{
    step_of(step(size, next as usize, end as usize), next)
}

// One record applied, judged as a list of one.
pub fn plan_single(
    change: Record,
    dist: &[u32],
    size: &[u32],
    value: &[u32],
    idist: &[u32],
    isize: &[u32],
    ivalue: &[u32],
    ndist: &mut [u32],
    nsize: &mut [u32],
    nvalue: &mut [u32],
) -> Answer
    ensures { let t = table dist.now size.now value.now in
        let i = table idist.now isize.now ivalue.now in
        let u = table ndist.old nsize.old nvalue.old in
        let w = table ndist.new nsize.new nvalue.new in
        Done true t i (change ∷ []) u result w }
{
    let t = Table { dist, size, value };
    let i = Table {
        dist: idist,
        size: isize,
        value: ivalue,
    };
    answer_of(single(t, change, i, ndist, nsize, nvalue))
}

// A list of records applied in one pass.
pub fn plan_bulk(
    list: &[Record],
    dist: &[u32],
    size: &[u32],
    value: &[u32],
    idist: &[u32],
    isize: &[u32],
    ivalue: &[u32],
    ndist: &mut [u32],
    nsize: &mut [u32],
    nvalue: &mut [u32],
) -> Answer
    ensures { let t = table dist.now size.now value.now in
        let i = table idist.now isize.now ivalue.now in
        let u = table ndist.old nsize.old nvalue.old in
        let w = table ndist.new nsize.new nvalue.new in
        Done true t i list.now u result w }
{
    let t = Table { dist, size, value };
    let i = Table {
        dist: idist,
        size: isize,
        value: ivalue,
    };
    answer_of(apply(t, &list, i, ndist, nsize, nvalue))
}

// What a list makes of an old row.
pub fn plan_old_to_new(
    list: &[Record],
    dist: &[u32],
    size: &[u32],
    value: &[u32],
    idist: &[u32],
    isize: &[u32],
    ivalue: &[u32],
    row: u32,
) -> PlanBecame
    ensures { let t = table dist.now size.now value.now in
        let i = table idist.now isize.now ivalue.now in
        let v = queried true t i list.now (length t.size) row in
        result ≡ became_of (became v (fate (origins (result_of t i list.now)) 0 row)) }
{
    let t = Table { dist, size, value };
    let i = Table {
        dist: idist,
        size: isize,
        value: ivalue,
    };
    became_of(old_row::old_to_new(t, &list, i, OldPre(row)))
}

// Which row a new row was.
pub fn plan_new_to_old(
    list: &[Record],
    dist: &[u32],
    size: &[u32],
    value: &[u32],
    idist: &[u32],
    isize: &[u32],
    ivalue: &[u32],
    row: u32,
) -> PlanWas
    ensures { let t = table dist.now size.now value.now in
        let i = table idist.now isize.now ivalue.now in
        let f = result_of t i list.now in
        let v = queried true t i list.now (count f) row in
        result ≡ was_of (was v (origin_at (origins f) row)) }
{
    let t = Table { dist, size, value };
    let i = Table {
        dist: idist,
        size: isize,
        value: ivalue,
    };
    was_of(new_row::new_to_old(t, &list, i, NewPre(row)))
}

// For every old row its new number, or that it is gone.
pub fn plan_map_old(
    list: &[Record],
    dist: &[u32],
    size: &[u32],
    value: &[u32],
    idist: &[u32],
    isize: &[u32],
    ivalue: &[u32],
    number: &mut [u32],
) -> Answer
    ensures { let t = table dist.now size.now value.now in
        let i = table idist.now isize.now ivalue.now in
        OldDone true t i list.now number.old result number.new }
{
    let t = Table { dist, size, value };
    let i = Table {
        dist: idist,
        size: isize,
        value: ivalue,
    };
    answer_of(every_old::map_old(t, &list, i, number))
}

// For every new row where it comes from.
pub fn plan_map_new(
    list: &[Record],
    dist: &[u32],
    size: &[u32],
    value: &[u32],
    idist: &[u32],
    isize: &[u32],
    ivalue: &[u32],
    records: &mut [u32],
    rows: &mut [u32],
) -> Answer
    ensures { let t = table dist.now size.now value.now in
        let i = table idist.now isize.now ivalue.now in
        let u = places records.old rows.old in
        NewDone true t i list.now u result (places records.new rows.new) }
{
    let t = Table { dist, size, value };
    let i = Table {
        dist: idist,
        size: isize,
        value: ivalue,
    };
    answer_of(every_new::map_new(t, &list, i, records, rows))
}
