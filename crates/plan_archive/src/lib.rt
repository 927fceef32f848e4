// The archive for C and for Rust: each call of `plan_c` under its name in `include/plan.h`, with its own clauses.
#![tactic(auto)]

ghost use Rattle.std.specs.Prelude.{◌≡◌, true, [], ◌∷◌, length};
ghost use Rattle.plan.specs.Tree.{count};
ghost use Rattle.plan.specs.Table.{table};
ghost use Rattle.plan.specs.Paint.{origins};
ghost use Rattle.plan.specs.Call.{result as result_of};
ghost use Rattle.plan.specs.Mapping.{fate, origin_at, queried};
ghost use Rattle.plan.specs.Mapping.{became, was};
ghost use Rattle.plan.specs.Mapping.{places, OldDone, NewDone};
ghost use Rattle.plan.specs.Axes.{soundness as soundness_of, parent as parent_of, first_child, next_sibling, subtree_top, subtree as values_of, walk_start, step as step_at};
ghost use Rattle.plan.specs.Call.{Done};
ghost use Rattle.plan.specs.Handed.{row_of, part_of, walk_of, step_of, became_of, was_of};

use plan::{Answer, PlanBecame, PlanPart, PlanRow, PlanStep, PlanWalk, PlanWas, Record};

// Is the table sound?
#[unsafe(no_mangle)]
pub extern "C" fn plan_soundness(dist: &[u32], size: &[u32], value: &[u32]) -> Answer
    ensures { result ≡ soundness_of (table dist.now size.now value.now) }
{
    plan_c::plan_soundness(dist, size, value)
}

// The parent of a row; none for row 0.
#[unsafe(no_mangle)]
pub extern "C" fn plan_parent(dist: &[u32], size: &[u32], value: &[u32], row: u32) -> PlanRow
    ensures { let t = table dist.now size.now value.now in
        result ≡ row_of (parent_of t row) }
{
    plan_c::plan_parent(dist, size, value, row)
}

// The first child of a row, or none.
#[unsafe(no_mangle)]
pub extern "C" fn plan_first_child(dist: &[u32], size: &[u32], value: &[u32], row: u32) -> PlanRow
    ensures { let t = table dist.now size.now value.now in
        result ≡ row_of (first_child t row) }
{
    plan_c::plan_first_child(dist, size, value, row)
}

// The next sibling of a row, or none.
#[unsafe(no_mangle)]
pub extern "C" fn plan_next_sibling(dist: &[u32], size: &[u32], value: &[u32], row: u32) -> PlanRow
    ensures { let t = table dist.now size.now value.now in
        result ≡ row_of (next_sibling t row) }
{
    plan_c::plan_next_sibling(dist, size, value, row)
}

// The rows of one subtree: where that part of the columns starts, and how long it is.
#[unsafe(no_mangle)]
pub extern "C" fn plan_subtree(dist: &[u32], size: &[u32], value: &[u32], row: u32) -> PlanPart
    ensures { let t = table dist.now size.now value.now in
        result ≡ part_of (subtree_top t row) (length (values_of t row)) }
{
    plan_c::plan_subtree(dist, size, value, row)
}

// A walk over the children of a row, at its start.
#[unsafe(no_mangle)]
pub extern "C" fn plan_children(dist: &[u32], size: &[u32], value: &[u32], row: u32) -> PlanWalk
    ensures { let t = table dist.now size.now value.now in
        result ≡ walk_of (walk_start t row) }
{
    plan_c::plan_children(dist, size, value, row)
}

// One step of a child walk over the size column.
#[unsafe(no_mangle)]
pub extern "C" fn plan_child(size: &[u32], next: u64, end: u64) -> PlanStep
    ensures { result ≡ step_of (step_at size.now next end) next }
{
    plan_c::plan_child(size, next, end)
}

// One record applied, judged as a list of one.
#[unsafe(no_mangle)]
pub extern "C" fn plan_single(
    change: Record,
    dist: &[u32],
    size: &[u32],
    value: &[u32],
    idist: &[u32],
    isize: &[u32],
    ivalue: &[u32],
    ndist: &mut [u32],
    nsize: &mut [u32],
    nvalue: &mut [u32],
) -> Answer
    ensures { let t = table dist.now size.now value.now in
        let i = table idist.now isize.now ivalue.now in
        let u = table ndist.old nsize.old nvalue.old in
        let w = table ndist.new nsize.new nvalue.new in
        Done true t i (change ∷ []) u result w }
{
    plan_c::plan_single(
        change, dist, size, value, idist, isize, ivalue, ndist, nsize, nvalue,
    )
}

// A list of records applied in one pass.
#[unsafe(no_mangle)]
pub extern "C" fn plan_bulk(
    list: &[Record],
    dist: &[u32],
    size: &[u32],
    value: &[u32],
    idist: &[u32],
    isize: &[u32],
    ivalue: &[u32],
    ndist: &mut [u32],
    nsize: &mut [u32],
    nvalue: &mut [u32],
) -> Answer
    ensures { let t = table dist.now size.now value.now in
        let i = table idist.now isize.now ivalue.now in
        let u = table ndist.old nsize.old nvalue.old in
        let w = table ndist.new nsize.new nvalue.new in
        Done true t i list.now u result w }
{
    plan_c::plan_bulk(
        list, dist, size, value, idist, isize, ivalue, ndist, nsize, nvalue,
    )
}

// What a list makes of an old row.
#[unsafe(no_mangle)]
pub extern "C" fn plan_old_to_new(
    list: &[Record],
    dist: &[u32],
    size: &[u32],
    value: &[u32],
    idist: &[u32],
    isize: &[u32],
    ivalue: &[u32],
    row: u32,
) -> PlanBecame
    ensures { let t = table dist.now size.now value.now in
        let i = table idist.now isize.now ivalue.now in
        let v = queried true t i list.now (length t.size) row in
        result ≡ became_of (became v (fate (origins (result_of t i list.now)) 0 row)) }
{
    plan_c::plan_old_to_new(list, dist, size, value, idist, isize, ivalue, row)
}

// Which row a new row was.
#[unsafe(no_mangle)]
pub extern "C" fn plan_new_to_old(
    list: &[Record],
    dist: &[u32],
    size: &[u32],
    value: &[u32],
    idist: &[u32],
    isize: &[u32],
    ivalue: &[u32],
    row: u32,
) -> PlanWas
    ensures { let t = table dist.now size.now value.now in
        let i = table idist.now isize.now ivalue.now in
        let f = result_of t i list.now in
        let v = queried true t i list.now (count f) row in
        result ≡ was_of (was v (origin_at (origins f) row)) }
{
    plan_c::plan_new_to_old(list, dist, size, value, idist, isize, ivalue, row)
}

// For every old row its new number, or that it is gone.
#[unsafe(no_mangle)]
pub extern "C" fn plan_map_old(
    list: &[Record],
    dist: &[u32],
    size: &[u32],
    value: &[u32],
    idist: &[u32],
    isize: &[u32],
    ivalue: &[u32],
    number: &mut [u32],
) -> Answer
    ensures { let t = table dist.now size.now value.now in
        let i = table idist.now isize.now ivalue.now in
        OldDone true t i list.now number.old result number.new }
{
    plan_c::plan_map_old(list, dist, size, value, idist, isize, ivalue, number)
}

// For every new row where it comes from.
#[unsafe(no_mangle)]
pub extern "C" fn plan_map_new(
    list: &[Record],
    dist: &[u32],
    size: &[u32],
    value: &[u32],
    idist: &[u32],
    isize: &[u32],
    ivalue: &[u32],
    records: &mut [u32],
    rows: &mut [u32],
) -> Answer
    ensures { let t = table dist.now size.now value.now in
        let i = table idist.now isize.now ivalue.now in
        let u = places records.old rows.old in
        NewDone true t i list.now u result (places records.new rows.new) }
{
    plan_c::plan_map_new(list, dist, size, value, idist, isize, ivalue, records, rows)
}
