// What a record asks of the table, read from its columns in constant time; and test 5, which asks just that. It is the
// same whatever the values are, so these take distances and sizes, and no whole table.
ghost use Rattle.std.specs.Prelude.{◌≡◌, ◌<◌, length};
ghost use Rattle.plan.specs.Way.{old_pre, goes_on_at};
ghost use Rattle.table.specs.Shape.{Shaped};
ghost use Rattle.judge_record.specs.Trial.{quick_place, open_for, Faces, RightPlace};
ghost use Rattle.judge_record.specs.Way.{EndsLow};

use crate::way::row_behind;
use plan::refusal::Fault;
use plan::{OldPre, Place, Record};

// Is p an open place of row q, on a sound table: does q end there, or is row p a child of q?
fn open_place(dist: &[u32], size: &[u32], p: usize, q: usize) -> bool
    requires { (length dist.now ≡ length size.now) × (q < length size.now) }
    ensures { result ≡ quick_place dist.now size.now p q }
{
    p == q + size[q] as usize || p < size.len() && q + dist[p] as usize == p
}

// Is it an insert whose location is an open place of its parent?
fn is_open(dist: &[u32], size: &[u32], r: Record) -> bool
    requires { length dist.now ≡ length size.now }
    ensures { result ≡ open_for dist.now size.now r }
{
    let q = r.parent as usize;
    r.kind == Record::INSERT && q < size.len() && open_place(dist, size, r.location as usize, q)
}

// The old row at which the rows go on behind the record; where its location is no row, that is the location.
fn end_of(size: &[u32], r: Record) -> OldPre
    requires { r.location < length size.now → EndsLow size.now r }
    ensures { result ≡ old_pre (goes_on_at size.now r) }
{
    if (r.location as usize) < size.len() {
        row_behind(size, r)
    } else {
        OldPre(r.location)
    }
}

// What the record asks of the table.
#[tactic(auto, using(table::proofs::Parents::shape_lengths, crate::proofs::Places::faces_it))]
pub fn place_of(dist: &[u32], size: &[u32], r: Record) -> Place
    requires { Shaped dist.now size.now }
    ensures { Faces dist.now size.now r result }
{
    Place {
        rows: size.len() as u32,
        end: end_of(size, r),
        opens: is_open(dist, size, r),
    }
}

// Test 5: an insert's location is an open place of its parent; another's is a row, and row 0 can only be renamed.
#[tactic(auto, unfolding(plan::specs::Records::located, plan::specs::Way::place_of))]
pub fn test_location(place: Place, r: Record) -> Result<(), Fault>
    ensures { RightPlace place r result }
{
    let right = match r.kind {
        Record::INSERT => place.opens,
        Record::RENAME => r.location < place.rows,
        _ => 0 < r.location && r.location < place.rows,
    };
    if right { Ok(()) } else { Err(Fault::Location) }
}
