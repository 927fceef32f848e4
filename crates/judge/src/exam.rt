// The exam of a list: tests 1 to 3 before its first record, tests 4 to 8 of one record after another, test 9 behind the
// last. Nothing is written, and no array is kept.
ghost use Rattle.std.specs.Prelude.{◌≡◌, ◌&&◌, leb};
ghost use Rattle.plan.specs.Table.{read, even, most_rows};
ghost use Rattle.plan.specs.Call.{test, judgement, published_of, most_records};
ghost use Rattle.plan.specs.Told.{verdict_told, judgement_told};
ghost use Rattle.judge.specs.Judgement.{first_tests};

use judge_record::place::place_of;
use judge_record::tried;
use judge_record::way::{onward, run_rows};
use plan::lent::{Records, Table};
use plan::refusal::Refusal;
use plan::{Answer, Record, Stand};
use table::sound::test_sound;
use table::test_even;

// Test 3: the list has at most 1,024 records.
fn test_length(n: usize) -> Result<(), Refusal>
    ensures { verdict_told result ≡ test (leb n most_records) 3 0 0 }
{
    if n > Record::MOST {
        return Err(Refusal::TooManyRecords);
    }
    Ok(())
}

// Tests 1 to 3, in their order, of a list of n records.
fn first_tests(t: Table, i: Table, n: usize) -> Result<(), Refusal>
    ensures { verdict_told result ≡ first_tests (read t.entry) (read i.entry) n }
{
    test_even(t)?;
    test_even(i)?;
    test_sound(t)?;
    test_length(n)
}

// Test 9: the result has at most 65,535 rows.
fn test_rows(n: usize) -> Result<u64, Refusal>
    ensures { judgement_told result ≡ judgement (test (leb n most_rows) 9 0 n) n }
{
    if n > Answer::MOST_ROWS {
        return Err(Refusal::TooManyRows(n as u64));
    }
    Ok(n as u64)
}

// Tests 1 to 9, and the rows needed: those up to where the last record leaves the rows, and the old rows that are left.
pub fn judged<L: Records>(t: Table, l: &L, i: Table) -> Result<u64, Refusal>
    ensures { let t' = read t.entry in
        let i' = read i.entry in
        judgement_told result ≡ published_of (even t' && even i') t' i' (L.list l.now) }
{
    first_tests(t, i, l.len())?;
    let mut before = None;
    let mut stand = Stand::start();
    for j in 0..l.len() {
        let r = l.record(j);
        let place = place_of(t.dist, t.size, r);
        // with `map_err` the proof would have to name what the closure captures
        if let Err(fault) = tried(place, i, before, r) {
            return Err(Refusal::BadRecord(fault, j as u32));
        }
        stand = onward(stand, r, place.end, run_rows(i.size, r));
        before = Some(r);
    }
    test_rows(stand.out.0 as usize + (t.size.len() - stand.row.0 as usize))
}
