// The way along a list: what one record does to the rows, where the last record left them. Of the table and of the
// insertions only sizes count here, so that column is all that is taken.
ghost use Rattle.std.specs.Prelude.{◌≡◌, ◌<◌, T, length};
ghost use Rattle.plan.specs.Way.{has_run, removes_rows, vain, brought, old_pre, goes_on_at, meeting};
ghost use Rattle.judge_record.specs.Way.{EndsLow, Meets, behind};

use crate::run::has_run;
use plan::{Meeting, NewPre, OldPre, Record, Stand};

// Does it take rows away?
pub fn removes_rows(r: Record) -> bool
    ensures { result ≡ removes_rows r }
{
    r.kind == Record::DELETE || r.kind == Record::REPLACE
}

// Is it vain, where the old rows from first up to end are taken away: an insert under one of them, or another change of
// one but the first? A record's places are numbers, so the rows are compared by theirs.
fn is_vain(first: OldPre, end: OldPre, r: Record) -> bool
    ensures { result ≡ vain first.0 end.0 r }
{
    if r.kind == Record::INSERT {
        first.0 <= r.parent && r.parent < end.0
    } else {
        first.0 < r.location && r.location < end.0
    }
}

// How many rows its run has; none without a run.
pub fn run_rows(isize: &[u32], r: Record) -> u32
    requires { T (has_run r) → r.from < length isize.now }
    ensures { result ≡ brought isize.now r }
{
    if has_run(r) {
        isize[r.from as usize]
    } else {
        0
    }
}

// The old row at which the rows go on behind it.
pub fn row_behind(size: &[u32], r: Record) -> OldPre
    requires { EndsLow size.now r }
    ensures { result ≡ old_pre (goes_on_at size.now r) }
{
    let p = r.location;
    let rows = if removes_rows(r) { size[p as usize] } else { 0 };
    OldPre(p + rows)
}

// The next record, with so many rows that come and the old row at which the rows go on behind it.
pub fn meet(s: Stand, r: Record, end: OldPre, run: u32) -> Meeting
    requires { Meets s r run }
    ensures { result ≡ meeting s r end.0 run }
{
    if is_vain(s.first, s.end, r) {
        return Meeting::Vain;
    }
    if r.kind == Record::RENAME {
        return Meeting::Renamed(Stand {
            first: OldPre(0),
            end: OldPre(0),
            ..s
        });
    }
    let p = r.location;
    let (first, last) = if removes_rows(r) {
        (OldPre(p), end)
    } else {
        (OldPre(0), OldPre(0))
    };
    let next = Stand {
        row: end,
        out: NewPre(s.out.0 + (p - s.row.0) + run),
        first,
        end: last,
    };
    Meeting::Here(OldPre(p), run, next)
}

// Where the rows go on behind the record.
pub fn onward(s: Stand, r: Record, end: OldPre, run: u32) -> Stand
    requires { Meets s r run }
    ensures { result ≡ behind s (meeting s r end.0 run) }
{
    match meet(s, r, end, run) {
        Meeting::Vain => s,
        Meeting::Renamed(next) | Meeting::Here(_, _, next) => next,
    }
}
