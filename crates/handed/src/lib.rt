// The answers as C gets them: structs of plain numbers. Fields that have nothing to say are 0.
// Functions, and no `From`: that would have to stand in `plan`, which has the types; and two take a second argument.
#![tactic(auto)]

ghost use Rattle.std.specs.Prelude.{◌≡◌};
ghost use Rattle.plan.specs.Told.{reply_told, row_told, start_told, step_told, answer_told, became_told, was_told};
ghost use Rattle.plan.specs.Handed.{row_of, part_of, walk_of, step_of, became_of, was_of};

use plan::refusal::{Misfit, Refusal, RowRefusal};
use plan::{
    Answer, Child, NewPre, PlanBecame, PlanPart, PlanRow, PlanStep, PlanWalk, PlanWas, Source, Span,
};

// A call on a list or on a table.
pub fn answer_of(rows: Result<u64, Refusal>) -> Answer
    ensures { result ≡ answer_told rows }
{
    match rows {
        Ok(count) => Answer::accepted(count),
        Err(e) => Answer::from(e),
    }
}

// What a call on a row answers.
pub fn row_of(found: Result<Option<usize>, RowRefusal>) -> PlanRow
    ensures { result ≡ row_of (reply_told found) }
{
    match found {
        Ok(Some(row)) => PlanRow {
            some: 1,
            row: row as u64,
            ..PlanRow::default()
        },
        Ok(None) => PlanRow::default(),
        Err(e) => {
            let Answer { number, place, .. } = Answer::from(e);
            PlanRow {
                number,
                place,
                ..PlanRow::default()
            }
        }
    }
}

// The subtree of a row, as so many rows from that row on.
pub fn part_of(top: Result<usize, RowRefusal>, length: usize) -> PlanPart
    ensures { result ≡ part_of (row_told top) length }
{
    match top {
        Ok(row) => PlanPart {
            start: row as u64,
            length: length as u64,
            ..PlanPart::default()
        },
        Err(e) => {
            let Answer { number, place, .. } = Answer::from(e);
            PlanPart {
                number,
                place,
                ..PlanPart::default()
            }
        }
    }
}

// The start of a walk.
pub fn walk_of(start: Result<Span, RowRefusal>) -> PlanWalk
    ensures { result ≡ walk_of (start_told start) }
{
    match start {
        Ok(s) => PlanWalk {
            next: s.next as u64,
            end: s.end as u64,
            ..PlanWalk::default()
        },
        Err(e) => {
            let Answer { number, place, .. } = Answer::from(e);
            PlanWalk {
                number,
                place,
                ..PlanWalk::default()
            }
        }
    }
}

// A step at the candidate c: one that gives no child stays there.
pub fn step_of(step: Result<Option<Child>, Misfit>, c: u64) -> PlanStep
    ensures { result ≡ step_of (step_told step) c }
{
    match step {
        Ok(Some(child)) => PlanStep {
            some: 1,
            row: child.row as u64,
            next: child.next as u64,
            ..PlanStep::default()
        },
        Ok(None) => PlanStep {
            next: c,
            ..PlanStep::default()
        },
        Err(Misfit(candidate)) => PlanStep {
            number: 12,
            place: candidate as u64,
            next: c,
            ..PlanStep::default()
        },
    }
}

// What became of an old row: its new number, or it is gone.
pub fn became_of(became: Result<Option<NewPre>, Refusal>) -> PlanBecame
    ensures { result ≡ became_of (became_told became) }
{
    match became {
        Ok(Some(new)) => PlanBecame {
            row: new.0,
            ..PlanBecame::default()
        },
        Ok(None) => PlanBecame {
            gone: 1,
            ..PlanBecame::default()
        },
        Err(e) => {
            let Answer {
                number,
                place,
                count,
            } = Answer::from(e);
            PlanBecame {
                number,
                place,
                count,
                ..PlanBecame::default()
            }
        }
    }
}

// Which row a new one was: an old row, or a record and the row in its run.
pub fn was_of(was: Result<Source, Refusal>) -> PlanWas
    ensures { result ≡ was_of (was_told was) }
{
    match was {
        Ok(Source::Old(old)) => PlanWas {
            row: old.0,
            ..PlanWas::default()
        },
        Ok(Source::Run(k, i)) => PlanWas {
            inserted: 1,
            record: k,
            row: i,
            ..PlanWas::default()
        },
        Err(e) => {
            let Answer {
                number,
                place,
                count,
            } = Answer::from(e);
            PlanWas {
                number,
                place,
                count,
                ..PlanWas::default()
            }
        }
    }
}
