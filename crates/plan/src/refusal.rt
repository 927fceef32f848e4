// Why a call is refused. Each published test has a name here; its number is what C is told.
ghost use Rattle.std.specs.Prelude.{◌≡◌};
ghost use Rattle.plan.specs.declared.refusal.Refusal.TheVariants.{Uneven as UnevenList};
ghost use Rattle.plan.specs.declared.refusal.RowRefusal.TheVariants.{Uneven as UnevenTable};
ghost use Rattle.plan.specs.Told.{refused_answer, row_answer};

use crate::Answer;
use std::fmt;

// Test 1: columns that belong together differ in length.
#[derive(Clone, Copy, PartialEq, Eq)]
pub struct Uneven;

// What is wrong with a record: tests 4 to 8.
#[derive(Clone, Copy, PartialEq, Eq)]
pub enum Fault {
    // 4: the kind is none of the four
    Kind,
    // 5: the location is no place for it
    Location,
    // 6: its run is none
    Run,
    // 7: it stands in the wrong order
    Order,
    // 8: another change stands at its location
    Alone,
}

// Why a call on a list, or the soundness call, is refused.
#[derive(Clone, Copy, PartialEq, Eq)]
pub enum Refusal {
    // 1: columns that belong together differ in length
    Uneven,
    // 2: the columns are no tree's table
    Unsound,
    // 3: the list is too long
    TooManyRecords,
    // 4 to 8: this record is wrong
    BadRecord(Fault, u32),
    // 9: the new table would have so many rows
    TooManyRows(u64),
    // 10: so many rows are needed, and the lent columns have fewer
    NoRoom(u64),
    // 11: no table has this row
    NoSuchRow(u32),
}

// Why a call on one row is refused.
#[derive(Clone, Copy, PartialEq, Eq)]
pub enum RowRefusal {
    // 1: columns that belong together differ in length
    Uneven,
    // 11: the table has no such row
    NoSuchRow(u32),
    // 12: what stands in this row leads out of the table
    Broken(u32),
}

// Why a step of a walk is refused, 12: the candidate does not fit.
#[derive(Clone, Copy, PartialEq, Eq)]
pub struct Misfit(pub usize);

impl From<Uneven> for Refusal {
    ghost from_gives = { λ _ e. e ≡ UnevenList };

    fn from(_: Uneven) -> Refusal {
        Refusal::Uneven
    }
}

impl From<Uneven> for RowRefusal {
    ghost from_gives = { λ _ e. e ≡ UnevenTable };

    fn from(_: Uneven) -> RowRefusal {
        RowRefusal::Uneven
    }
}

impl From<Refusal> for Answer {
    ghost from_gives = { λ e a. a ≡ refused_answer e };

    fn from(e: Refusal) -> Answer {
        match e {
            Refusal::Uneven => Answer::refused(1, 0, 0),
            Refusal::Unsound => Answer::refused(2, 0, 0),
            Refusal::TooManyRecords => Answer::refused(3, 0, 0),
            Refusal::BadRecord(Fault::Kind, j) => Answer::refused(4, j, 0),
            Refusal::BadRecord(Fault::Location, j) => Answer::refused(5, j, 0),
            Refusal::BadRecord(Fault::Run, j) => Answer::refused(6, j, 0),
            Refusal::BadRecord(Fault::Order, j) => Answer::refused(7, j, 0),
            Refusal::BadRecord(Fault::Alone, j) => Answer::refused(8, j, 0),
            Refusal::TooManyRows(rows) => Answer::refused(9, 0, rows),
            Refusal::NoRoom(rows) => Answer::refused(10, 0, rows),
            Refusal::NoSuchRow(row) => Answer::refused(11, row, 0),
        }
    }
}

impl From<RowRefusal> for Answer {
    ghost from_gives = { λ e a. a ≡ row_answer e };

    fn from(e: RowRefusal) -> Answer {
        match e {
            RowRefusal::Uneven => Answer::refused(1, 0, 0),
            RowRefusal::NoSuchRow(row) => Answer::refused(11, row, 0),
            RowRefusal::Broken(row) => Answer::refused(12, row, 0),
        }
    }
}

impl fmt::Display for Refusal {
    fn fmt<W: fmt::Write>(&self, f: &mut fmt::Formatter<W>) -> fmt::Result {
        let a = Answer::from(*self);
        write!(
            f,
            "refused {}, place {}, count {}",
            a.number, a.place, a.count
        )
    }
}

impl fmt::Display for RowRefusal {
    fn fmt<W: fmt::Write>(&self, f: &mut fmt::Formatter<W>) -> fmt::Result {
        let a = Answer::from(*self);
        write!(f, "refused {}, place {}", a.number, a.place)
    }
}

impl fmt::Display for Misfit {
    fn fmt<W: fmt::Write>(&self, f: &mut fmt::Formatter<W>) -> fmt::Result {
        write!(f, "refused 12, place {}", self.0)
    }
}
