// The vocabulary of the plan library: row numbers of the old and of the new table, the record of a list, what it finds
// in the table and does to the rows, what tests say, the answer of a call.
#![tactic(auto)]

ghost use Rattle.std.specs.Prelude.{◌≡◌};
ghost use Rattle.plan.specs.Answer.{accepted, refused};
ghost use Rattle.plan.specs.Way.{start};

pub mod lent;
pub mod refusal;

// A row number of the table as it was. Nothing but a mapping turns it into a row number of the new table.
#[derive(Clone, Copy, PartialEq, Eq, PartialOrd, Ord)]
pub struct OldPre(pub u32);

// A row number of the table as it is after a list.
#[derive(Clone, Copy, PartialEq, Eq, PartialOrd, Ord)]
pub struct NewPre(pub u32);

impl NewPre {
    // stands in a column of new row numbers where the old row is gone: no row has it
    pub const GONE: u32 = u32::MAX;
}

// One record of a list. What a kind doesn't use is not read. The kind is a number, and no enum: C lays the record out,
// and any number may stand there.
#[repr(C)]
#[derive(Clone, Copy)]
pub struct Record {
    pub kind: u32,
    pub location: u32,
    pub parent: u32,
    pub from: u32,
    pub value: u32,
}

impl Record {
    // the row and its subtree go
    pub const DELETE: u32 = 1;
    // a run becomes a child of parent, at location
    pub const INSERT: u32 = 2;
    // the row's value is replaced
    pub const RENAME: u32 = 3;
    // the subtree goes and a run takes its place under the same parent
    pub const REPLACE: u32 = 4;
    // how many records a list may have
    pub const MOST: usize = 1024;
    // stands in a column of record numbers where the new row was an old one: no record has it
    pub const NONE: u32 = u32::MAX;
}

// What the tests and the count of a record ask of the table: how many rows it has, at which old row the rows go on
// behind the record, and whether the location is an open place of the parent.
#[derive(Clone, Copy)]
pub struct Place {
    pub rows: u32,
    pub end: OldPre,
    pub opens: bool,
}

// Where a way along a list stands: the old rows go on at row, as new rows from out on. The last record took away the
// old rows from first up to end.
#[derive(Clone, Copy)]
pub struct Stand {
    pub row: OldPre,
    pub out: NewPre,
    pub first: OldPre,
    pub end: OldPre,
}

impl Stand {
    // At the first row of both tables.
    pub fn start() -> Stand
        ensures { result ≡ start }
    {
        Stand {
            row: OldPre(0),
            out: NewPre(0),
            first: OldPre(0),
            end: OldPre(0),
        }
    }
}

// What a record does to the rows: it is vain; it renames its row; or the old rows up to this one stay, so many rows
// come behind them, and then the old rows go on.
#[derive(Clone, Copy)]
pub enum Meeting {
    Vain,
    Renamed(Stand),
    Here(OldPre, u32, Stand),
}

// Which row a new one was: an old row, or a record and the row in its run.
#[derive(Clone, Copy)]
pub enum Source {
    Old(OldPre),
    Run(u32, u32),
}

// Where a walk over children starts: the row itself, the first candidate and the end.
#[derive(Clone, Copy)]
pub struct Span {
    pub top: usize,
    pub next: usize,
    pub end: usize,
}

// A step's child, and the next candidate.
#[derive(Clone, Copy)]
pub struct Child {
    pub row: usize,
    pub next: usize,
}

// What a call hands back: 0 or the number of the test that failed, the place at fault, and a count.
#[repr(C)]
#[derive(Clone, Copy)]
pub struct Answer {
    pub number: u32,
    pub place: u32,
    pub count: u64,
}

impl Answer {
    // how many rows a table may have
    pub const MOST_ROWS: usize = 65535;

    // The call is accepted.
    pub fn accepted(count: u64) -> Answer
        ensures { result ≡ accepted count }
    {
        Answer {
            number: 0,
            place: 0,
            count,
        }
    }

    // The call is refused, and nothing is written.
    pub fn refused(number: u32, place: u32, count: u64) -> Answer
        ensures { result ≡ refused number place count }
    {
        Answer {
            number,
            place,
            count,
        }
    }
}

// `plan_row`: a row, or none.
#[repr(C)]
#[derive(Clone, Copy, Default)]
pub struct PlanRow {
    pub number: u32,
    pub place: u32,
    pub some: u32,
    pub row: u64,
}

// `plan_part`: the part of the columns that one subtree takes.
#[repr(C)]
#[derive(Clone, Copy, Default)]
pub struct PlanPart {
    pub number: u32,
    pub place: u32,
    pub start: u64,
    pub length: u64,
}

// `plan_walk`: the next candidate of a child walk, and its end.
#[repr(C)]
#[derive(Clone, Copy, Default)]
pub struct PlanWalk {
    pub number: u32,
    pub place: u32,
    pub next: u64,
    pub end: u64,
}

// `plan_step`: a child, or none, and where the next step goes on.
#[repr(C)]
#[derive(Clone, Copy, Default)]
pub struct PlanStep {
    pub number: u32,
    pub place: u64,
    pub some: u32,
    pub row: u64,
    pub next: u64,
}

// `plan_became`: what became of an old row.
#[repr(C)]
#[derive(Clone, Copy, Default)]
pub struct PlanBecame {
    pub number: u32,
    pub place: u32,
    pub count: u64,
    pub gone: u32,
    pub row: u32,
}

// `plan_was`: which row a new row was.
#[repr(C)]
#[derive(Clone, Copy, Default)]
pub struct PlanWas {
    pub number: u32,
    pub place: u32,
    pub count: u64,
    pub inserted: u32,
    pub record: u32,
    pub row: u32,
}
