// The next record on the way along a list, read from the two columns of sizes.
ghost use Rattle.std.specs.Prelude.{◌≡◌};
ghost use Rattle.along.specs.Met.{Meetable, met as met_of};

use judge_record::way::{meet, row_behind, run_rows};
use plan::lent::Table;
use plan::{Meeting, Record, Stand};

// What it does to the rows of the table, where its run is one of the insertions.
pub fn met(s: Stand, r: Record, t: Table, i: Table) -> Meeting
    requires { Meetable t.size.now i.size.now s r }
    ensures { result ≡ met_of t.entry.size.now i.entry.size.now s r }
{
    meet(s, r, row_behind(t.size, r), run_rows(i.size, r))
}
