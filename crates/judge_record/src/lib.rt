// One record of a list: what it asks of the table, its tests 4 to 8 behind the record before it, and what it does to
// the rows. What a kind doesn't use is not read.
#![tactic(auto)]

ghost use Rattle.std.specs.Prelude.{◌≡◌};
ghost use Rattle.plan.specs.declared.refusal.Fault.TheVariants.{Kind};
ghost use Rattle.plan.specs.Table.{read};
ghost use Rattle.plan.specs.Records.{known};
ghost use Rattle.judge_record.specs.Trial.{trial, Even, RunTested, RightTrial};

use crate::order::{test_alone, test_order};
use crate::place::test_location;
use crate::run::test_run;
use plan::lent::Table;
use plan::refusal::Fault;
use plan::{Place, Record};

pub mod order;
pub mod place;
pub mod run;
pub mod way;

// Test 4: the kind is one of the four.
#[tactic(auto, unfolding(plan::specs::Records::known))]
pub fn test_kind(r: Record) -> Result<(), Fault>
    ensures { result ≡ trial (known r) Kind }
{
    match r.kind {
        Record::DELETE..=Record::REPLACE => Ok(()),
        _ => Err(Fault::Kind),
    }
}

// Tests 4 to 8 of a record, in their order: the first that fails decides.
#[tactic(auto, unfolding(plan::specs::Records::failing))]
pub fn tried(place: Place, i: Table, before: Option<Record>, r: Record) -> Result<(), Fault>
    requires { Even (read i) × RunTested (read i) before }
    ensures { RightTrial place (read i.entry) before r result }
{
    test_kind(r)?;
    test_location(place, r)?;
    test_run(i, before, r)?;
    test_order(before, r)?;
    test_alone(before, r)
}
