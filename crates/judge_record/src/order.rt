// Tests 7 and 8: the order of two records.
ghost use Rattle.std.specs.Prelude.{◌≡◌};
ghost use Rattle.plan.specs.declared.refusal.Fault.TheVariants.{Order, Alone};
ghost use Rattle.plan.specs.Records.{follows, alone};
ghost use Rattle.judge_record.specs.Trial.{trial};

use plan::Record;
use plan::refusal::Fault;

// Test 7: the location is past the one before; or the same, and an insert follows an insert with no smaller parent.
#[tactic(auto, unfolding(plan::specs::Records::follows))]
pub fn test_order(before: Option<Record>, r: Record) -> Result<(), Fault>
    ensures { result ≡ trial (follows before r) Order }
{
    let Some(p) = before else {
        return Ok(());
    };
    let fits = r.kind != Record::INSERT || p.kind == Record::INSERT && r.parent <= p.parent;
    if p.location < r.location || p.location == r.location && fits {
        Ok(())
    } else {
        Err(Fault::Order)
    }
}

// Test 8: of two records at one location, one is an insert.
#[tactic(auto, unfolding(plan::specs::Records::alone))]
pub fn test_alone(before: Option<Record>, r: Record) -> Result<(), Fault>
    ensures { result ≡ trial (alone before r) Alone }
{
    let Some(p) = before else {
        return Ok(());
    };
    let apart = p.location != r.location;
    if apart || p.kind == Record::INSERT || r.kind == Record::INSERT {
        Ok(())
    } else {
        Err(Fault::Alone)
    }
}
