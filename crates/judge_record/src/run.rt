// Test 6: the run of a record among the insertions.
ghost use Rattle.std.specs.Prelude.{◌≡◌, ◌||◌};
ghost use Rattle.plan.specs.declared.refusal.Fault.TheVariants.{Run as BadRun};
ghost use Rattle.plan.specs.Table.{read};
ghost use Rattle.plan.specs.Records.{is_insert, is_replace, runs};
ghost use Rattle.judge_record.specs.Trial.{trial, run_at, same_run, Even, RunTested};

use plan::Record;
use plan::lent::Table;
use plan::refusal::Fault;
use table::sound::is_sound;

// Does it bring a run?
pub fn has_run(r: Record) -> bool
    ensures { result ≡ (is_insert r || is_replace r) }
{
    r.kind == Record::INSERT || r.kind == Record::REPLACE
}

// Is there a run at row f: does it start and end within the insertions, and is it sound by itself?
#[tactic(auto, unfolding(plan::specs::Table::run))]
fn run_at(i: Table, f: usize) -> bool
    requires { Even (read i) }
    ensures { result ≡ run_at (read i.entry) f }
{
    if f >= i.size.len() {
        return false;
    }
    let e = f + i.size[f] as usize;
    if e > i.size.len() {
        return false;
    }
    is_sound(Table {
        dist: &i.dist[f..e],
        size: &i.size[f..e],
        value: &i.value[f..e],
    })
}

// Does the record before bring the same run? Then it is tested already.
fn is_tested(before: Option<Record>, r: Record) -> bool
    ensures { result ≡ same_run before r }
{
    before.is_some_and(|p| has_run(p) && p.from == r.from)
}

// Test 6: an insert or a replace has a run.
#[tactic(auto, unfolding(plan::specs::Records::runs))]
pub fn test_run(i: Table, before: Option<Record>, r: Record) -> Result<(), Fault>
    requires { Even (read i) × RunTested (read i) before }
    ensures { result ≡ trial (runs (read i.entry) r) BadRun }
{
    if !has_run(r) || is_tested(before, r) || run_at(i, r.from as usize) {
        Ok(())
    } else {
        Err(Fault::Run)
    }
}
