// The soundness call, by the sum test: in linear time, with no stack and no array. The values are never read.
ghost use Rattle.std.specs.Prelude.{◌≡◌};
ghost use Rattle.plan.specs.Table.{read, sound as soundly};
ghost use Rattle.plan.specs.Axes.{soundness as soundness_of};
ghost use Rattle.plan.specs.Call.{test};
ghost use Rattle.plan.specs.Told.{verdict_told, answer_told};
ghost use Rattle.table.specs.Rows.{Rooted, Says};
ghost use Rattle.table.specs.Shape.{Shaped};

use crate::{rooted, test_even};
use plan::lent::Table;
use plan::refusal::Refusal;

// The sum test: each row fits into one before it, and distance times size add up to 1 + .. + n.
// Out of line its loop begins at a multiple of 16 bytes, and takes as long wherever the call is linked to
// (docs/BENCHMARKS.md).
#[inline(never)]
fn sums(dist: &[u32], size: &[u32]) -> bool
    requires { Rooted dist.now size.now }
    ensures { Says result (Shaped dist.now size.now) }
{
    let n = size.len();
    let mut sum = n;
    for r in 1..n as u32 {
        let d = dist[r as usize];
        if d == 0 || d > r {
            return false;
        }
        let s = size[r as usize];
        if s == 0 || d as u64 + s as u64 > size[(r - d) as usize] as u64 {
            return false;
        }
        sum += d as usize * s as usize;
    }
    sum == n * (n + 1) / 2
}

// Is it a sound table? Columns of different length are none.
pub fn is_sound(t: Table) -> bool
    ensures { result ≡ soundly (read t.entry) }
{
    test_even(t).is_ok() && rooted(t.dist, t.size) && sums(t.dist, t.size)
}

// Test 2: the table is sound.
pub fn test_sound(t: Table) -> Result<(), Refusal>
    ensures { verdict_told result ≡ test (soundly (read t.entry)) 2 0 0 }
{
    if is_sound(t) {
        Ok(())
    } else {
        Err(Refusal::Unsound)
    }
}

// The soundness call: tests 1 and 2; accepted it counts the rows.
#[tactic(auto, using(crate::proofs::Told::soundness_odd))]
pub fn soundness(t: Table) -> Result<u64, Refusal>
    ensures { answer_told result ≡ soundness_of (read t.entry) }
{
    test_even(t)?;
    test_sound(t)?;
    Ok(t.size.len() as u64)
}
