// The table: whether three lent columns are a tree's, what stands around a row, and the walk over a row's children.
// Every call takes any columns: sound or not, of equal length or not, with any numbers in them.
#![tactic(auto)]

ghost use Rattle.std.specs.Prelude.{◌≡◌};
ghost use Rattle.plan.specs.Table.{even, read};
ghost use Rattle.plan.specs.Call.{test};
ghost use Rattle.plan.specs.Told.{even_told};
ghost use Rattle.table.specs.Rows.{Rooted, Says};

use plan::Answer;
use plan::lent::Table;
use plan::refusal::Uneven;

pub mod axes;
pub mod climb;
pub mod sound;
pub mod walk;

// Test 1: three columns are equally long.
pub fn test_even(t: Table) -> Result<(), Uneven>
    ensures { even_told result ≡ test (even (read t.entry)) 1 0 0 }
{
    let n = t.size.len();
    if t.dist.len() != n || t.value.len() != n {
        return Err(Uneven);
    }
    Ok(())
}

// Are the columns equally long, with 1 to 65,535 rows, and is row 0 the root of them all? The values have
// no part in it.
fn rooted(dist: &[u32], size: &[u32]) -> bool
    ensures { Says result (Rooted dist.now size.now) }
{
    let n = size.len();
    dist.len() == n && n != 0 && n <= Answer::MOST_ROWS && dist[0] == 1 && size[0] as usize == n
}
