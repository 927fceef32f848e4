// The climb: the check of a table's shape row by row, which knows the first bad row. The values have no part in it, so
// it takes the two columns that it reads.
ghost use Rattle.std.specs.Prelude.{◌≡◌, ◌+◌, ◌<◌, length};
ghost use Rattle.plan.specs.Axes.{cell};
ghost use Rattle.table.specs.Rows.{Ready, Inner, Fine, Rooted, Says};
ghost use Rattle.table.specs.Shape.{Right};

use crate::rooted;

// The row after the last of those in row x.
fn end(size: &[u32], x: usize) -> usize
    requires { x < length size.now }
    ensures { result ≡ x + cell size.now x }
{
    x + size[x] as usize
}

// The parent of row r, from a row that does not end before r: up, as long as the row ends at r. Each turn goes to the
// parent, and no index is counted.
fn up(dist: &[u32], size: &[u32], r: usize, start: usize) -> usize
    requires { Ready dist.now size.now r start }
    ensures { Inner (cell size.now) r result }
{
    let mut x = start;
    while end(size, x) == r {
        x = x - dist[x] as usize;
    }
    x
}

// Is row r's distance that to x, and do its rows fit into those of x?
fn fits(dist: &[u32], size: &[u32], r: usize, x: usize) -> bool
    requires { (length dist.now ≡ length size.now) × (r < length size.now) × (x < r) }
    ensures { Says result (Fine (cell size.now) (cell dist.now) r x) }
{
    dist[r] as usize == r - x && size[r] != 0 && end(size, r) <= end(size, x)
}

// The check of every row but the root's.
fn rows(dist: &[u32], size: &[u32]) -> Option<usize>
    requires { Rooted dist.now size.now }
    ensures { Right result dist.now size.now }
{
    let mut x = 0;
    for r in 1..size.len() {
        x = up(dist, size, r, x);
        if !fits(dist, size, r, x) {
            return Some(r);
        }
        x = r;
    }
    None
}

// The first row at which no sound table goes on; row 0 also where the lengths are wrong.
pub fn first_bad(dist: &[u32], size: &[u32]) -> Option<usize>
    ensures { Right result dist.now size.now }
{
    if rooted(dist, size) {
        rows(dist, size)
    } else {
        Some(0)
    }
}
