// The axes: what stands around one row. They read raw columns, and answer for unsound tables too.
ghost use Rattle.std.specs.Prelude.{◌≡◌};
ghost use Rattle.plan.specs.Table.{table, read};
ghost use Rattle.plan.specs.Axes.{parent as parent_of, first_child, next_sibling, subtree_top, subtree as values_of};
ghost use Rattle.plan.specs.Axes.{asked_row};
ghost use Rattle.plan.specs.Told.{reply_told, row_told};

use crate::test_even;
use plan::lent::Table;
use plan::refusal::RowRefusal;

// Tests 1 and 11: the row asked about.
fn asked(t: Table, r: u32) -> Result<usize, RowRefusal>
    ensures { row_told result ≡ asked_row (read t.entry) r }
{
    test_even(t)?;
    let x = r as usize;
    if x >= t.size.len() {
        return Err(RowRefusal::NoSuchRow(r));
    }
    Ok(x)
}

// The parent of row r: none for row 0.
#[tactic(auto, using(crate::proofs::Told::asked_within))]
pub fn parent(t: Table, r: u32) -> Result<Option<usize>, RowRefusal>
    ensures { reply_told result ≡ parent_of (read t.entry) r }
{
    let x = asked(t, r)?;
    if x == 0 {
        return Ok(None);
    }
    let d = t.dist[x] as usize;
    if d == 0 || d > x {
        return Err(RowRefusal::Broken(r));
    }
    Ok(Some(x - d))
}

// The row r itself, where its subtree lies in the table: the answer that goes with the part that `subtree` hands back.
#[tactic(auto, using(crate::proofs::Told::asked_within))]
pub fn subtree_top(t: Table, r: u32) -> Result<usize, RowRefusal>
    ensures { row_told result ≡ subtree_top (read t.entry) r }
{
    let x = asked(t, r)?;
    let s = t.size[x] as usize;
    if s == 0 || s > t.size.len() - x {
        return Err(RowRefusal::Broken(r));
    }
    Ok(x)
}

// The first child of row r.
#[tactic(auto, using(crate::proofs::Told::top_within))]
pub fn first_child(t: Table, r: u32) -> Result<Option<usize>, RowRefusal>
    ensures { reply_told result ≡ first_child (read t.entry) r }
{
    let x = subtree_top(t, r)?;
    if t.size[x] < 2 {
        return Ok(None);
    }
    Ok(Some(x + 1))
}

// The next sibling of row r: none for row 0, without reading further.
pub fn next_sibling(t: Table, r: u32) -> Result<Option<usize>, RowRefusal>
    ensures { reply_told result ≡ next_sibling (read t.entry) r }
{
    let Some(q) = parent(t, r)? else {
        return Ok(None);
    };
    let x = r as usize;
    let s = t.size[x] as usize;
    let b = x + s;
    let e = q + t.size[q] as usize;
    if s == 0 || e > t.size.len() || b > e {
        return Err(RowRefusal::Broken(r));
    }
    if b == e {
        return Ok(None);
    }
    Ok(Some(b))
}

// The values of the subtree of row r, as that part of the lent column itself; the empty part where refused. Three
// columns and no Table: only the values have to live as long as the part.
#[tactic(auto, using(crate::proofs::Told::top_within))]
pub fn subtree<'a>(dist: &[u32], size: &[u32], value: &'a [u32], r: u32) -> &'a [u32]
    ensures { result.now ≡ values_of (table dist.now size.now value.now) r }
{
    let t = Table { dist, size, value };
    let Ok(x) = subtree_top(t, r) else {
        return &value[..0];
    };
    let e = x + size[x] as usize;
    &value[x..e]
}
