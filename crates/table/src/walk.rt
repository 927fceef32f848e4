// The walk over a row's children: where it starts, and its step, over a size column, a candidate and an end.
ghost use Rattle.std.specs.Prelude.{◌≡◌};
ghost use Rattle.plan.specs.Table.{read};
ghost use Rattle.plan.specs.Axes.{walk_start, step as step_at};
ghost use Rattle.plan.specs.Told.{start_told, step_told};

use crate::axes::subtree_top;
use plan::lent::Table;
use plan::refusal::{Misfit, RowRefusal};
use plan::{Child, Span};

// The walk over the children of row r, at its start.
#[tactic(auto, using(crate::proofs::Told::top_within, crate::proofs::Told::start_handed))]
pub fn start_walk(t: Table, r: u32) -> Result<Span, RowRefusal>
    ensures { start_told result ≡ walk_start (read t.entry) r }
{
    let top = subtree_top(t, r)?;
    Ok(Span {
        top,
        next: top + 1,
        end: top + t.size[top] as usize,
    })
}

// The step at a candidate: it gives the candidate and moves to the row after its subtree, or stays.
pub fn step(size: &[u32], next: usize, end: usize) -> Result<Option<Child>, Misfit>
    ensures { step_told result ≡ step_at size.now next end }
{
    if next == end {
        return Ok(None);
    }
    if next >= size.len() || next > end {
        return Err(Misfit(next));
    }
    let s = size[next] as usize;
    if s == 0 || s > end - next {
        return Err(Misfit(next));
    }
    Ok(Some(Child {
        row: next,
        next: next + s,
    }))
}
