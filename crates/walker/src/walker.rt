// A walker over a row's children: it holds the lent size column, the next candidate and the end.
ghost use Rattle.walker.specs.Walkers.{Starts, Steps};

use plan::Child;
use plan::lent::Table;
use plan::refusal::{Misfit, RowRefusal};
use table::walk::{start_walk, step};

// A walk on one table: the size column that it was lent, the next candidate and the end.
#[derive(Clone, Copy)]
pub struct Walker<'a> {
    pub size: &'a [u32],
    pub next: usize,
    pub end: usize,
}

// A walk that has started: what its tests answer, and the walker. A struct of the two and no Result: the walker of a
// refused start is one too, and stands at its end.
#[derive(Clone, Copy)]
pub struct Started<'a> {
    pub answer: Result<usize, RowRefusal>,
    pub walker: Walker<'a>,
}

impl<'a> Walker<'a> {
    // The walk over the children of row r, at its start. Three columns and no Table: only the sizes have to live as
    // long as the walker.
    pub fn new(dist: &[u32], size: &'a [u32], value: &[u32], r: u32) -> Started<'a>
        ensures { Starts result dist.now size.entry value.now r }
    {
        match start_walk(Table { dist, size, value }, r) {
            Ok(span) => Started {
                answer: Ok(span.top),
                walker: Walker {
                    size,
                    next: span.next,
                    end: span.end,
                },
            },
            Err(e) => Started {
                answer: Err(e),
                walker: Walker {
                    size,
                    next: 0,
                    end: 0,
                },
            },
        }
    }

    // The next child, none, or the refusal of a candidate; the walker moves past a child and otherwise stays.
    pub fn step(&mut self) -> Result<Option<Child>, Misfit>
        ensures { Steps result self.old self.new }
    {
        let Some(child) = step(self.size, self.next, self.end)? else {
            return Ok(None);
        };
        self.next = child.next;
        Ok(Some(child))
    }
}
