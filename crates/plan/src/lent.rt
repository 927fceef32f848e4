// What callers lend: the columns of a table, and a list of changes.
ghost use Rattle.std.specs.Prelude.{◌≡◌, ◌∷◌, ◌<◌, List, suc, drop, length};
ghost use Rattle.plan.specs.declared.Record.{Record};

use crate::Record;

// Three columns, side by side. They can be anyone's: of unequal length, with any numbers in them.
#[derive(Clone, Copy)]
pub struct Table<'a> {
    pub dist: &'a [u32],
    pub size: &'a [u32],
    pub value: &'a [u32],
}

// A list of changes as five columns, side by side.
#[derive(Clone, Copy)]
pub struct Changes<'a> {
    pub kind: &'a [u32],
    pub location: &'a [u32],
    pub parent: &'a [u32],
    pub from: &'a [u32],
    pub value: &'a [u32],
}

// A list of records, however it is lent.
pub trait Records {
    ghost list: { Self → List Record };

    // How many there are.
    fn len(&self) -> usize
        ensures { result ≡ length (list self.now) };

    // Record j.
    fn record(&self, j: usize) -> Record
        requires { j < length (list self.now) }
        ensures { drop j (list self.now) ≡ result ∷ drop (suc j) (list self.now) };
}

impl Records for &[Record] {
    ghost list = { λ l. l.now };

    fn len(&self) -> usize {
        (*self).len()
    }

    fn record(&self, j: usize) -> Record {
        self[j]
    }
}
