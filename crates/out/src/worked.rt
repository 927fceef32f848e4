// The worked plan: the table T, the insertions, and its lists.
use plan::lent::{Changes, Table};
use plan::Record;

pub const TABLE: Table<'static> = Table {
    dist: &[1, 1, 1, 2, 4, 1, 6],
    size: &[7, 3, 1, 1, 2, 1, 1],
    value: &[10, 20, 30, 31, 21, 32, 40],
};

pub const INSERTIONS: Table<'static> = Table {
    dist: &[1, 1, 1],
    size: &[2, 1, 1],
    value: &[50, 51, 60],
};

pub const A: Changes<'static> = Changes {
    kind: &[Record::INSERT, Record::DELETE, Record::INSERT],
    location: &[2, 4, 6],
    parent: &[1, 0, 0],
    from: &[2, 0, 0],
    value: &[0, 0, 0],
};

pub const B: Changes<'static> = Changes {
    kind: &[Record::DELETE, Record::INSERT, Record::INSERT],
    location: &[4, 6, 6],
    parent: &[0, 4, 0],
    from: &[0, 2, 0],
    value: &[0, 0, 0],
};

pub const C: Changes<'static> = Changes {
    kind: &[Record::INSERT, Record::INSERT],
    location: &[6, 6],
    parent: &[0, 4],
    from: &[0, 2],
    value: &[0, 0],
};

pub const D: Changes<'static> = Changes {
    kind: &[Record::INSERT, Record::DELETE],
    location: &[4, 4],
    parent: &[0, 0],
    from: &[2, 0],
    value: &[0, 0],
};

// G with a rename in place of its delete.
pub const G: Changes<'static> = Changes {
    kind: &[Record::RENAME],
    location: &[0],
    parent: &[0],
    from: &[0],
    value: &[9],
};

pub const I: Changes<'static> = Changes {
    kind: &[Record::INSERT],
    location: &[3],
    parent: &[2],
    from: &[2],
    value: &[0],
};

pub const J: Changes<'static> = Changes {
    kind: &[],
    location: &[],
    parent: &[],
    from: &[],
    value: &[],
};

pub const K: Changes<'static> = Changes {
    kind: &[Record::REPLACE],
    location: &[1],
    parent: &[0],
    from: &[2],
    value: &[0],
};
