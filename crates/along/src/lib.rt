// The mappings along a list, however it is lent: the judgement of the list, one test more, and then record by record.
// Each has a loop of its own: a mapping of one row ends at the record that tells it, one of all rows writes, so a loop
// that they hand a closure to would be no plainer.
#![tactic(auto)]

pub mod every_new;
pub mod every_old;
pub mod fill;
pub mod new_row;
pub mod old_row;
pub mod way;
