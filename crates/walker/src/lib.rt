// The children of a row, one after another: a walker that holds the lent size column.
#![tactic(auto)]

pub mod walker;
