// Layer 1: typed numbers, spans, sets of numbers below 512, one by one and as rows of a table, and texts in a line.
#![tactic(auto)]

pub mod dense_index_set;
pub mod index;
pub mod rows;
pub mod span;
pub mod text;
