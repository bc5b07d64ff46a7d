// The questions that can be put to an image, about one id or for all, each a reader of stages; and images taken apart and put together.
#![tactic(auto)]

pub mod all_allocations;
pub mod all_intervals;
pub mod all_predecessors;
pub mod all_sets;
pub mod all_uses;
pub mod ask;
pub mod chart;
pub mod chart_columns;
pub mod chart_lines;
mod counted;
pub mod crossing;
pub mod live_answers;
pub mod open_allocations;
pub mod order_answers;
pub mod owned_tables;
mod paging;
pub mod pointer_answers;
pub mod questions;
pub mod scatter;
mod segments;
pub mod write_back;
