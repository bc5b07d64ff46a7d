// Layer 2: the image.
#![tactic(auto)]

mod block_rules;
mod bounds;
pub mod codes;
pub mod control;
pub mod giver_rules;
pub mod image;
pub mod image_block;
pub mod lent_records;
mod operation_rules;
pub mod pages;
pub mod records;
pub mod refusals;
pub mod rules;
pub mod view;
pub mod well_formed;

pub use image::refusal;
