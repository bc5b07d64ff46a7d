// The report of an image: its text line by line, and the program's work but for reading.
#![tactic(auto)]

pub mod counting;
pub mod lines;
pub mod printing;
pub mod text;

pub use printing::{Printed, print_loaded, report};
