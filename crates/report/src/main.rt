// Prints the report of the image on standard input.
#![tactic(auto)]

use program_input::with_image;
use report_lines::report;
use std::io;

fn main(rt: HostRuntime) -> io::Result<()> {
    with_image(&mut rt.reader(), |image| report(&rt, image).written)
}
