// Prints the name and the report of each image that its arguments name.
#![tactic(auto)]

use program_input::{visit_arguments, with_image};
use report_lines::report;
use std::io;

fn main(rt: HostRuntime) -> io::Result<()> {
    visit_arguments(&rt, |name, file| {
        rt.println(name)?;
        with_image(file, |image| report(&rt, image).written)?;
        Ok(true)
    })?;
    Ok(())
}
