// Prints, for each image that its arguments name, the name and the number of the first rule of 1 to 11 that it breaks,
// or 0.
#![tactic(auto)]

use program_input::{visit_arguments, with_image};
use std::io;

fn main(rt: HostRuntime) -> io::Result<()> {
    visit_arguments(&rt, |name, file| {
        let number = match with_image(file, |image| Ok(sir_data::refusal(image)))? {
            Ok(()) => 0,
            Err(refusal) => u32::from(refusal),
        };
        println!(rt; "{name} {number}")?;
        Ok(true)
    })?;
    Ok(())
}
