// Prints the chart of the image on standard input; or, where arguments name files, the name and the chart of each.
#![tactic(auto)]

mod printing;

use crate::printing::chart;
use program_input::{visit_arguments, with_image};
use std::io;

fn main(rt: HostRuntime) -> io::Result<()> {
    let files = visit_arguments(&rt, |name, file| {
        rt.println(name)?;
        with_image(file, |image| chart(&rt, image).written)?;
        Ok(true)
    })?;
    if files == 0 {
        return with_image(&mut rt.reader(), |image| chart(&rt, image).written);
    }
    Ok(())
}
