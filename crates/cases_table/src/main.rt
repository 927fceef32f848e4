// What the calls answer on the paper's examples, and at the ends of their ranges: one module for each topic.
#![tactic(auto)]

mod axes_cases;
mod soundness_cases;
mod told;
mod walk_cases;
mod walker_cases;

use std::io;

fn main(rt: HostRuntime) -> io::Result<()> {
    soundness_cases::all(&rt)?;
    axes_cases::all(&rt)?;
    walk_cases::all(&rt)?;
    walker_cases::all(&rt)
}
