// Runs the worked cases of document 01, the data sheet's table of SCL times and the cases of L3, and prints what the
// model answers, one line a case.
#![tactic(auto)]

mod frame_cases;
mod packet_cases;
mod print;
mod register_cases;
mod unpacking_cases;

use print::Output;
use std::io;

fn run(rt: &impl Print) -> io::Result<()> {
    register_cases::run(rt)?;
    packet_cases::run(rt)?;
    unpacking_cases::run(rt)?;
    frame_cases::run(rt)
}

fn main(rt: HostRuntime) {
    let _ = run(&Output(rt.stdout()));
}
