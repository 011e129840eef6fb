//! What a run of given sizes needs: reads the fan-out, the depth and the steps of a segment, and prints the plan.
#![tactic(auto)]

mod head;
mod report;
mod table;
mod words;

use crate::report::answer;
use std::io;

fn main(rt: HostRuntime) -> io::Result<()> {
    let heap = rt.alloc();
    let mut line = String::new(heap);
    // Input that is no text asks for nothing.
    let asked = match rt.read_line(&mut line) {
        Ok(_) => line.trim_end(),
        Err(_) => "",
    };
    rt.print(answer(heap, asked)?)
}
