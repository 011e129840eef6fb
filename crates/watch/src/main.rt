//! Watches two machines step forward and back again, printing each tableau and each record.
#![tactic(auto)]

mod counter;
mod shortening;
mod walk;

use crate::counter::count_down;
use crate::shortening::shorten;
use std::io;

fn main(rt: HostRuntime) -> io::Result<()> {
    count_down(&rt)?;
    shorten(&rt)
}
