// The record of a countdown.

/// Whether a step took one away: all that it takes to undo the step.
#[derive(Clone, Copy, PartialEq, Eq, Debug)]
pub struct Moved {
    pub one: bool,
}
