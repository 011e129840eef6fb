// The tableau of a countdown. It has a file of its own: the specs name it, so this file may cite none of them.
ghost use Rattle.std.specs.Prelude.{◌^◌, ◌<◌};

/// How much is left to count down.
#[derive(Clone, Copy, PartialEq, Eq, Debug)]
pub struct Countdown {
    pub left: u32,
    // What the type of `left` already says. In the logic `left` is any number, and the laws hold only of those below
    // 2^32; with this fact in the struct they hold of every value.
    ghost ranged: { left < 2 ^ 32 },
}
