//! How long a piece of work takes.
use std::time::Instant;

// Each piece of work is timed this many times; the shortest counts.
pub const TURNS: u32 = 5;

/// The shortest time that `work` takes, in nanoseconds, and what it answered last.
pub(crate) fn shortest<T: Default + Drop, F: FnMut() -> T>(
    rt: &HostRuntime,
    mut work: F,
) -> anyhow::Result<(u128, T)>
    requires { F.IsAlwaysCallable work }
{
    let mut least = u128::MAX;
    let mut answer = T::default();
    for _ in 0..TURNS {
        let start = Instant::now(rt)?;
        answer = work();
        least = least.min(start.elapsed(rt)?.as_nanos());
    }
    Ok((least, answer))
}
