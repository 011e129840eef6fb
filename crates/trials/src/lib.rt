//! Tests over the crates of the bench.
#![tactic(auto)]

#[cfg(test)]
mod moves_and_slots;
#[cfg(test)]
mod registers;
#[cfg(test)]
mod sizes;
#[cfg(test)]
mod texts;
