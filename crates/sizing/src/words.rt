//! The three numbers of the input line.
ghost use Rattle.std.specs.Prelude.{◌≡◌, ℕ, List, Some, codes, MatchResult};
ghost use Rattle.sizing.specs.Words.{Splits, Writes, Reads, sizes_of};

use schedule::MOST_ALLOWANCE;
use std::error::Error;
use std::fmt;
use std::str::FromStr;

/// A fan-out, a depth and the steps of a segment, as they were asked for.
#[derive(Clone, Copy)]
pub struct Sizes {
    pub fan_out: u32,
    pub depth: u32,
    pub steps: u32,
}

/// What a plan is asked for: these sizes, and the most ticks that it may allow.
impl From<Sizes> for schedule::Sizes {
    ghost from_gives = { λ s t. t ≡ sizes_of s };

    fn from(sizes: Sizes) -> schedule::Sizes {
        schedule::Sizes {
            fan_out: sizes.fan_out,
            depth: sizes.depth,
            steps: sizes.steps,
            allowance: MOST_ALLOWANCE,
        }
    }
}

/// The line is not three decimal numbers of 32 bits with spaces between them.
#[derive(Clone, Copy, PartialEq, Eq, Debug)]
pub struct NotThreeNumbers;

// By hand, since no derive promises the text.
impl fmt::Display for NotThreeNumbers {
    ghost output = { λ _. Some (codes "expected three decimal numbers: fan-out, depth, steps") };

    fn fmt<W: fmt::Write>(&self, f: &mut fmt::Formatter<W>) -> fmt::Result {
        f.write_str("expected three decimal numbers: fan-out, depth, steps")
    }
}

impl Error for NotThreeNumbers {}

/// Reads the sizes that a line asks for.
impl FromStr for Sizes {
    type Err = NotThreeNumbers;

    ghost from_str_gives = { Reads };

    fn from_str(line: &str) -> Result<Sizes, NotThreeNumbers> {
        // Both cuts come first, so that a line of fewer words is refused before a number is read.
        let (first, rest) = leading_word(line)?;
        let (second, rest) = leading_word(rest)?;
        let fan_out = number(first)?;
        let depth = number(second)?;
        let steps = number(rest.trim_start_matches(' '))?;
        Ok(Sizes {
            fan_out,
            depth,
            steps,
        })
    }
}

// The word that `text` begins with behind its spaces, and what follows the space behind it.
fn leading_word(text: &str) -> Result<(&str, &str), NotThreeNumbers>
    ensures cases { MatchResult result (λ x. Splits text.now x.0.now x.1.now) (λ _. (word after : List ℕ) → Splits text.now word after → ⊥) }
{
    text.trim_start_matches(' ')
        .split_once(' ')
        .ok_or(NotThreeNumbers)
}

// The number that `word` writes, if it is digits alone and fits 32 bits.
fn number(word: &str) -> Result<u32, NotThreeNumbers>
    ensures cases { MatchResult result (Writes word.now) (λ _. (n : ℕ) → Writes word.now n → ⊥) }
{
    if word.starts_with('+') {
        return Err(NotThreeNumbers);
    }
    word.parse().map_err(|_| NotThreeNumbers)
}
