// Which rule applies to a text, and where.
ghost use Rattle.std.specs.Prelude.{◌≡◌};
ghost use Rattle.rewriting.specs.Occurs.{Found, Applies, program};
ghost use Rattle.rewriting.specs.Search.{find, choose};

use crate::matching::Match;
use crate::rule::Rule;

// More rules could not be told apart in a record, whose code for a text that does not fit is 33.
const MOST_RULES: usize = 32;

/// The rules of `table` that a machine uses: the first 32.
pub fn program(table: &[Rule]) -> &[Rule]
    ensures { result.now ≡ program table.now }
{
    &table[..table.len().min(MOST_RULES)]
}

/// The leftmost place where `part` occurs in `text`; an empty part occurs at 0.
pub fn find(part: &[u8], text: &[u8]) -> Option<usize>
    ensures leftmost { Found part.now text.now result }
    ensures value { result ≡ find part.now text.now }
{
    // The places where there is room for the part.
    let places = (text.len() + 1).saturating_sub(part.len());
    (0..places).find(|place| text[*place..*place + part.len()].starts_with(part))
}

/// The first of `rules` whose left side occurs in `text`, with its leftmost place.
pub fn choose(rules: &[Rule], text: &[u8]) -> Option<Match>
    ensures chosen { Applies rules.now text.now result }
    ensures value { result ≡ choose rules.now text.now }
{
    rules.iter().enumerate().find_map(|(rule, candidate)| {
        find(candidate.left.text(), text).map(|place| Match { rule, place })
    })
}
