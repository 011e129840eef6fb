// How a step changes the text of a tableau.
ghost use Rattle.std.specs.Prelude.{◌≡◌};
ghost use Rattle.rewriting.specs.Step.{can_substitute, substituted};

use crate::replacing::replace;
use crate::rule::Side;
use crate::tableau::{MOST_BYTES, RewritingTableau};

impl RewritingTableau {
    /// Puts `new` in place of as many bytes as `old` has, at `place`, sets the mark, and answers whether it did.
    ///
    /// It leaves the tableau as it is where the old bytes reach past the text, or the new text past its room.
    pub(crate) fn substitute(&mut self, place: usize, old: &Side, new: &Side, mark: u8) -> bool
        ensures after { self.new ≡ substituted self.old place old.now new.now mark }
        ensures answer { result ≡ can_substitute self.old place old.now new.now }
    {
        let used = self.written().len();
        let gone = old.text().len();
        if place > used || gone > used - place {
            return false;
        }
        let added = new.text();
        let size = used - gone + added.len();
        let too_large = size > MOST_BYTES;
        if too_large {
            return false;
        }
        replace(&mut self.text, used, place, gone, added);
        self.length = size as u8;
        self.mark = mark;
        true
    }
}
