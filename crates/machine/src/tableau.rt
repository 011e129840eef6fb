// The whole state of a machine, and how two of them are summed.
ghost use Rattle.std.specs.Prelude.{◌≡◌};
ghost use Rattle.machine.specs.Sum.{Sum};

/// The whole state of a machine, with a sum whose every addition can be taken back.
pub trait Tableau: Copy {
    /// Zero, plus and minus, with their laws proved.
    ghost sum: { Sum Self };

    /// The zero of the sum: adding to it gives what was added.
    fn zero() -> Self
        ensures { result ≡ sum.zero };

    /// Adds `other` to `self`.
    fn plus(&mut self, other: &Self)
        ensures { self.new ≡ sum.plus self.old other.now };

    /// Takes `other` away from `self`.
    fn minus(&mut self, other: &Self)
        ensures { self.new ≡ sum.minus self.old other.now };
}
