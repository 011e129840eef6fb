// Types whose `==` tells values apart.
ghost use Rattle.std.specs.Prelude.{◌≡◌};
ghost use Rattle.std.specs.Bool.{Decides};

/// A type whose `==` answers whether two values are the same.
///
/// `PartialEq` alone says what `==` computes. Whoever implements this trait proves that it leaves nothing out.
pub trait Exact: PartialEq {
    ghost exact: { (a b : Self) → Decides (Self.eq a b) (a ≡ b) };

    /// Whether the two are the same, asked by `==`.
    final fn is_same(&self, other: &Self) -> bool
        ensures { Decides result (self.now ≡ other.now) }
    {
        self == other
    }
}
