// What one step notes.
ghost use Rattle.std.specs.Prelude.{◌≡◌};

/// What one step notes, so that it can be undone.
pub trait Record: Copy {
    /// The record that stands where nothing was noted.
    ghost blank: { Self };

    /// The record that stands where nothing was noted.
    fn blank() -> Self
        ensures { result ≡ blank };
}
