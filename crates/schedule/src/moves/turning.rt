//! A change taken back.
ghost use Rattle.std.specs.Prelude.{◌≡◌};
ghost use Rattle.schedule.specs.Moves.{opposite};

use crate::moves::Change;

impl Change {
    /// The change that takes this one back.
    pub fn opposite(self) -> Change
        ensures value { result ≡ opposite self }
    {
        match self {
            Change::Place => Change::Remove,
            Change::Remove => Change::Place,
        }
    }
}
