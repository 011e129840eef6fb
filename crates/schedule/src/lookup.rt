//! One move by its number, and the slot of one checkpoint, from their digits.
ghost use Rattle.std.specs.Prelude.{◌≡◌, ℕ, pred, ◌-◌, ◌*◌, ◌^◌, ◌<◌, ◌≤◌, min, ◌&&◌, if◌then◌else◌, Some, None, Ok, Err, nat_le, slice_index_or};
ghost use Rattle.std.specs.Option.{option_or};
ghost use Rattle.refusal.specs.declared.kinds.Fault.TheVariants.{End};
ghost use Rattle.schedule.specs.Digits.{digit_says, digits_say, digit_segment};
ghost use Rattle.schedule.specs.Slots.{digit_slot};
ghost use Rattle.schedule.specs.Answers.{segments_of, moves_of, build_of, digit_move_of, slot_of};

use crate::moves::{Change, Move};
use crate::sizes::Plan;
use refusal::{Fault, Refusal};

impl Plan {
    /// Move number `t` of the build, counted from 0. A number that is not below `moves` is refused as `End`.
    #[tactic(auto, using(crate::proofs::Entries::entry_at))]
    pub fn move_at(&self, t: u64) -> Result<Move, Refusal>
        ensures digits { t < moves_of self.now → result ≡ Ok (digit_move_of self.now t) }
        ensures entry { (d : Move) → t < moves_of self.now → result ≡ Ok (slice_index_or (build_of self.now) t d) }
        ensures refused { moves_of self.now ≤ t → result ≡ Err (record { fault = End; place = 0 }) }
    {
        if t >= self.moves() {
            return Err(Refusal::new(Fault::End, 0));
        }
        let said = self.by_digits(self.depth(), t);
        Ok(Move {
            change: said.change.unwrap_or(Change::Place),
            segment: said.segment,
        })
    }

    // What the `level` lowest digits of `t` in base 2k - 1 say. Each digit names a block of its level, counted up to
    // k - 1 and then down again.
    #[tactic(auto, using(crate::proofs::DigitSteps::move_digits))]
    fn by_digits(&self, level: u32, t: u64) -> Said
        requires within { level ≤ self.now.sizes.depth }
        ensures change { result.change ≡ digits_say self.now.sizes.fan_out level t }
        ensures segment { result.segment ≡ digit_segment self.now.sizes.fan_out level t }
        ensures bound { result.segment < self.now.sizes.fan_out ^ level }
    {
        if level == 0 {
            return Said {
                change: None,
                segment: 0,
            };
        }
        let k = self.fan_out();
        let base = u64::from(2 * k - 1);
        let above = self.by_digits(level - 1, t / base);
        let digit = (t % base) as u32;
        let middle = k - 1;
        let block = digit.min(2 * middle - digit);
        Said {
            change: digit_says(middle, digit).or(above.change),
            segment: block + k * above.segment,
        }
    }

    /// The slot of checkpoint `j`, for the checkpoints 1 to k^n.
    pub fn slot(&self, j: u32) -> Option<u32>
        ensures value { result ≡ (if nat_le 1 j && nat_le j (segments_of self.now) then Some (slot_of self.now j) else None) }
    {
        if !(1..=self.segments()).contains(&j) {
            return None;
        }
        if j == self.segments() {
            return Some(0);
        }
        Some(self.slot_by_digits(self.depth(), j))
    }

    // The slot of `j` by its lowest digit in base `k` that is not 0, among `level` digits. No digit is above 7.
    #[tactic(auto, using(crate::proofs::DigitSteps::slot_digits))]
    fn slot_by_digits(&self, level: u32, j: u32) -> u32
        requires within { level ≤ self.now.sizes.depth }
        ensures value { result ≡ digit_slot self.now.sizes.fan_out level j }
        ensures bound { result ≤ 7 * level }
    {
        if level == 0 {
            return 0;
        }
        let k = self.fan_out();
        let digit = j % k;
        if digit != 0 {
            return digit;
        }
        k - 1 + self.slot_by_digits(level - 1, j / k)
    }
}

// What the digits of a move's number say.
#[derive(Drop)]
struct Said {
    // what the lowest digit says that says anything
    change: Option<Change>,
    segment: u32,
}

// What one digit says of the change; the middle one says nothing.
fn digit_says(middle: u32, digit: u32) -> Option<Change>
    ensures value { result ≡ digit_says middle digit }
{
    // Guards, since a `match` on `digit.cmp(&middle)` takes `move_at` a sixth more instructions.
    match digit {
        lower if lower < middle => Some(Change::Place),
        upper if upper > middle => Some(Change::Remove),
        _ => None,
    }
}
