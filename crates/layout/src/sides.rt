// The body of a rule: whether it is final, how long its left side is, and its two sides.
ghost use Rattle.std.specs.Prelude.{◌≡◌, ◌<◌, length, IfSome, ◌==◌};
ghost use Rattle.std.specs.List.{position};
ghost use Rattle.layout.specs.Programs.{first_zero, sides_fit, rule_wrong};

/// The place of the first 0 in `text`, if any.
#[tactic(auto, using(crate::proofs::Values::zero_at))]
pub fn first_zero(text: &[u8]) -> Option<usize>
    ensures value { result ≡ first_zero text.now }
    ensures within { IfSome result (λ place. place < length text.now) }
{
    zero_place(text)
}

// The same, said by std's word for what it calls.
fn zero_place(text: &[u8]) -> Option<usize>
    ensures value { result ≡ position (λ x. x == 0) text.now }
    ensures within { IfSome result (λ place. place < length text.now) }
{
    text.iter().position(|byte| *byte == 0)
}

/// The place of the first wrong byte in the body of a rule, if any.
pub fn rule_wrong(body: &[u8]) -> Option<usize>
    ensures { result ≡ rule_wrong body.now }
{
    let last = body.first().copied().unwrap_or(0);
    if last > 1 {
        return Some(0);
    }
    let left = body.get(1).copied().unwrap_or(0);
    let sides = body.get(2..).unwrap_or(&[]);
    if !sides_fit(usize::from(left), sides.len()) {
        return Some(1);
    }
    first_zero(sides).map(|place| 2 + place)
}

// Whether a left side of `left` bytes and the rest of `both` have at most 8 bytes each.
fn sides_fit(left: usize, both: usize) -> bool
    ensures { result ≡ sides_fit left both }
{
    left <= 8 && left <= both && both - left <= 8
}
