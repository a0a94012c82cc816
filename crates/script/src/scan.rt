// Bytes looked at: digits, zeros, and the first byte of some value.
ghost use Rattle.std.specs.Prelude.{◌≡◌, cond, ◌-◌, None, Some, position, ◌==◌};
ghost use Rattle.model.specs.Script.{is_digit, digit_zero, leading_zero};

// The digit that a byte writes.
#[tactic(auto, unfolding(model::specs::Script::is_digit))]
pub fn digit(b: u8) -> Option<u64>
    ensures { result ≡ cond (is_digit b) (Some (b - digit_zero)) None }
{
    match b {
        b'0'..=b'9' => Some(u64::from(b - b'0')),
        _ => None,
    }
}

// Does a zero stand before other bytes?
#[tactic(auto, unfolding(model::specs::Script::leading_zero))]
pub fn leading_zero(t: &[u8]) -> bool
    ensures { result ≡ leading_zero t.now }
{
    matches!(t, [b'0', _, ..])
}

// Where the first byte b stands.
pub fn find(t: &[u8], b: u8) -> Option<usize>
    ensures { result ≡ position (λ x. x == b) t.now }
{
    t.iter().position(|x| *x == b)
}
