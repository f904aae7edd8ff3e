//! Numbers of a file.

ghost use Rattle.std.specs.Prelude.{◌≡◌, ◌≤◌, ◌<◌, ◌^◌, ◌≤ℤ◌, ℕ, ℤ, pos, negsuc, min, IfSome, IfNone};
ghost use Rattle.file_elab.specs.Rules.{digits_value, number_value};

// More than any number that may stand in a file.
const CAP: u64 = 4_294_967_296;

// The number that digits say, or the cap where it is no less.
fn capped(digits: &[u8]) -> u64
    ensures { result ≡ min (digits_value digits.now) 4294967296 }
{
    let mut value: u64 = 0;
    for digit in digits {
        value = (value * 10 + u64::from(digit.saturating_sub(b'0'))).min(CAP);
    }
    value
}

/// A penalty: a number that fits 32 bits with its terminal.
pub fn penalty(text: &[u8]) -> Option<i32>
    ensures some { IfSome result (λ penalty. (number_value text.now ≡ penalty) × (negsuc 2147483647 ≤ℤ penalty) × (penalty ≤ℤ pos 2147483647)) }
    ensures none { IfNone result (negsuc 2147483647 ≤ℤ number_value text.now → number_value text.now ≤ℤ pos 2147483647 → ⊥) }
{
    match text {
        [b'-', digits @ ..] => {
            let value = capped(digits);
            if value <= 2_147_483_648 {
                Some((-(value as i64)) as i32)
            } else {
                None
            }
        }
        _ => {
            let value = capped(text);
            if value <= 2_147_483_647 {
                Some(value as i32)
            } else {
                None
            }
        }
    }
}

/// A natural number that fits 32 bits.
pub fn natural(text: &[u8]) -> Option<u32>
    ensures some { IfSome result (λ number. number_value text.now ≡ pos number) }
    ensures none { IfNone result ((number : ℕ) → number < 2 ^ 32 → number_value text.now ≡ pos number → ⊥) }
{
    match text {
        [b'-', digits @ ..] => { if capped(digits) == 0 { Some(0) } else { None } }
        _ => {
            let value = capped(text);
            if value < CAP {
                Some(value as u32)
            } else {
                None
            }
        }
    }
}
