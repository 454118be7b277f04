// Reading numbers in decimal.
ghost use Rattle.std.specs.Prelude.{◌≡◌, ℕ, ◌^◌, ◌<◌, decimal, MatchOption, ◌≢◌};

use std::str;

// The most digits that a number is read from.
const MOST_DIGITS: usize = 9;

// What the library reads, which takes a plus and leading zeros too: if a number is written so, it is this one.
fn candidate_number(text: &[u8]) -> Option<u32>
    ensures { MatchOption result ((n : ℕ) → (n < 10 ^ 9) × (text.now ≡ decimal n) → ⊥) (λ k. (n : ℕ) → (n < 10 ^ 9) × (text.now ≡ decimal n) → n ≡ k) }
{
    str::from_utf8(text).ok()?.parse().ok()
}

// The number of at most nine digits that is written so, with no leading zero.
pub fn read_decimal(text: &[u8]) -> Option<u32>
    ensures { MatchOption result ((n : ℕ) → n < 10 ^ 9 → text.now ≢ decimal n) (λ n. (n < 10 ^ 9) × (text.now ≡ decimal n)) }
{
    if text.len() > MOST_DIGITS {
        return None;
    }
    candidate_number(text).filter(|n| itoa::Buffer::new().format(*n).as_bytes() == text)
}
