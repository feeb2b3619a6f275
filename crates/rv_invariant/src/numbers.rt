//! Numbers in the fields of certificates.

ghost use Rattle.std.specs.Prelude.{◌≡◌, ◌<◌, ◌^◌, MatchOption, true, false};
ghost use Rattle.rv_invfile.specs.Texts.{natural, whole};
ghost use Rattle.rv_invariant.specs.Pieces.{is_below, is_within};

use rv_invfile::{natural_of, whole_of};

/// The greatest number of 32 bits.
const GREATEST: u64 = 4_294_967_295;

/// The number below `limit` that a text writes, where it is held in 32 bits.
pub fn below(text: &[u8], limit: u64) -> Option<u32>
    ensures { MatchOption result (is_below limit text.now ≡ false) (λ n. (is_below limit text.now ≡ true) × (n ≡ natural text.now)) }
{
    match natural_of(text) {
        Some(n) => {
            if n >= limit {
                None
            } else if n > GREATEST {
                None
            } else {
                Some(n as u32)
            }
        }
        None => None,
    }
}

/// The whole number of at most this magnitude that a text writes.
pub fn whole_within(text: &[u8], limit: u64) -> Option<i128>
    requires { limit < 2 ^ 63 }
    ensures { MatchOption result (is_within limit text.now ≡ false) (λ z. (is_within limit text.now ≡ true) × (z ≡ whole text.now)) }
{
    match whole_of(text) {
        Some(number) => {
            if number.unsigned_abs() > u128::from(limit) {
                None
            } else {
                Some(number)
            }
        }
        None => None,
    }
}
