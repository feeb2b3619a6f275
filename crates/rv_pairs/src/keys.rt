//! Keys of left sides: small numbers, of which that of a sum follows from those of its two parts.

ghost use Rattle.std.specs.Prelude.{◌≡◌, ℤ, ◌<◌, ◌+ℤ◌, ◌*ℤ◌, List, ◌∷◌, pos, IfOk};
ghost use Rattle.rv_pairs.specs.Keys.{IsKey, HasRest, fold};

use rv_base::Many;

/// How many keys there are.
pub const KEYS: usize = 4096;

/// What a number leaves when it is divided by how many keys there are.
fn remainder(number: i128) -> usize
    ensures below { result < 4096 }
    ensures rest { HasRest number result }
{
    number.rem_euclid(KEYS as i128) as usize
}

/// The key of a list with a number more at its front, given that of the others.
fn key_with(number: i128, key: usize) -> usize
    requires { key < 4096 }
    ensures { (numbers : List ℤ) → IsKey numbers key → IsKey (number ∷ numbers) result }
{
    (remainder(number) + 1229 * key) % KEYS
}

/// The key of a left side with these numbers. Zeros after the last one do not change it.
pub fn key_of(numbers: &Many<i128>) -> usize
    ensures { IsKey numbers.now result }
{
    let count = numbers.len();
    let mut key = 0;
    for done in 0..count {
        let number = *numbers.at(count - 1 - done);
        key = key_with(number, key);
    }
    key
}

/// The key of what one left side lacks of another, given their keys.
pub fn key_of_rest(whole: usize, part: usize) -> usize
    requires whole { whole < 4096 }
    requires part { part < 4096 }
    ensures below { result < 4096 }
    ensures key { (numbers one other : List ℤ) → IsKey numbers whole → IsKey one part → fold numbers ≡ fold one +ℤ fold other → IsKey other result }
{
    if whole < part {
        return whole + KEYS - part;
    }
    whole - part
}
