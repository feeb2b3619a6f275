//! Sums of products that may go beyond 128 bits.

ghost use Rattle.std.specs.Prelude.{◌≡◌, ◌+◌, ◌*◌, ◌<◌, ◌≤◌, ◌^◌, ℤ, pos, ◌+ℤ◌, ◌*ℤ◌, MatchOption};
ghost use Rattle.std.specs.Int.RustNames.{unsigned_abs};
ghost use Rattle.rv_poly.specs.Moves.{whole_of, IsNormal};

/// What the high part of a sum counts.
const BASE: i128 = 1 << 96;

/// The greatest magnitude of the bound of a kept row.
const MOST_BOUND: i128 = 1 << 60;

/// A sum in two parts: `high` times 2^96, and `low`, which is from 0 to below 2^96.
#[derive(Clone, Copy)]
pub struct Wide {
    /// How often it has 2^96.
    pub high: i128,
    /// What it has besides.
    pub low: i128,
}

/// A number in two parts.
pub fn parted(number: i128) -> Wide
    ensures value { whole_of result ≡ number }
    ensures normal { IsNormal result }
    ensures small { unsigned_abs result.high ≤ 2 ^ 31 }
{
    Wide {
        high: number.div_euclid(BASE),
        low: number.rem_euclid(BASE),
    }
}

/// `sum + by * number`.
fn plus_product(sum: i128, by: i128, number: i128) -> i128
    requires { unsigned_abs sum + unsigned_abs by * unsigned_abs number < 2 ^ 127 }
    ensures { result ≡ sum +ℤ (by *ℤ number) }
{
    sum + by * number
}

/// The sum with a product of a small number and one of any size: the low parts are added first, and what goes beyond them is carried.
pub fn plus_wide(sum: Wide, by: i128, number: i128) -> Wide
    requires normal { IsNormal sum }
    requires room { unsigned_abs sum.high < 2 ^ 126 }
    requires small { unsigned_abs by ≤ 2 ^ 30 }
    ensures value { whole_of result ≡ whole_of sum +ℤ (by *ℤ number) }
    ensures normal { IsNormal result }
    ensures high { unsigned_abs result.high ≤ unsigned_abs sum.high + 2 ^ 62 }
{
    let parts = parted(number);
    let carry = parted(plus_product(sum.low, by, parts.low));
    Wide {
        high: plus_product(sum.high, by, parts.high) + carry.high,
        low: carry.low,
    }
}

/// The sum, where its magnitude is at most 2^60, the limit of a kept row's bound.
pub fn within(sum: Wide) -> Option<i128>
    requires normal { IsNormal sum }
    ensures { MatchOption result (¬ (unsigned_abs (whole_of sum) ≤ 2 ^ 60)) (λ z. (z ≡ whole_of sum) × (unsigned_abs z ≤ 2 ^ 60)) }
{
    if sum.high == 0 && sum.low <= MOST_BOUND {
        return Some(sum.low);
    }
    if sum.high == -1 && sum.low >= BASE - MOST_BOUND {
        return Some(sum.low - BASE);
    }
    None
}
