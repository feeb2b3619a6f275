// Greatest common divisors and least common multiples.
ghost use Rattle.std.specs.Int.{IsGcd};

/// The greatest common divisor, by Euclid's algorithm.
pub fn gcd(a: u128, b: u128) -> u128
    ensures { IsGcd a b result }
{
    let mut x = a;
    let mut y = b;
    while y != 0 {
        let rest = x % y;
        x = y;
        y = rest;
    }
    x
}

/// The greatest common divisor of all numbers, 0 where all of them are 0.
pub fn common_divisor(numbers: &[i128]) -> u128 {
    let mut divisor: u128 = 0;
    for number in numbers {
        divisor = gcd(divisor, number.unsigned_abs());
        if divisor == 1 {
            return 1;
        }
    }
    divisor
}

/// The least common multiple of two numbers above 0, where it fits.
pub fn common_multiple(a: i128, b: i128) -> Option<i128> {
    let common = i128::try_from(gcd(a.unsigned_abs(), b.unsigned_abs())).ok()?;
    a.checked_div(common)?.checked_mul(b)
}
