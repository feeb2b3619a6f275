//! Rows as inequalities over names.

use rv_base::Memory;
use rv_rows::Row;
use std::alloc::Global;

/// How many rows that are told elsewhere are looked through, and how many rows there may be in which columns of one value are looked for.
const MOST_KNOWN: usize = 200;

/// How often columns that have one value are left out of the other rows.
const ROUNDS: u32 = 4;

/// What rows say of one sum of columns, the first of which has a positive coefficient: its least and its greatest value.
#[derive(Debug, Drop)]
struct Bounded {
    coefficients: Vec<i128>,
    least: Option<i128>,
    greatest: Option<i128>,
}

/// Whether the first coefficient that is not 0 is negative.
fn is_turned(coefficients: &[i128]) -> bool {
    for coefficient in coefficients {
        if *coefficient != 0 {
            return *coefficient < 0;
        }
    }
    false
}

/// A number with the other sign.
fn opposite(number: i128) -> i128 {
    number.checked_neg().unwrap_or(i128::MAX)
}

/// The greatest number that divides two numbers. Each round halves one of them at least.
fn common_divisor(one: u128, other: u128) -> u128 {
    let mut greater = one.max(other);
    let mut lesser = one.min(other);
    for _ in 0..256 {
        if lesser == 0 {
            return greater;
        }
        let rest = greater % lesser;
        greater = lesser;
        lesser = rest;
    }
    1
}

/// The greatest number that divides all coefficients, and 1 where that is none of 1 to 2^127 - 1.
fn divisor_of(coefficients: &[i128]) -> i128 {
    let mut divisor: u128 = 0;
    for coefficient in coefficients {
        divisor = common_divisor(divisor, coefficient.unsigned_abs());
    }
    match i128::try_from(divisor) {
        Ok(divisor) => divisor.max(1),
        Err(_) => 1,
    }
}

/// A number divided by a positive one, and rounded down.
fn divided(number: i128, by: i128) -> i128 {
    number.checked_div_euclid(by).unwrap_or(number)
}

/// What it says alone that a sum of columns is at most a number, divided by what divides all coefficients: of integers a sum that is at most
/// 7 by twos is at most 3.
fn said_by(alloc: Global, sum: &[i128], most: i128) -> Result<Bounded, Memory> {
    let is_turned = is_turned(sum);
    let by = divisor_of(sum);
    let mut coefficients = Vec::new(alloc);
    for coefficient in sum {
        let own = divided(*coefficient, by);
        coefficients.push(if is_turned { opposite(own) } else { own })?;
    }
    let bound = divided(most, by);
    let (least, greatest) = if is_turned {
        (Some(opposite(bound)), None)
    } else {
        (None, Some(bound))
    };
    Ok(Bounded {
        coefficients,
        least,
        greatest,
    })
}

/// The number of what is said already of the same sum.
fn same_sum(all: &[Bounded], one: &Bounded) -> Option<usize> {
    let mut number: usize = 0;
    for other in all {
        if other.coefficients.as_slice() == one.coefficients.as_slice() {
            return Some(number);
        }
        number = number.saturating_add(1);
    }
    None
}

/// The greater of two lower bounds.
fn greater(one: Option<i128>, other: Option<i128>) -> Option<i128> {
    match (one, other) {
        (Some(one), Some(other)) => Some(one.max(other)),
        (Some(one), None) => Some(one),
        (None, other) => other,
    }
}

/// The lesser of two upper bounds.
fn lesser(one: Option<i128>, other: Option<i128>) -> Option<i128> {
    match (one, other) {
        (Some(one), Some(other)) => Some(one.min(other)),
        (Some(one), None) => Some(one),
        (None, other) => other,
    }
}

/// Adds that a sum of columns is at most a number to what is said of the same sum, or beside it.
fn add(alloc: Global, all: &mut Vec<Bounded>, sum: &[i128], most: i128) -> Result<(), Memory> {
    let one = said_by(alloc, sum, most)?;
    if let Some(number) = same_sum(all.as_slice(), &one) {
        if let Some(place) = all.get_mut(number) {
            place.least = greater(place.least, one.least);
            place.greatest = lesser(place.greatest, one.greatest);
        }
        return Ok(());
    }
    all.push(one)?;
    Ok(())
}

/// Adds a sum of columns.
fn put_sum(text: &mut String, names: &[String], coefficients: &[i128]) -> Result<(), Memory> {
    let mut is_first = true;
    for (name, coefficient) in names.iter().zip(coefficients) {
        if *coefficient != 0 {
            let sign = match (is_first, *coefficient < 0) {
                (true, true) => "-",
                (true, false) => "",
                (false, true) => " - ",
                (false, false) => " + ",
            };
            text.push_str(sign)?;
            let size = coefficient.unsigned_abs();
            if size != 1 {
                write!(text, "{size}*")?;
            }
            text.push_str(name.as_str())?;
            is_first = false;
        }
    }
    if is_first {
        text.push('0')?;
    }
    Ok(())
}

/// Adds a comparison of a sum with a number. With 0, and where both are equal, what is taken off stands on the other side.
fn put_compared(
    alloc: Global,
    text: &mut String,
    names: &[String],
    coefficients: &[i128],
    sign: &str,
    number: i128,
) -> Result<(), Memory> {
    let taken = parts_of(alloc, coefficients, true)?;
    let is_whole = taken.as_slice().iter().all(|one| *one == 0);
    if is_whole || number != 0 && sign != "=" {
        put_sum(text, names, coefficients)?;
        return Ok(write!(text, " {sign} {number}")?);
    }
    let added = parts_of(alloc, coefficients, false)?;
    put_sum(text, names, added.as_slice())?;
    write!(text, " {sign} ")?;
    put_sum(text, names, taken.as_slice())?;
    if number != 0 {
        let size = number.unsigned_abs();
        let operator = if number < 0 { "-" } else { "+" };
        write!(text, " {operator} {size}")?;
    }
    Ok(())
}

/// The coefficients that are taken off, with the other sign, or those that are added; 0 in the place of each other.
fn parts_of(alloc: Global, coefficients: &[i128], is_taken: bool) -> Result<Vec<i128>, Memory> {
    let mut parts = Vec::new(alloc);
    for coefficient in coefficients {
        let own = if is_taken {
            opposite(*coefficient)
        } else {
            *coefficient
        };
        parts.push(own.max(0))?;
    }
    Ok(parts)
}

/// Adds what is said of a sum.
fn put_bounded(
    alloc: Global,
    text: &mut String,
    names: &[String],
    one: &Bounded,
) -> Result<(), Memory> {
    let coefficients = one.coefficients.as_slice();
    match (one.least, one.greatest) {
        (Some(least), Some(greatest)) => if least == greatest {
            put_compared(alloc, text, names, coefficients, "=", greatest)
        } else {
            write!(text, "{least} <= ")?;
            put_sum(text, names, coefficients)?;
            Ok(write!(text, " <= {greatest}")?)
        },
        (Some(least), None) => put_compared(alloc, text, names, coefficients, ">=", least),
        (None, Some(greatest)) => put_compared(alloc, text, names, coefficients, "<=", greatest),
        (None, None) => Ok(text.push_str("true")?),
    }
}

/// The number of the one column of which something is said; none where it is a sum of several, or none at all.
fn only_column(coefficients: &[i128]) -> Option<usize> {
    if count_columns(coefficients) == 1 {
        coefficients.iter().position(|one| *one != 0)
    } else {
        None
    }
}

/// What is said of a column alone: its least and its greatest value.
#[derive(Clone, Copy, Debug)]
struct Limits {
    least: Option<i128>,
    greatest: Option<i128>,
}

/// What is said of each of so many columns alone. The coefficient of a column that stands alone is 1, since it is divided by itself.
fn limits_in(alloc: Global, all: &[Bounded], count: usize) -> Result<Vec<Limits>, Memory> {
    let mut limits = Vec::new(alloc);
    for _ in 0..count {
        limits.push(Limits {
            least: None,
            greatest: None,
        })?;
    }
    for one in all {
        let column = only_column(one.coefficients.as_slice());
        if let Some(place) = column.and_then(|column| limits.get_mut(column)) {
            if one.coefficients.as_slice().contains(&1) {
                place.least = one.least;
                place.greatest = one.greatest;
            }
        }
    }
    Ok(limits)
}

/// The greatest value of a sum by what is said of each column alone, or its least value; none where there is none, or it is out of range.
fn extreme_of(coefficients: &[i128], limits: &[Limits], is_greatest: bool) -> Option<i128> {
    let mut sum: i128 = 0;
    for (coefficient, own) in coefficients.iter().zip(limits) {
        if *coefficient != 0 {
            let limit = if (*coefficient > 0) == is_greatest {
                own.greatest?
            } else {
                own.least?
            };
            sum = sum.checked_add(coefficient.checked_mul(limit)?)?;
        }
    }
    Some(sum)
}

/// How many columns a sum has.
fn count_columns(coefficients: &[i128]) -> usize {
    coefficients.iter().filter(|one| **one != 0).count()
}

/// The one value that a column has by what is said of it alone.
fn value_in(limits: &Limits) -> Option<i128> {
    match (limits.least, limits.greatest) {
        (Some(least), Some(greatest)) => if least == greatest { Some(least) } else { None },
        _ => None,
    }
}

/// A sum without the columns that have one value, and what these add to it.
#[derive(Drop)]
struct Shorter {
    coefficients: Vec<i128>,
    constant: i128,
}

/// A sum without the columns that have one value; none where there are no such columns in it, or no others, or a number is out of range.
fn reduced(alloc: Global, sum: &[i128], limits: &[Limits]) -> Result<Option<Shorter>, Memory> {
    let mut coefficients = Vec::new(alloc);
    let mut constant: i128 = 0;
    let mut is_shorter = false;
    for (coefficient, own) in sum.iter().zip(limits) {
        match value_in(own) {
            Some(value) => {
                let added = coefficient.checked_mul(value);
                let Some(next) = added.and_then(|added| constant.checked_add(added)) else {
                    return Ok(None);
                };
                constant = next;
                is_shorter = is_shorter || *coefficient != 0;
                coefficients.push(0)?;
            }
            None => coefficients.push(*coefficient)?,
        }
    }
    if is_shorter && count_columns(coefficients.as_slice()) > 0 {
        Ok(Some(Shorter {
            coefficients,
            constant,
        }))
    } else {
        Ok(None)
    }
}

/// The coefficients of a sum with the other sign.
fn turned(alloc: Global, sum: &[i128]) -> Result<Vec<i128>, Memory> {
    let mut coefficients = Vec::new(alloc);
    for coefficient in sum {
        coefficients.push(opposite(*coefficient))?;
    }
    Ok(coefficients)
}

/// Adds what is said of a sum, so much less. What is out of range is left out, which it is in no rows of a file.
fn add_bounded(
    alloc: Global,
    all: &mut Vec<Bounded>,
    sum: &[i128],
    one: &Bounded,
    less: i128,
) -> Result<(), Memory> {
    if let Some(greatest) = one.greatest {
        if let Some(most) = greatest.checked_sub(less) {
            add(alloc, all, sum, most)?;
        }
    }
    if let Some(least) = one.least {
        if let Some(most) = less.checked_sub(least) {
            add(alloc, all, turned(alloc, sum)?.as_slice(), most)?;
        }
    }
    Ok(())
}

/// What is said of sums of so many columns, without those columns in them that have one value by what is said of them alone.
fn settled(alloc: Global, all: &[Bounded], count: usize) -> Result<Vec<Bounded>, Memory> {
    let limits = limits_in(alloc, all, count)?;
    let mut next = Vec::new(alloc);
    for one in all {
        let sum = one.coefficients.as_slice();
        let shorter = if count_columns(sum) < 2 {
            None
        } else {
            reduced(alloc, sum, limits.as_slice())?
        };
        match shorter {
            Some(shorter) => {
                let sum = shorter.coefficients.as_slice();
                add_bounded(alloc, &mut next, sum, one, shorter.constant)?;
            }
            None => add_bounded(alloc, &mut next, sum, one, 0)?,
        }
    }
    Ok(next)
}

/// Leaves out what is said of a sum of several columns where what is said of each alone says it. An equality is left out whole or not.
fn leave_out(one: &mut Bounded, limits: &[Limits]) {
    let sum = one.coefficients.as_slice();
    if count_columns(sum) < 2 {
        return;
    }
    let is_most = match (one.greatest, extreme_of(sum, limits, true)) {
        (Some(bound), Some(most)) => most <= bound,
        _ => false,
    };
    let is_least = match (one.least, extreme_of(sum, limits, false)) {
        (Some(bound), Some(least)) => bound <= least,
        _ => false,
    };
    if one.least == one.greatest && !(is_most && is_least) {
        return;
    }
    if is_most {
        one.greatest = None;
    }
    if is_least {
        one.least = None;
    }
}

/// What rows say that are not among those that are told elsewhere.
fn gathered(alloc: Global, rows: &[Row], known: &[Row]) -> Result<Vec<Bounded>, Memory> {
    let is_short = rows.len() <= MOST_KNOWN && known.len() <= MOST_KNOWN;
    let mut all = Vec::new(alloc);
    for row in rows {
        if !is_short || !known.contains(row) {
            add(alloc, &mut all, row.coefficients.as_slice(), row.bound)?;
        }
    }
    Ok(all)
}

/// The same of so many columns in short: without columns of one value in sums, as often as that makes others so, where these are not too many.
fn shortened(alloc: Global, all: Vec<Bounded>, count: usize) -> Result<Vec<Bounded>, Memory> {
    let mut short = all;
    if short.len() <= MOST_KNOWN {
        for _ in 0..ROUNDS {
            short = settled(alloc, short.as_slice(), count)?;
        }
    }
    Ok(short)
}

/// The texts of rows over columns of these names, without those that are told elsewhere, and those of one sum together. A column that has one
/// value stands in no other row, and a row of several columns is left out where the rows of each column alone say it.
pub fn row_texts(
    alloc: Global,
    names: &[String],
    rows: &[Row],
    known: &[Row],
) -> Result<Vec<String>, Memory> {
    let mut all = shortened(alloc, gathered(alloc, rows, known)?, names.len())?;
    let limits = limits_in(alloc, all.as_slice(), names.len())?;
    let mut texts = Vec::new(alloc);
    for one in all.as_mut_slice() {
        leave_out(one, limits.as_slice());
        if one.least.is_some() || one.greatest.is_some() {
            let mut text = String::new(alloc);
            put_bounded(alloc, &mut text, names, one)?;
            texts.push(text)?;
        }
    }
    Ok(texts)
}
