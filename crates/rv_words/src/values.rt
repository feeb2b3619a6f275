//! The values of arguments, read.

ghost use Rattle.std.specs.Prelude.{◌≡◌, option_map};
ghost use Rattle.clap.specs.Words.{first_of, found_of, rows_of};
ghost use Rattle.std.specs.List.{list_all};
ghost use Rattle.std.specs.Char.{is_ascii_digit};
ghost use Rattle.rv_words.specs.Words.{is_numeral, digits_of, answer_of, option_or, names_of, count_of};

use clap::ArgMatches;

/// The most stages that the words may ask for.
const MOST_COUNT: u32 = 2_000;

/// The most digits of a number.
const MOST_DIGITS: usize = 10;

/// The value of an argument, none where it was left out.
pub fn value_of<'a>(matches: &ArgMatches<'a>, id: &str) -> Option<&'a str>
    ensures { option_map (λ text. text.now) result ≡ first_of id.now (rows_of (found_of matches.now)) }
{
    matches.get_str(id)
}

/// The names of the file and the node.
pub fn names_in<'a>(matches: &ArgMatches<'a>) -> Option<(&'a str, &'a str)>
    ensures { option_map (λ names. (names.0.now, names.1.now)) result ≡ names_of (rows_of (found_of matches.now)) }
{
    Some((value_of(matches, "file")?, value_of(matches, "node")?))
}

/// The number of an option, from 1 to `most`, and `usual` where it was left out; none where its text is no such number.
pub fn limit_or<'a>(matches: &ArgMatches<'a>, id: &str, usual: u32, most: u32) -> Option<u32>
    ensures { result ≡ option_or usual (digits_of 1 most) id.now (rows_of (found_of matches.now)) }
{
    match value_of(matches, id) {
        Some(text) => number_in(text, 1, most),
        None => Some(usual),
    }
}

/// Whether an option says yes, and `usual` where it was left out; none where its text is neither `yes` nor `no`.
pub fn flag_or<'a>(matches: &ArgMatches<'a>, id: &str, usual: bool) -> Option<bool>
    ensures { result ≡ option_or usual answer_of id.now (rows_of (found_of matches.now)) }
{
    match value_of(matches, id) {
        Some("yes") => Some(true),
        Some("no") => Some(false),
        Some(_) => None,
        None => Some(usual),
    }
}

/// N of `make` and `tour`, none where its text is no such number.
pub fn count_in<'a>(matches: &ArgMatches<'a>) -> Option<u32>
    ensures { result ≡ count_of (rows_of (found_of matches.now)) }
{
    number_in(value_of(matches, "count")?, 1, MOST_COUNT)
}

/// The number that one to ten decimal digits write, where it lies from `least` to `most`.
fn number_in(text: &str, least: u32, most: u32) -> Option<u32>
    ensures { result ≡ digits_of least most text.now }
{
    if !has_digits_alone(text) {
        return None;
    }
    match text.parse::<u32>() {
        Ok(number) => if least <= number && number <= most {
            Some(number)
        } else {
            None
        },
        Err(_) => None,
    }
}

/// Whether the text is one to ten decimal digits.
fn has_digits_alone(text: &str) -> bool
    ensures { result ≡ is_numeral text.now }
{
    !text.is_empty() && text.len() <= MOST_DIGITS && are_digits(text.as_bytes())
}

/// Whether each byte is a decimal digit.
fn are_digits(bytes: &[u8]) -> bool
    ensures { result ≡ list_all (λ byte. is_ascii_digit byte) bytes.now }
{
    bytes.iter().all(|byte| byte.is_ascii_digit())
}
