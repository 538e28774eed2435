//! What stands at the front of a text: a word, a number, or something else.

ghost use Rattle.std.specs.Prelude.{◌≡◌, ◌≤◌, ◌<◌, ◌+◌, ◌*◌, ◌↔◌, ℕ, false, IsTrue, length};
ghost use Rattle.std.specs.Prelude.{slice_index, take};
ghost use Rattle.std.specs.Char.{is_ascii_digit};
ghost use Rattle.std.specs.Fmt.{decimal};
ghost use Rattle.std.specs.List.{prefix_len};
ghost use Rattle.std.specs.Str.Parse.{digits_value};
ghost use Rattle.run_check.specs.Reading.{IsCapped, IsReplyWord, Reads, ReadsWord, number_to};

use itoa::Buffer;

// Why the wanted word doesn't stand at the front of a text.
#[derive(Clone, Copy, Debug, PartialEq, Eq)]
pub(crate) enum Fault {
    // The text ends within the word.
    Short,
    // The text goes on otherwise.
    Wrong,
}

// What follows a word at the front of a text.
pub(crate) fn after<'a>(text: &'a [u8], word: &[u8]) -> Result<&'a [u8], Fault>
    ensures { ReadsWord word.now text.now result }
{
    if let Some(rest) = text.strip_prefix(word) {
        return Ok(rest);
    }
    if word.starts_with(text) {
        return Err(Fault::Short);
    }
    Err(Fault::Wrong)
}

// What follows this number at the front of a text.
pub(crate) fn after_number(text: &[u8], number: u64) -> Result<&[u8], Fault>
    ensures { ReadsWord (decimal number) text.now result }
{
    let mut buffer = Buffer::new();
    after(text, buffer.format(number).as_bytes())
}

// A number at the front of a text, and what follows the byte after it, which is to be this one.
pub(crate) fn number(text: &[u8], stop: u8) -> Result<(u64, &[u8]), Fault>
    requires { is_ascii_digit stop ≡ false }
    ensures { Reads (number_to stop) IsReplyWord text.now result }
{
    let (value, count) = leading_number(text);
    let Some(value) = value else {
        return Err(Fault::Wrong);
    };
    if is_padded(text, count) {
        return Err(Fault::Wrong);
    }
    let (_, rest) = text.split_at(count);
    if rest.is_empty() {
        return Err(Fault::Short);
    }
    if count == 0 {
        return Err(Fault::Wrong);
    }
    if rest[0] != stop {
        return Err(Fault::Wrong);
    }
    Ok((value, &rest[1..]))
}

// Whether a zero stands before other digits, of which there are so many at the front.
fn is_padded(text: &[u8], count: usize) -> bool
    requires { count ≤ length text.now }
    ensures { IsTrue result ↔ ((1 < count) × (slice_index text.now 0 ≡ 48)) }
{
    count > 1 && text[0] == b'0'
}

// The number that the digits at the front write, if it has 64 bits, and how many digits they are.
fn leading_number(text: &[u8]) -> (Option<u64>, usize)
    ensures count { result.1 ≡ prefix_len is_ascii_digit text.now }
    ensures within { result.1 ≤ length text.now }
    ensures value { IsCapped result.0 (digits_value 10 (take result.1 text.now)) }
{
    let mut value = Some(0);
    for (i, byte) in text.iter().enumerate() {
        if !byte.is_ascii_digit() {
            return (value, i);
        }
        value = with_digit(value, *byte - b'0');
    }
    (value, text.len())
}

// A number with one digit more, if it still has 64 bits.
fn with_digit(value: Option<u64>, digit: u8) -> Option<u64>
    ensures { (n : ℕ) → IsCapped value n → IsCapped result (n * 10 + digit) }
{
    value?.checked_mul(10)?.checked_add(u64::from(digit))
}
