//! The number that a field of a record writes, read from its front.
ghost use Rattle.std.specs.Prelude.{◌≡◌, ◌≤◌, ◌<◌, ◌^◌, take, Some, IfSome, IfNone, length, option_map};
ghost use Rattle.std.specs.Char.{is_ascii_digit};
ghost use Rattle.std.specs.List.{prefix_len};
ghost use Rattle.std.specs.Str.Parse.{digits_value};
ghost use Rattle.trace_csv.specs.Fields.{after_minus, has_minus, is_space, written};
ghost use Rattle.trace_csv.specs.Words.{FitsWord, HasNoNumber, HasNumber, number_value, word_of};

use crate::number::Number;
use crate::{Form, TraceError};

// How many spaces stand at the front.
fn leading_spaces(text: &[u8]) -> usize
    ensures count { result ≡ prefix_len is_space text.now }
    ensures within { result ≤ length text.now }
{
    for (i, byte) in text.iter().enumerate() {
        if *byte != b' ' {
            return i;
        }
    }
    text.len()
}

// The number that the digits at the front write, and how many they are. More than 10 are refused.
#[inline(always)]
fn leading_digits(text: &[u8]) -> Option<(u64, usize)>
    ensures many { IfNone result (10 < prefix_len is_ascii_digit text.now) }
    ensures count { IfSome result (λ r. r.1 ≡ prefix_len is_ascii_digit text.now) }
    ensures few { IfSome result (λ r. r.1 ≤ 10) }
    ensures value { IfSome result (λ r. r.0 ≡ digits_value 10 (take r.1 text.now)) }
{
    let mut value = 0u64;
    for (i, byte) in text.iter().enumerate() {
        if !byte.is_ascii_digit() {
            return Some((value, i));
        }
        if i == 10 {
            return None;
        }
        value = value * 10 + u64::from(*byte - b'0');
    }
    Some((value, text.len()))
}

// The text after a minus at the front, and whether there is one that the form takes.
#[inline(always)]
fn split_minus<'a>(text: &'a [u8], form: Form) -> (bool, &'a [u8])
    ensures minus { result.0 ≡ has_minus form text.now }
    ensures after { result.1.now ≡ after_minus form text.now }
{
    match (form, text) {
        (Form::Signed, [b'-', after @ ..]) => (true, after),
        _ => (false, text),
    }
}

// The number at a text's front, and the text after it.
#[inline(always)]
pub(crate) fn leading_number<'a>(text: &'a [u8], form: Form) -> Option<(Number, &'a [u8])>
    ensures none { IfNone result (HasNoNumber form text.now) }
    ensures some { IfSome result (λ r. HasNumber form text.now r.0 r.1.now) }
{
    let (negative, digits) = split_minus(text, form);
    let (size, count) = leading_digits(digits)?;
    if count == 0 {
        return None;
    }
    let (_, rest) = digits.split_at(count);
    Some((Number { negative, size }, rest))
}

// The number that a field without spaces writes.
fn number_alone(field: &[u8], form: Form) -> Option<Number>
    ensures { IfSome result (λ n. written form field.now ≡ Some (number_value n)) }
{
    let (number, rest) = leading_number(field, form)?;
    if rest.is_empty() { Some(number) } else { None }
}

// The number that a field writes, if it writes one, with any spaces round it.
#[inline(never)]
fn number_among_spaces(field: &[u8], form: Form) -> Option<Number>
    ensures { option_map number_value result ≡ written form field.now }
{
    let (_, text) = field.split_at(leading_spaces(field));
    let Some((number, rest)) = leading_number(text, form) else {
        return None;
    };
    if leading_spaces(rest) < rest.len() {
        return None;
    }
    Some(number)
}

// The number that a field writes, if it writes one. Most fields have no spaces.
fn number_of(field: &[u8], form: Form) -> Option<Number>
    ensures { option_map number_value result ≡ written form field.now }
{
    if let Some(number) = number_alone(field, form) {
        return Some(number);
    }
    number_among_spaces(field, form)
}

// The number that a field of a record writes, modulo 2^32.
pub(crate) fn word(text: &[u8], form: Form, row: u64, field: u64) -> Result<u32, TraceError>
    requires { FitsWord form }
    ensures { result ≡ word_of form row field text.now }
{
    let Some(number) = number_of(text, form) else {
        return Err(TraceError::NotANumber(row, field));
    };
    let Some(word) = number.word(form) else {
        return Err(TraceError::TooBig(row, field));
    };
    Ok(word)
}
