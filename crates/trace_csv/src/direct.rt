//! A trace's lines straight from its bytes, where these are numbers, commas and line ends alone.
ghost use Rattle.std.specs.Prelude.{◌≡◌, ◌≤◌, IfSome, Ok};
ghost use Rattle.trace_csv.specs.Direct.{AddsFirstLine, AddsNumber};
ghost use Rattle.trace_csv.specs.Trace.{trace_of};
ghost use Rattle.trace_csv.specs.Words.{FitsWord};

use crate::field::leading_number;
use crate::number::add_word;
use crate::{Form, Trace};
use std::alloc::Global;

// The most slots of a line.
const MOST_SLOTS: usize = 1024;

// The lines of a trace in which each line is numbers of the form with commas between them, no quotes and no
// spaces, and ends in LF or CRLF, the last one perhaps in neither.
//
// None says nothing of the bytes: `csv` is to read them. That it isn't the answer to every text is no clause.
pub(crate) fn read_directly(alloc: Global, bytes: &[u8], form: Form) -> Option<Trace>
    requires { FitsWord form }
    ensures { IfSome result (λ trace. trace_of form bytes.now ≡ Ok trace) }
{
    let mut numbers = Vec::new(alloc);
    let mut rest = add_first_line(bytes, form, &mut numbers)?;
    let slots = numbers.len();
    if slots < form.slots(2) || slots > MOST_SLOTS {
        return None;
    }
    for lines in 1..u64::MAX {
        if rest.is_empty() {
            return Some(Trace::of_numbers(numbers, slots, lines));
        }
        let before = numbers.len();
        rest = add_first_line(rest, form, &mut numbers)?;
        if numbers.len() - before != slots {
            return None;
        }
    }
    None
}

// Adds the numbers of a text's first line, and gives the text after it.
fn add_first_line<'a>(text: &'a [u8], form: Form, numbers: &mut Vec<u32>) -> Option<&'a [u8]>
    requires { FitsWord form }
    ensures { IfSome result (λ rest.
        AddsFirstLine form text.now rest.now numbers.old.items numbers.new.items) }
{
    let mut rest = text;
    for _field in 0..MOST_SLOTS {
        let after = add_number(rest, form, numbers)?;
        match after {
            [] => return Some(after),
            [b',', more @ ..] => rest = more,
            [b'\n', more @ ..] => return Some(more),
            [b'\r', more @ ..] => return more.strip_prefix(b"\n"),
            _ => return None,
        }
    }
    None
}

// Adds the slots of the number at a text's front, and gives the text after it.
fn add_number<'a>(text: &'a [u8], form: Form, numbers: &mut Vec<u32>) -> Option<&'a [u8]>
    requires { FitsWord form }
    ensures { IfSome result (λ rest. AddsNumber form text.now rest.now numbers.old.items numbers.new.items) }
{
    let (number, rest) = leading_number(text, form)?;
    let word = number.word(form)?;
    let Ok(()) = add_word(word, form, numbers) else {
        return None;
    };
    Some(rest)
}
