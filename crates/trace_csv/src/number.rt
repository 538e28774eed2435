//! A number as a field writes it, and the word of 32 bits and the slots that it becomes.
ghost use Rattle.std.specs.Prelude.{◌≡◌, ◌≤◌, ◌<◌, ◌+◌, ◌^◌, ◌++◌, ◌∷◌, [], OnOk, OnErr, vec_len, vec_capacity};
ghost use Rattle.trace_csv.specs.Words.{FitsWord, signed_word, slots_in, spread, unsigned_word, word_in};

use crate::Form;
use std::alloc::AllocError;

/// A number as a field writes it: what its digits write, and whether a minus stands before them.
#[derive(Clone, Copy)]
pub(crate) struct Number {
    pub(crate) negative: bool,
    pub(crate) size: u64,
}

impl Number {
    // The number modulo 2^32, where it is in the form's range.
    #[inline(always)]
    pub(crate) fn word(self, form: Form) -> Option<u32>
        requires { FitsWord form }
        ensures { result ≡ word_in form self }
    {
        match form {
            Form::Unsigned(width) => self.unsigned_word(width),
            Form::Signed => self.signed_word(),
        }
    }

    #[inline(always)]
    fn unsigned_word(self, width: u32) -> Option<u32>
        requires { width ≤ 31 }
        ensures { result ≡ unsigned_word width self }
    {
        if self.size < 1 << width {
            Some(self.size as u32)
        } else {
            None
        }
    }

    #[inline(always)]
    fn signed_word(self) -> Option<u32>
        ensures { result ≡ signed_word self }
    {
        if self.size > 1 << 31 {
            return None;
        }
        if self.negative {
            return Some((self.size as u32).wrapping_neg());
        }
        if self.size == 1 << 31 {
            return None;
        }
        Some(self.size as u32)
    }
}

// Adds the slots of a word to the numbers.
//
// It fails only where there is no room for them.
#[inline(always)]
pub(crate) fn add_word(word: u32, form: Form, numbers: &mut Vec<u32>) -> Result<(), AllocError>
    ensures added { OnOk result (numbers.new.items ≡ numbers.old.items ++ spread form (word ∷ [])) }
    ensures memory { OnErr result (vec_capacity numbers.old < vec_len numbers.old + slots_in form 1) }
    ensures longer { OnOk result (vec_len numbers.new ≡ vec_len numbers.old + slots_in form 1) }
    ensures kept { vec_capacity numbers.old ≤ vec_capacity numbers.new }
{
    match form {
        Form::Unsigned(_) => numbers.push(word)?,
        Form::Signed => {
            numbers.push(word / 65536)?;
            numbers.push(word % 65536)?;
        }
    }
    Ok(())
}
