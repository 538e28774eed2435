//! The laws of words and of fields, each as the contract of a function that does nothing.
ghost use Rattle.packed_word.specs.Laws.{SetsFlag, ClearsFlag, WordHasParts, PartsMakeWord, PairIsLowest};
ghost use Rattle.packed_word.specs.Laws.{SetsFlagOfWord, ClearsFlagOfWord, FlagIsBit, SetsBit, ClearsBit};
ghost use Rattle.packed_word.specs.Laws.{FieldFits, FieldHasBits};

/// `word | flag_mask(b)` sets flag `b` alone, and `word & !flag_mask(b)` clears it alone.
pub fn flags_change_alone()
    ensures sets { SetsFlag }
    ensures clears { ClearsFlag }
{}

/// The number `2^63 + f * 2^(2W) + p` is the present word of the pair `p` with the flags `f`, and a flag that
/// is set or cleared makes it the word of this pair and the number with this bit set or cleared.
pub fn words_are_numbers()
    ensures parts { WordHasParts }
    ensures whole { PartsMakeWord }
    ensures pair { PairIsLowest }
    ensures sets { SetsFlagOfWord }
    ensures clears { ClearsFlagOfWord }
{}

/// Flag `b` of a word is bit `b` of its flags as a number.
pub fn flag_is_bit()
    ensures { FlagIsBit }
{}

/// To set or to clear a bit of a number leaves each other bit.
pub fn bits_change_alone()
    ensures sets { SetsBit }
    ensures clears { ClearsBit }
{}

/// A field is the number of its width that has the slice's bits.
pub fn field_is_its_bits()
    ensures fits { FieldFits }
    ensures bits { FieldHasBits }
{}
