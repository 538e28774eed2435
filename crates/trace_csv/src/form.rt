//! How a trace writes its numbers, and how many slots they have.
ghost use Rattle.std.specs.Prelude.{◌≡◌, ◌≤◌};
ghost use Rattle.trace_csv.specs.Trace.{most_fields};
ghost use Rattle.trace_csv.specs.Words.{fields_in, slots_in};

/// How a trace writes its numbers.
#[derive(Clone, Copy, Debug, PartialEq, Eq)]
pub enum Form {
    /// Unsigned, each below 2 to this power. A number is a slot.
    Unsigned(u32),
    /// Signed, each from -2147483648 to 2147483647. A number is two slots of 16 bits, the high one first.
    Signed,
}

impl Form {
    // How many slots the numbers of so many fields have.
    pub(crate) fn slots(self, fields: usize) -> usize
        requires { fields ≤ 1024 }
        ensures { result ≡ slots_in self fields }
    {
        match self {
            Form::Unsigned(_) => fields,
            Form::Signed => 2 * fields,
        }
    }

    // How many fields write so many slots.
    pub(crate) fn fields(self, slots: usize) -> usize
        ensures { result ≡ fields_in self slots }
    {
        match self {
            Form::Unsigned(_) => slots,
            Form::Signed => slots / 2,
        }
    }

    // The most fields of a record.
    pub(crate) fn most_fields(self) -> usize
        ensures value { result ≡ most_fields self }
        ensures few { result ≤ 1024 }
    {
        match self {
            Form::Unsigned(_) => 1024,
            Form::Signed => 512,
        }
    }
}
