//! What a call answers a C program.

/// What a call answers, which a C program sees as a number: 0 and above for what was asked, below 0 for each
/// reason why not.
#[derive(Clone, Copy, Debug, PartialEq, Eq)]
pub enum Code {
    /// Done.
    Done,
    /// The vector got its identifier by this call.
    New,
    /// The vector had its identifier.
    Seen,
    /// The flag was clear until this call.
    WasClear,
    /// The flag was set until this call.
    WasSet,
    /// The handle stands for nothing.
    NoHandle,
    /// The handle that is to be made stands for something.
    InUse,
    /// Memory ran out.
    NoMemory,
    /// There is no such profile.
    BadProfile,
    /// A vector has fewer slots than 2 or more than 1024.
    BadSlots,
    /// The size of the table of nodes is out of its range.
    BadNodes,
    /// The size of the table of roots is out of its range.
    BadRoots,
    /// The number of lines of a path is out of its range.
    BadProbe,
    /// The vector has not the store's number of slots, or a slot is too large.
    BadVector,
    /// There is no such flag.
    BadFlag,
    /// No vector has the identifier.
    NoName,
    /// The table of nodes has no place for the vector, for good.
    FullNodes,
    /// The table of roots has no place for the vector, for good.
    FullRoots,
    /// No store has room for so many states.
    TooMany,
}

impl Code {
    ghost use Rattle.std.specs.Prelude.{◌≡◌};
    ghost use Rattle.treedb_c.specs.Codes.{number_of};

    /// The code as a C program sees it.
    pub fn number(self) -> i32
        ensures { result ≡ number_of self }
    {
        match self {
            Code::Done => 0,
            Code::New => 1,
            Code::Seen => 2,
            Code::WasClear => 3,
            Code::WasSet => 4,
            Code::NoHandle => -1,
            Code::InUse => -2,
            Code::NoMemory => -3,
            Code::BadProfile => -4,
            Code::BadSlots => -5,
            Code::BadNodes => -6,
            Code::BadRoots => -7,
            Code::BadProbe => -8,
            Code::BadVector => -9,
            Code::BadFlag => -10,
            Code::NoName => -11,
            Code::FullNodes => -12,
            Code::FullRoots => -13,
            Code::TooMany => -14,
        }
    }
}
