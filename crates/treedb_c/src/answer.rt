//! Answers as codes, and what is written beside them.
ghost use Rattle.std.specs.Prelude.{◌≡◌};
ghost use Rattle.treedb_c.specs.declared.code.Code.TheVariants as c;
ghost use Rattle.treedb_c.specs.Handles.{code_of, id_after, found_code, flag_code, flags_code, flags_after};

use crate::code::Code;
use tdb_base::Reply;

/// The code of an insertion's reply, with its identifier.
pub(crate) fn inserted(reply: Option<Reply>, id: &mut u64) -> Code
    ensures code { result ≡ code_of reply }
    ensures id { id.new ≡ id_after reply id.old }
{
    match reply {
        Some(Reply::New(given)) => {
            *id = given;
            Code::New
        }
        Some(Reply::Seen(known)) => {
            *id = known;
            Code::Seen
        }
        Some(Reply::FullNodes) => Code::FullNodes,
        Some(Reply::FullRoots) => Code::FullRoots,
        None => Code::BadVector,
    }
}

/// The code of a search for an identifier.
pub(crate) fn found(answer: Option<bool>) -> Code
    ensures { result ≡ found_code answer }
{
    match answer {
        Some(true) => Code::Seen,
        Some(false) => Code::NoName,
        None => Code::BadVector,
    }
}

/// The code of setting a flag, which tells whether it was clear.
pub(crate) fn flag_set(first: Result<bool, Code>) -> Code
    ensures { result ≡ flag_code c.WasClear c.WasSet first }
{
    match first {
        Ok(true) => Code::WasClear,
        Ok(false) => Code::WasSet,
        Err(code) => code,
    }
}

/// The code of clearing a flag, which tells whether it was set.
pub(crate) fn flag_cleared(first: Result<bool, Code>) -> Code
    ensures { result ≡ flag_code c.WasSet c.WasClear first }
{
    match first {
        Ok(true) => Code::WasSet,
        Ok(false) => Code::WasClear,
        Err(code) => code,
    }
}

/// The code of reading flags, with the flags.
pub(crate) fn read(told: Option<u64>, flags: &mut u64) -> Code
    ensures code { result ≡ flags_code told }
    ensures flags { flags.new ≡ flags_after told flags.old }
{
    match told {
        Some(given) => {
            *flags = given;
            Code::Done
        }
        None => Code::NoName,
    }
}
