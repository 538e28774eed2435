//! An input as it comes in, to its end.
ghost use Rattle.std.specs.Prelude.{◌≡◌, ◌≤◌, ◌<◌, ◌+◌, ◌++◌, [], IfOk, OnOk, OnErr, IfSome, IsErrOf};
ghost use Rattle.std.specs.Prelude.{length, vec_capacity, vec_len};
ghost use Rattle.std.specs.Io.KnownBytes.{IsAtEnd};
ghost use Rattle.tdb_base.specs.Causes.{Rose};
ghost use Rattle.trace_csv.specs.Input.{ReadsWithin, limit};

use std::alloc::{AllocError, Global};
use tdb_base::Source;
use thiserror::Error;

/// Why an input was not read to its end.
#[derive(Clone, Copy, Debug, PartialEq, Eq, Drop, Error)]
pub enum InError {
    /// The source failed.
    #[error("a read failed")]
    ReadFault,
    /// The source gave more than 67,108,864 bytes.
    #[error("input is over 67108864 bytes")]
    TooMuch,
    /// Memory ran out.
    #[error("no memory")]
    NoMemory,
}

// The most bytes of an input.
const LIMIT: usize = 67_108_864;

// The bytes that are asked for in one read.
const ROOM: usize = 65_536;

/// Every byte that the source has left, at most 67,108,864 of them, read to its end.
///
/// With `ReadFault` the source's count of faults rose in the call. `TooMuch` is the answer to a source that
/// gave more than that, and to no other. `NoMemory` says that memory ran out, which may be anywhere.
pub fn read_all<S: Source>(alloc: Global, source: &mut S) -> Result<Vec<u8>, InError>
    ensures bytes { IfOk result (λ v. IfSome (S.left source.old) (λ b. v.items ≡ b)) }
    ensures end { OnOk result (IsAtEnd (S.left source.new)) }
    ensures within { IfOk result (λ v. vec_len v ≤ limit) }
    ensures gave { ReadsWithin (S.left source.old) (S.left source.new) result }
    ensures later { S.faults source.old ≤ S.faults source.new }
    ensures fault { IsErrOf result InError.ReadFault → Rose (S.faults source.old) (S.faults source.new) }
{
    let mut all = Vec::new(alloc);
    read_to_end(source, &mut all)?;
    Ok(all)
}

// Every byte that the source has left, into a list that is empty.
//
// `NoMemory` comes only where the list has no room for what one read gives.
fn read_to_end<S: Source>(source: &mut S, all: &mut Vec<u8>) -> Result<(), InError>
    requires { all.old.items ≡ [] }
    ensures bytes { OnOk result (IfSome (S.left source.old) (λ b. all.new.items ≡ b)) }
    ensures end { OnOk result (IsAtEnd (S.left source.new)) }
    ensures within { OnOk result (vec_len all.new ≤ limit) }
    ensures gave { ReadsWithin (S.left source.old) (S.left source.new) result }
    ensures later { S.faults source.old ≤ S.faults source.new }
    ensures fault { IsErrOf result InError.ReadFault → Rose (S.faults source.old) (S.faults source.new) }
    ensures memory { IsErrOf result InError.NoMemory → vec_capacity all.new < vec_len all.new + 65536 }
{
    let mut buffer = [0u8; ROOM];
    for _turn in 0..LIMIT + 1 {
        let Ok(count) = source.read(&mut buffer) else {
            return Err(InError::ReadFault);
        };
        if count == 0 {
            return Ok(());
        }
        if count > LIMIT - all.len() {
            return Err(InError::TooMuch);
        }
        if add_piece(&buffer[..count], all).is_err() {
            return Err(InError::NoMemory);
        }
    }
    unreachable!()
}

// Adds a piece to what was read, and fails only where there is no room for it.
//
// Where a second piece has no room, room for all that may come is asked for at once, so that no byte is moved
// more than once. Where there isn't so much, the list grows as it fills.
fn add_piece(piece: &[u8], all: &mut Vec<u8>) -> Result<(), AllocError>
    requires { vec_len all.old + length piece.now ≤ limit }
    ensures added { OnOk result (all.new.items ≡ all.old.items ++ piece.now) }
    ensures memory { OnErr result (vec_capacity all.new < vec_len all.new + length piece.now) }
{
    if !all.is_empty() && all.capacity() - all.len() < piece.len() {
        let _ = all.reserve_exact(LIMIT - all.len());
    }
    all.reserve(piece.len())?;
    let Ok(()) = all.extend_from_slice(piece) else {
        unreachable!()
    };
    Ok(())
}
