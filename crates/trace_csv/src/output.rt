//! That a sink failed.
ghost use Rattle.std.specs.Prelude.{◌≡◌, [], true, OnOk, OnErr};
ghost use Rattle.std.specs.Io.KnownBytes.{Appends};
ghost use Rattle.tdb_base.specs.Causes.{HasCause};
ghost use Rattle.trace_csv.specs.Output.{TakesFront};

use tdb_base::Sink;
use thiserror::Error;

/// The sink failed.
#[derive(Clone, Copy, Debug, PartialEq, Eq, Drop, Error)]
#[error("a write failed")]
pub struct WriteFault;

// The whole piece, in as many writes as the sink needs.
pub(crate) fn put<K: Sink>(sink: &mut K, piece: &[u8]) -> Result<(), WriteFault>
    ensures ok { OnOk result (Appends (K.taken sink.old) (K.taken sink.new) piece.now) }
    ensures front { OnErr result (TakesFront (K.taken sink.old) (K.taken sink.new) piece.now) }
    ensures cause { HasCause (K.faults sink.old) (K.faults sink.new) result }
{
    let mut rest = piece;
    while !rest.is_empty() {
        let Ok(count) = sink.write(rest) else {
            return Err(WriteFault);
        };
        let (_, after) = rest.split_at(count);
        rest = after;
    }
    Ok(())
}

// The sink's end.
pub(crate) fn finish<K: Sink>(sink: &mut K) -> Result<(), WriteFault>
    ensures settled { OnOk result (K.settled sink.new ≡ true) }
    ensures same { Appends (K.taken sink.old) (K.taken sink.new) [] }
    ensures cause { HasCause (K.faults sink.old) (K.faults sink.new) result }
{
    match sink.finish() {
        Ok(()) => Ok(()),
        Err(_) => Err(WriteFault),
    }
}
