//! A text is written whole, or a front of it where the sink fails.
ghost use Rattle.std.specs.Prelude.{◌≡◌, true, OnOk, OnErr};
ghost use Rattle.std.specs.Io.KnownBytes.{Appends};
ghost use Rattle.tdb_base.specs.Causes.{HasCause};
ghost use Rattle.trace_csv.specs.Output.{TakesFront};

#[cfg(test)]
mod tests;

use crate::output::{WriteFault, put};
use tdb_base::Sink;

/// Writes a whole text, in as many writes as the sink needs; after that the sink has finished.
///
/// `WriteFault` comes only where the sink's count of faults rose, and the sink then took a prefix of the
/// text.
pub fn write_text<K: Sink>(text: &[u8], sink: &mut K) -> Result<(), WriteFault>
    ensures ok { OnOk result (Appends (K.taken sink.old) (K.taken sink.new) text.now) }
    ensures settled { OnOk result (K.settled sink.new ≡ true) }
    ensures front { OnErr result (TakesFront (K.taken sink.old) (K.taken sink.new) text.now) }
    ensures cause { HasCause (K.faults sink.old) (K.faults sink.new) result }
{
    put(sink, text)?;
    match sink.finish() {
        Ok(()) => Ok(()),
        Err(_) => Err(WriteFault),
    }
}
