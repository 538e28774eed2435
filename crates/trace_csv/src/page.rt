//! A page of text on the stack, which goes to a sink when it is full.
ghost use Rattle.std.specs.Prelude.{◌≡◌, ◌+◌, ◌≤◌, ℕ, List, [], ◌++◌, length, take, true, OnOk, OnErr};
ghost use Rattle.std.specs.Prelude.{IsTrue, ◌↔◌};
ghost use Rattle.std.specs.Fmt.{decimal, signed_decimal};
ghost use Rattle.std.specs.Io.KnownBytes.{Appends};
ghost use Rattle.tdb_base.specs.Causes.{HasCause};
ghost use Rattle.trace_csv.specs.Output.{TakesFront};
ghost use Rattle.trace_csv.specs.Page.{Carries, HasRoom, page_size};

use crate::output::{WriteFault, finish, put};
use itoa::Buffer;
use std::marker::Model;
use tdb_base::Sink;

// How many bytes a page holds.
const SIZE: usize = 8192;

// The room that is made at once: a number, or the whole end of a report.
const ROOM: usize = 256;

/// The end of a text that is on its way to a sink: a buffer on the stack, so that a sink is called for many
/// lines at once.
#[derive(Drop)]
pub struct Page {
    bytes: [u8; SIZE],
    len: usize,
}

impl Model for Page {
    ghost Value = { List ℕ };

    ghost view = { λ p. take p.len p.bytes };

    ghost invariant = { λ p. p.len ≤ page_size };
}

impl Page {
    /// A page with nothing on it.
    pub fn new() -> Page
        ensures { result ≡ [] }
    {
        Page {
            bytes: [0; SIZE],
            len: 0,
        }
    }

    /// The bytes that were added since it was cleared.
    pub fn as_slice(&self) -> &[u8]
        ensures { result.now ≡ self.now }
    {
        &self.bytes[..self.len]
    }

    /// Whether there is room for a line of a report, with 256 bytes.
    pub fn has_room(&self) -> bool
        ensures { IsTrue result ↔ HasRoom self.now 256 }
    {
        self.len <= SIZE - ROOM
    }

    /// Takes all bytes off.
    pub fn clear(&mut self)
        ensures { self.new ≡ [] }
    {
        self.len = 0;
    }

    /// Adds bytes for which there is room.
    pub fn add(&mut self, piece: &[u8])
        requires { HasRoom self.old (length piece.now) }
        ensures { self.new ≡ self.old ++ piece.now }
    {
        let end = self.len + piece.len();
        self.bytes[self.len..end].copy_from_slice(piece);
        self.len = end;
    }

    /// Adds the decimal text of a number, at most 20 bytes.
    pub fn add_number(&mut self, n: u64)
        requires { HasRoom self.old 20 }
        ensures text { self.new ≡ self.old ++ decimal n }
        ensures short { length self.new ≤ length self.old + 20 }
    {
        let mut buffer = Buffer::new();
        self.add(buffer.format(n).as_bytes());
    }

    /// Adds the decimal text of a signed number, at most 11 bytes.
    pub fn add_signed(&mut self, n: i32)
        requires { HasRoom self.old 20 }
        ensures text { self.new ≡ self.old ++ signed_decimal n }
        ensures short { length self.new ≤ length self.old + 20 }
    {
        let mut buffer = Buffer::new();
        self.add(buffer.format(n).as_bytes());
    }
}

// Makes room for 256 bytes: a page that has too little is handed to the sink.
pub(crate) fn make_room<K: Sink>(page: &mut Page, sink: &mut K) -> Result<(), WriteFault>
    ensures room { OnOk result (HasRoom page.new 256) }
    ensures ok { OnOk result (Carries (K.taken sink.old) (K.taken sink.new) page.old page.new []) }
    ensures front { OnErr result (TakesFront (K.taken sink.old) (K.taken sink.new) page.old) }
    ensures cause { HasCause (K.faults sink.old) (K.faults sink.new) result }
{
    if page.has_room() {
        return Ok(());
    }
    put(sink, page.as_slice())?;
    page.clear();
    Ok(())
}

// The end of a text: what the page still holds, and then the sink's end.
pub(crate) fn close<K: Sink>(page: &Page, sink: &mut K) -> Result<(), WriteFault>
    ensures ok { OnOk result (Appends (K.taken sink.old) (K.taken sink.new) page.now) }
    ensures settled { OnOk result (K.settled sink.new ≡ true) }
    ensures front { OnErr result (TakesFront (K.taken sink.old) (K.taken sink.new) page.now) }
    ensures cause { HasCause (K.faults sink.old) (K.faults sink.new) result }
{
    put(sink, page.as_slice())?;
    finish(sink)?;
    Ok(())
}
