//! The trace that standard input gives, for stores of one width.
ghost use Rattle.std.specs.Prelude.{◌≡◌, true, All};
ghost use Rattle.pair_rule.specs.Part.{IsTable};
ghost use Rattle.tree_store.specs.Vectors.{IsVector};

use pair_rule::RootPart;
use std::io;
use tdb_base::StdSource;
use trace_csv::{Trace, read_all, read_trace};
use tree_store::TreeStore;

/// The bits of a slot.
pub const WIDTH: u32 = 28;

/// The flags of a vector.
pub const FLAGS: u32 = 7;

/// The trace of standard input; none, where it gives none, and standard error says so.
pub fn read_input(rt: &HostRuntime) -> io::Result<Option<Trace>> {
    let alloc = rt.alloc();
    let Ok(bytes) = read_all(alloc, &mut StdSource::new(rt.reader())) else {
        eprintln!(rt; "measure: the input was not read")?;
        return Ok(None);
    };
    let Ok(trace) = read_trace(alloc, &bytes, WIDTH) else {
        eprintln!(rt; "measure: the input is no trace")?;
        return Ok(None);
    };
    Ok(Some(trace))
}

/// Whether the store can keep each line of the trace.
pub fn all_fit<R: RootPart<WIDTH, FLAGS>>(store: &TreeStore<R, WIDTH, FLAGS>, trace: &Trace) -> bool
    ensures { result ≡ true → All (IsVector store.now.about) trace.now }
{
    for i in 0..trace.len() {
        if !store.fits(trace.line(i)) {
            return false;
        }
    }
    true
}
