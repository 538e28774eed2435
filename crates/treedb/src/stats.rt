//! The statistics: the counts of a store, and the summary of its replies.
ghost use Rattle.std.specs.Prelude.{◌≡◌};
ghost use Rattle.pair_rule.specs.Rest.{AtRest, view};
ghost use Rattle.trace_csv.specs.Report.{summary_of};
ghost use Rattle.treedb.specs.Answered.{CountsOf};
ghost use Rattle.treedb.specs.Stored.{AreTold, raw_in};

use pair_nodes::RootNames;
use pair_rule::Pass;
use tdb_base::Reply;
use trace_csv::{Form, Stats, Summary};
use tree_store::{TreeStore, raw_bytes_of, stored_bytes_of};

// The bytes of the numbers that some slots keep, by the bytes of the slots.
fn raw_in(form: Form, bytes: u64) -> u64
    ensures { result ≡ raw_in form bytes }
{
    match form {
        Form::Unsigned(_) => bytes,
        Form::Signed => bytes / 2,
    }
}

/// The counts of the store with these names as the pass tells them, if they are asked for. Its slots keep
/// numbers of the form.
pub fn stats_of<N: RootNames<W, F>, const W: u32, const F: u32>(
    names: &N,
    store: &TreeStore<N::Part, W, F>,
    pass: &Pass<N::Part, W, F>,
    form: Form,
    asked: bool,
) -> Option<Stats>
    requires names { N.store names.now ≡ store.now }
    requires rest { AtRest N.Part.part store.now pass.now }
    ensures { AreTold asked result (CountsOf form N.Part.part store.now.about (view pass.now)) }
{
    if !asked {
        return None;
    }
    Some(Stats {
        nodes: store.nodes_made(pass),
        stored: stored_bytes_of(names, store, pass),
        raw: raw_in(form, raw_bytes_of(names, store, pass)),
    })
}

/// The summary of some replies.
pub fn summary(replies: &[Reply], stats: Option<Stats>) -> Summary
    ensures { result ≡ summary_of replies.now stats }
{
    Summary {
        lines: replies.len() as u64,
        distinct: replies.iter().filter(|reply| reply.is_new()).count() as u64,
        stats,
    }
}
