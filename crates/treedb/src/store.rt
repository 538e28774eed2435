//! A store is made for the lines of a trace, with all that their insertion needs.
ghost use Rattle.std.specs.Prelude.{◌≡◌, ◌≤◌, ◌<◌, ◌^◌, ℕ, All, IfOk, length};
ghost use Rattle.packed_word.specs.Word.{IsLayout};
ghost use Rattle.pair_rule.specs.Part.{IsTable};
ghost use Rattle.pair_rule.specs.Rest.{AtRest, Whole, view};
ghost use Rattle.pair_rule.specs.View.{newcomer};
ghost use Rattle.tree_store.specs.Ranges.{IsFirstOut};
ghost use Rattle.command_line.specs.Valid.{IsValid};
ghost use Rattle.command_line.specs.Rules.{flag_count};
ghost use Rattle.treedb.specs.Filling.{AreSizesOf, AwaitsTrace, FitMode, IsPartFor};

use crate::distinct::{ReadBack, take_room};
use command_line::{Choice, sizes};
use pair_rule::{Pass, RootPart, Sizes};
use std::alloc::Global;
use tdb_base::NoMemory;
use trace_csv::Trace;
use tree_shape::Shape;
use tree_store::{CreateError, TreeStore};

// The sizes of the tables of a choice.
fn store_sizes(choice: &Choice, slots: usize, lines: u64) -> Sizes
    requires { IsValid choice.now }
    ensures sizes { AreSizesOf choice.now slots lines result }
    ensures fit { FitMode choice.now result }
{
    let sizes = sizes(choice, slots, lines);
    Sizes {
        nodes: sizes.nodes,
        roots: sizes.roots,
        region: sizes.region,
        probe: sizes.probe,
    }
}

// An empty store, and its first pass.
fn make_store<R: RootPart<W, F>, const W: u32, const F: u32>(
    alloc: Global,
    slots: usize,
    sizes: &Sizes,
) -> Result<(TreeStore<R, W, F>, Pass<R, W, F>), NoMemory>
    requires layout { IsLayout W F }
    requires slots { (2 ≤ slots) × (slots ≤ 1024) }
    requires fit { (n : ℕ) → IsFirstOut R.part W sizes.now n → ⊥ }
    ensures store { IfOk result (λ made. IsTable W F R.part made.0) }
    ensures sizes { IfOk result (λ made. made.0.about.sizes ≡ sizes.now) }
    ensures slots { IfOk result (λ made. made.0.about.slots ≡ slots) }
    ensures view { IfOk result (λ made. view made.1 ≡ newcomer (R.first made.0.about) made.0.about) }
    ensures whole { IfOk result (λ made. Whole (view made.1)) }
    ensures rest { IfOk result (λ made. AtRest R.part made.0 made.1) }
{
    let Ok(shape) = Shape::new(slots) else {
        unreachable!()
    };
    match TreeStore::<R, W, F>::create(alloc, shape, sizes) {
        Ok(made) => Ok(made),
        Err(CreateError::NoMemory) => Err(NoMemory),
        Err(CreateError::Sizes(_)) => unreachable!(),
    }
}

/// A new store of a choice for the lines of a trace, its first pass, and room for their vectors where the job
/// prints them.
pub fn make_ready<R: RootPart<W, F>, const W: u32, const F: u32>(
    alloc: Global,
    choice: &Choice,
    trace: &Trace,
) -> Result<(TreeStore<R, W, F>, Pass<R, W, F>, Option<ReadBack>), NoMemory>
    requires valid { IsValid choice.now }
    requires of_mode { IsPartFor R.part choice.now }
    requires profile { (choice.now.profile ≡ W) × (F ≡ flag_count W) }
    requires layout { IsLayout W F }
    requires lines { length trace.now ≤ 2 ^ 32 }
    requires below { All (λ line. All (λ n. n < 2 ^ W) line) trace.now }
    ensures { IfOk result (λ made. AwaitsTrace R.part choice.now trace.now made.0 made.1 made.2) }
{
    let slots = trace.slots();
    let sizes = store_sizes(choice, slots, trace.len());
    let (store, pass) = make_store::<R, W, F>(alloc, slots, &sizes)?;
    let room = take_room(alloc, choice.job, slots, trace.len())?;
    Ok((store, pass, room))
}
