//! What a worker does with a line.
ghost use Rattle.std.specs.Prelude.{◌≡◌, ◌∷◌, []};
ghost use Rattle.pair_rule.specs.Rest.{AtRest};
ghost use Rattle.tree_store.specs.Vectors.{IsVector};
ghost use Rattle.work_run.specs.Inserted.{Inserted};
ghost use Rattle.work_run.specs.Telling.{insertion, marking};

use crate::shared::Shared;
use pair_rule::PassOf;
use tdb_base::{Kept, Reply, Steps};

/// Inserts lines into a store, and does with their vectors what else is to be done.
pub(crate) trait Task: Sync {
    ghost use Rattle.std.specs.Prelude.{◌≡◌, ◌∷◌, [], ℕ};
    ghost use Rattle.pair_rule.specs.Rest.{AtRest};
    ghost use Rattle.tree_store.specs.Vectors.{IsVector};
    ghost use Rattle.work_run.specs.Inserted.{Inserted};
    ghost use Rattle.work_run.specs.Telling.{Telling};

    /// What a line is answered.
    type Answer: Copy + Send;

    // What an answer tells.
    ghost telling: { Self → Telling Self.Answer };

    // It can be done where vectors have so many flags.
    ghost fits: { Self → ℕ → Type 0 };

    /// Does it with one line, through a pass of the store.
    fn answer<S: Shared>(
        &self,
        store: &S,
        pass: &mut PassOf<S::View>,
        line: &[u32],
        steps: &mut Steps<Kept>,
    ) -> Self::Answer
        requires fits { fits self.now (S.store store.now).about.flags }
        requires rest { AtRest S.part (S.store store.now) pass.old }
        requires vector { IsVector (S.store store.now).about line.now }
        ensures inserted { Inserted S.part (S.store store.now) (line.now ∷ [])
            ((telling self.now).reply result ∷ [])
            (λ caller. (telling self.now).entries caller line.now result) pass.old pass.new }
        ensures proper { (telling self.now).proper result };
}

/// A line is inserted, and nothing else.
#[derive(Clone, Copy)]
pub(crate) struct Insertion;

impl Task for Insertion {
    ghost use Rattle.std.specs.Prelude.{⊤};
    ghost use Rattle.work_run.specs.Telling.{insertion};

    type Answer = Reply;

    ghost telling = { λ t. insertion };

    ghost fits = { λ t flags. ⊤ };

    fn answer<S: Shared>(
        &self,
        store: &S,
        pass: &mut PassOf<S::View>,
        line: &[u32],
        steps: &mut Steps<Kept>,
    ) -> Reply {
        store.insert_from(pass, line, steps)
    }
}

/// A line is inserted, and then this flag of its vector is set: the reply, and whether the flag was clear. A
/// line that is answered full has no flag, and its answer is false.
#[derive(Clone, Copy)]
pub(crate) struct Marking {
    /// Below `F`.
    pub(crate) flag: u32,
}

impl Task for Marking {
    ghost use Rattle.std.specs.Prelude.{◌<◌};
    ghost use Rattle.work_run.specs.Telling.{marking};

    type Answer = (Reply, bool);

    ghost telling = { λ t. marking t.flag };

    ghost fits = { λ t flags. t.flag < flags };

    fn answer<S: Shared>(
        &self,
        store: &S,
        pass: &mut PassOf<S::View>,
        line: &[u32],
        steps: &mut Steps<Kept>,
    ) -> (Reply, bool) {
        let reply = store.insert_from(pass, line, steps);
        let Some(id) = reply.id() else {
            return (reply, false);
        };
        let first = store.set_flag(pass, id, self.flag);
        (reply, first)
    }
}
