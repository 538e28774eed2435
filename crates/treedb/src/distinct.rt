//! What the job `distinct` writes: the vectors that were answered new, read back from the store by their
//! identifiers, in rising list order.
ghost use Rattle.std.specs.Prelude.{◌≡◌, ◌+◌, ◌*◌, ◌++◌, ◌∷◌, ◌≤◌, ◌<◌, ◌^◌, [], ℕ, All, IfOk, IfSome, List};
ghost use Rattle.std.specs.Prelude.{Some, IsPermutation, MatchOption, drop, length, map, slice_get, take};
ghost use Rattle.std.specs.Prelude.{vec_capacity};
ghost use Rattle.std.specs.List.Sorted.{IsSortedByKey};
ghost use Rattle.tdb_base.specs.History.{name_of};
ghost use Rattle.tdb_base.specs.Legal.{Extends};
ghost use Rattle.pair_rule.specs.Rest.{AtRest, view};
ghost use Rattle.trace_csv.specs.Vectors.{vector_at as vector_of_number};
ghost use Rattle.treedb.specs.Listing.{form_order, signed_in, signed_order};
ghost use Rattle.treedb.specs.ReadBack.{Adds, AwaitsLines, HasRoomFor, IfPrinted, IsCounted, IsReadBy};
ghost use Rattle.treedb.specs.ReadBack.{KeepsRoom, ReadsInto, new_id, new_ids, vectors};
ghost use Rattle.tree_store.specs.Store.{Advanced};

use command_line::Job;
use pair_nodes::RootNames;
use pair_rule::Pass;
use std::alloc::Global;
use std::cmp::Ordering;
use tdb_base::{NoMemory, Reply};
use trace_csv::Form;
use tree_store::{TreeStore, read_vector};

/// Vectors of so many slots that stand one after the other, and their numbers in the order in which they are
/// written.
#[derive(Drop)]
pub struct ReadBack {
    /// The slots of a vector.
    pub slots: usize,
    /// The slots of all vectors, one vector after the other.
    pub flat: Vec<u32>,
    /// The numbers of the vectors, in the order in which they are written.
    pub order: Vec<u32>,
}

// The vector of this number; short where the list ends before.
fn vector_at(slots: usize, flat: &[u32], number: u32) -> &[u32]
    requires { slots ≤ 1024 }
    ensures { result.now ≡ vector_of_number slots flat.now number }
{
    let Some((_, rest)) = flat.split_at_checked(number as usize * slots) else {
        return &[];
    };
    match rest.split_at_checked(slots) {
        Some((vector, _)) => vector,
        None => rest,
    }
}

// How two vectors stand to each other by the numbers that their slots keep in a form.
fn compare(form: Form, left: &[u32], right: &[u32]) -> Ordering
    ensures { result ≡ form_order form left.now right.now }
{
    match form {
        Form::Unsigned(_) => left.cmp(right),
        Form::Signed => compare_signed(left, right),
    }
}

// How two vectors of signed numbers stand to each other by their halves.
fn compare_signed(mut left: &[u32], mut right: &[u32]) -> Ordering
    ensures { result ≡ signed_order (signed_in left.now) (signed_in right.now) }
{
    loop {
        match (next_signed(left), next_signed(right)) {
            (None, None) => return Ordering::Equal,
            (None, Some(_)) => return Ordering::Less,
            (Some(_), None) => return Ordering::Greater,
            (Some((a, left_rest)), Some((b, right_rest))) => {
                if a != b {
                    return a.cmp(&b);
                }
                left = left_rest;
                right = right_rest;
            }
        }
    }
}

// The first of the signed numbers that some slots keep, and the slots of the others.
fn next_signed(slots: &[u32]) -> Option<(i32, &[u32])>
    ensures first { MatchOption result (signed_in slots.now ≡ [])
        (λ next. signed_in slots.now ≡ next.0 ∷ signed_in next.1.now) }
    ensures fewer { IfSome result (λ next. length next.1.now < length slots.now) }
{
    let [high, low, rest @ ..] = slots else {
        return None;
    };
    Some(((*high % 65536 * 65536 + *low % 65536).cast_signed(), rest))
}

// Reads the vector of an identifier into the slots from a place on.
fn read_at<N: RootNames<W, F>, const W: u32, const F: u32>(
    names: &N,
    store: &TreeStore<N::Part, W, F>,
    pass: &mut Pass<N::Part, W, F>,
    id: u64,
    slots: usize,
    at: usize,
    flat: &mut [u32],
)
    requires names { N.store names.now ≡ store.now }
    requires rest { AtRest N.Part.part store.now pass.old }
    requires named { (vector : List ℕ) × (name_of (view pass.old).seen vector ≡ Some id) }
    requires slots { slots ≡ store.now.about.slots }
    requires there { at + slots ≤ length flat.old }
    ensures rest { AtRest N.Part.part store.now pass.new }
    ensures no_call { Advanced N.Part.part [] (view pass.old) (view pass.new) }
    ensures written { (vector : List ℕ) × (length vector ≡ slots)
        × (name_of (view pass.old).seen vector ≡ Some id)
        × (flat.new ≡ take at flat.old ++ (vector ++ drop (at + slots) flat.old)) }
{
    let (_, rest) = flat.split_at_mut(at);
    let (out, _) = rest.split_at_mut(slots);
    read_vector(names, store, pass, id, out);
}

impl ReadBack {
    // Room for so many vectors.
    fn new(alloc: Global, slots: usize, lines: u64) -> Result<ReadBack, NoMemory>
        requires slots { (2 ≤ slots) × (slots ≤ 1024) }
        requires lines { lines ≤ 2 ^ 32 }
        ensures { IfOk result (AwaitsLines slots lines) }
    {
        Ok(ReadBack {
            slots,
            flat: vec![in alloc; 0; lines as usize * slots]?,
            order: Vec::with_capacity(alloc, lines as usize)?,
        })
    }

    // Reads back one vector more.
    fn add<N: RootNames<W, F>, const W: u32, const F: u32>(
        &mut self,
        names: &N,
        store: &TreeStore<N::Part, W, F>,
        pass: &mut Pass<N::Part, W, F>,
        id: u64,
    )
        requires names { N.store names.now ≡ store.now }
        requires rest { AtRest N.Part.part store.now pass.old }
        requires named { (vector : List ℕ) × (name_of (view pass.old).seen vector ≡ Some id) }
        requires slots { self.old.slots ≡ store.now.about.slots }
        requires room { HasRoomFor 1 self.old }
        requires counted { IsCounted self.old }
        ensures rest { AtRest N.Part.part store.now pass.new }
        ensures no_call { Advanced N.Part.part [] (view pass.old) (view pass.new) }
        ensures room { KeepsRoom self.old self.new }
        ensures counted { IsCounted self.new }
        ensures one_more { length self.new.order.items ≡ length self.old.order.items + 1 }
        ensures vector { (vector : List ℕ) × (name_of (view pass.old).seen vector ≡ Some id)
            × (vectors self.new ≡ vectors self.old ++ vector ∷ []) }
    {
        let number = self.order.len();
        let at = number * self.slots;
        read_at(names, store, pass, id, self.slots, at, &mut self.flat);
        let Ok(()) = self.order.push(number as u32) else {
            unreachable!()
        };
    }

    // Reads back the vector of a reply that is new.
    fn add_new<N: RootNames<W, F>, const W: u32, const F: u32>(
        &mut self,
        names: &N,
        store: &TreeStore<N::Part, W, F>,
        pass: &mut Pass<N::Part, W, F>,
        reply: Reply,
    )
        requires names { N.store names.now ≡ store.now }
        requires rest { AtRest N.Part.part store.now pass.old }
        requires named { IfSome (new_id reply)
            (λ id. (vector : List ℕ) × (name_of (view pass.old).seen vector ≡ Some id)) }
        requires slots { self.old.slots ≡ store.now.about.slots }
        requires room { HasRoomFor 1 self.old }
        requires counted { IsCounted self.old }
        ensures rest { AtRest N.Part.part store.now pass.new }
        ensures later { Extends (view pass.old).seen (view pass.new).seen }
        ensures room { KeepsRoom self.old self.new }
        ensures counted { IsCounted self.new }
        ensures one_more { length self.new.order.items ≤ length self.old.order.items + 1 }
        ensures added { Adds (view pass.old).seen (new_id reply) (vectors self.old) (vectors self.new) }
    {
        match reply {
            Reply::New(id) => self.add(names, store, pass, id),
            Reply::Seen(_) | Reply::FullNodes | Reply::FullRoots => {}
        }
    }

    // Reads back the vectors of the replies that are new, in their order.
    fn add_all<N: RootNames<W, F>, const W: u32, const F: u32>(
        &mut self,
        names: &N,
        store: &TreeStore<N::Part, W, F>,
        pass: &mut Pass<N::Part, W, F>,
        replies: &[Reply],
    )
        requires names { N.store names.now ≡ store.now }
        requires rest { AtRest N.Part.part store.now pass.old }
        requires named { All
            (λ reply. IfSome (new_id reply)
            (λ id. (vector : List ℕ) × (name_of (view pass.old).seen vector ≡ Some id))) replies.now }
        requires slots { self.old.slots ≡ store.now.about.slots }
        requires room { HasRoomFor (length replies.now) self.old }
        requires empty { self.old.order.items ≡ [] }
        ensures slots { self.new.slots ≡ self.old.slots }
        ensures room { HasRoomFor 0 self.new }
        ensures counted { IsCounted self.new }
        ensures names { map (name_of (view pass.old).seen) (vectors self.new) ≡ map Some
            (new_ids replies.now) }
    {
        for reply in replies {
            self.add_new(names, store, pass, *reply);
        }
    }

    // Brings the numbers into the order of their vectors in a form.
    fn sort(&mut self, form: Form)
        requires { self.old.slots ≤ 1024 }
        ensures slots { self.new.slots ≡ self.old.slots }
        ensures flat { self.new.flat ≡ self.old.flat }
        ensures permutation { IsPermutation self.old.order.items self.new.order.items }
        ensures sorted { IsSortedByKey
            (vector_of_number self.old.slots self.old.flat.items) (form_order form) self.new.order.items }
    {
        let slots = self.slots;
        let flat = self.flat.as_slice();
        self.order.sort_unstable_by(|a, b| {
            let left = vector_at(slots, flat, *a);
            compare(form, left, vector_at(slots, flat, *b))
        });
    }

    // Reads back the vectors of the replies that are new, in their order in a form.
    fn fill<N: RootNames<W, F>, const W: u32, const F: u32>(
        mut self,
        names: &N,
        store: &TreeStore<N::Part, W, F>,
        pass: &mut Pass<N::Part, W, F>,
        replies: &[Reply],
        form: Form,
    ) -> ReadBack
        requires names { N.store names.now ≡ store.now }
        requires rest { AtRest N.Part.part store.now pass.old }
        requires named { All
            (λ reply. IfSome (new_id reply)
            (λ id. (vector : List ℕ) × (name_of (view pass.old).seen vector ≡ Some id))) replies.now }
        requires room { AwaitsLines store.now.about.slots (length replies.now) self }
        ensures { IsReadBy form store.now.about.slots (view pass.old).seen (new_ids replies.now) result }
    {
        self.add_all(names, store, pass, replies);
        self.sort(form);
        self
    }
}

/// Room for the vectors of so many lines, where the job prints vectors.
pub fn take_room(
    alloc: Global,
    job: Job,
    slots: usize,
    lines: u64,
) -> Result<Option<ReadBack>, NoMemory>
    requires slots { (2 ≤ slots) × (slots ≤ 1024) }
    requires lines { lines ≤ 2 ^ 32 }
    ensures { IfOk result (λ room. IfPrinted job room (AwaitsLines slots lines)) }
{
    match job {
        Job::Distinct => Ok(Some(ReadBack::new(alloc, slots, lines)?)),
        Job::Insert | Job::Bench | Job::Check | Job::Mark => Ok(None),
    }
}

/// Reads back the vectors of the replies that are new by their identifiers, in their order in a form, where
/// there is room for them.
///
/// It takes no memory, so it always succeeds.
pub fn read_back<N: RootNames<W, F>, const W: u32, const F: u32>(
    names: &N,
    store: &TreeStore<N::Part, W, F>,
    pass: &mut Pass<N::Part, W, F>,
    replies: &[Reply],
    room: Option<ReadBack>,
    form: Form,
) -> Option<ReadBack>
    requires names { N.store names.now ≡ store.now }
    requires rest { AtRest N.Part.part store.now pass.old }
    requires named { All
        (λ reply. IfSome (new_id reply)
        (λ id. (vector : List ℕ) × (name_of (view pass.old).seen vector ≡ Some id))) replies.now }
    requires room { IfSome room (AwaitsLines store.now.about.slots (length replies.now)) }
    ensures { ReadsInto form store.now.about.slots (view pass.old).seen (new_ids replies.now) room result }
{
    match room {
        Some(back) => Some(back.fill(names, store, pass, replies, form)),
        None => None,
    }
}
