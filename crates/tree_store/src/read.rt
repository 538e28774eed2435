//! Vectors are read from a store by their identifiers.
ghost use Rattle.std.specs.Prelude.{◌≡◌, ℕ, [], ◌∷◌, Bool, true, false, Some, length};
ghost use Rattle.pair_rule.specs.Rest.{AtRest, KnowsName};
ghost use Rattle.tree_store.specs.Reading.{IsRead, IsLookedUp};

use crate::store::TreeStore;
use crate::unfold::unfold;
use pair_nodes::{Nodes, RootNames, RootTable};
use pair_rule::Pass;

// Reads the vector with this identifier, which the pass has seen named, through a store's names.
fn read_from<N: RootNames<W, F>, const W: u32, const F: u32>(
    names: &N,
    nodes: &Nodes<N::Part, W, F>,
    pass: &mut Pass<N::Part, W, F>,
    id: u64,
    out: &mut [u32],
)
    requires names { N.store names.now ≡ nodes.now }
    requires rest { AtRest N.Part.part nodes.now pass.old }
    requires named { KnowsName pass.old id }
    requires out { length out.old ≡ nodes.now.about.slots }
    ensures rest { AtRest N.Part.part nodes.now pass.new }
    ensures read { IsRead N.Part.part id out.new pass.old pass.new }
{
    let (left, right) = names.read(pass, id);
    unfold(nodes, pass, left, right, out);
}

// Reads the vector with this identifier, if it is some vector's, through a store's root table.
fn find_in<D: RootTable<W, F>, const W: u32, const F: u32>(
    roots: &D,
    nodes: &Nodes<D::Part, W, F>,
    pass: &mut Pass<D::Part, W, F>,
    id: u64,
    out: &mut [u32],
) -> bool
    requires roots { D.store roots.now ≡ nodes.now }
    requires rest { AtRest D.Part.part nodes.now pass.old }
    requires out { length out.old ≡ nodes.now.about.slots }
    ensures rest { AtRest D.Part.part nodes.now pass.new }
    ensures found { IsLookedUp D.Part.part id result out.old out.new pass.old pass.new }
{
    let Some((left, right)) = roots.find(pass, id) else {
        return false;
    };
    unfold(nodes, pass, left, right, out);
    true
}

/// Puts the vector with this identifier into `out`: `TreeStore::read` over any root table.
pub fn read_vector<N: RootNames<W, F>, const W: u32, const F: u32>(
    names: &N,
    store: &TreeStore<N::Part, W, F>,
    pass: &mut Pass<N::Part, W, F>,
    id: u64,
    out: &mut [u32],
)
    requires names { N.store names.now ≡ store.now }
    requires rest { AtRest N.Part.part store.now pass.old }
    requires named { KnowsName pass.old id }
    requires out { length out.old ≡ store.now.about.slots }
    ensures rest { AtRest N.Part.part store.now pass.new }
    ensures read { IsRead N.Part.part id out.new pass.old pass.new }
{
    let nodes = &store.nodes;
    read_from(names, nodes, pass, id, out);
}

/// Puts the vector with this identifier into `out`, if it is some vector's: `TreeStore::lookup` over any root
/// table.
pub fn find_vector<D: RootTable<W, F>, const W: u32, const F: u32>(
    roots: &D,
    store: &TreeStore<D::Part, W, F>,
    pass: &mut Pass<D::Part, W, F>,
    id: u64,
    out: &mut [u32],
) -> bool
    requires roots { D.store roots.now ≡ store.now }
    requires rest { AtRest D.Part.part store.now pass.old }
    requires out { length out.old ≡ store.now.about.slots }
    ensures rest { AtRest D.Part.part store.now pass.new }
    ensures found { IsLookedUp D.Part.part id result out.old out.new pass.old pass.new }
{
    let nodes = &store.nodes;
    find_in(roots, nodes, pass, id, out)
}
