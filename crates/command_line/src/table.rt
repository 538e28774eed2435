//! The sizes of the tables, as chosen or automatic.

ghost use Rattle.std.specs.Prelude.{◌≡◌, ◌≤◌, ◌*◌, ◌^◌, MatchOption, None};
ghost use Rattle.command_line.specs.Sizes.{AreInRange, AreTableSizes, IsLeastExponent, least_roots};
ghost use Rattle.command_line.specs.Sizes.{most_nodes};
ghost use Rattle.command_line.specs.Sizes.{node_need, root_need};
ghost use Rattle.command_line.specs.Valid.{IsValid};

use crate::outcome::{Choice, Mode};

/// The sizes that a store is made with. The first three are exponents of two.
#[derive(Clone, Copy, Debug, PartialEq, Eq)]
pub struct TableSizes {
    /// The node table has two to this power buckets.
    pub nodes: u32,
    /// The root table has two to this power buckets or cells.
    pub roots: u32,
    /// A region of a compact root table has two to this power cells. In plain mode it isn't looked at.
    pub region: u32,
    /// A path walks at most so many lines of buckets.
    pub probe: u64,
}

fn least_exponent(low: u32, high: u32, need: u64) -> u32
    requires ordered { low ≤ high }
    requires small { high ≤ 25 }
    ensures { IsLeastExponent low high need result }
{
    for exponent in low..high {
        if need <= 1u64 << exponent {
            return exponent;
        }
    }
    high
}

fn node_size(choice: &Choice, slots: usize, lines: u64) -> u32
    requires { IsValid choice.now }
    ensures { MatchOption choice.now.nodes
        (IsLeastExponent 3 (most_nodes choice.now) (node_need slots lines) result) (λ n. result ≡ n) }
{
    if let Some(nodes) = choice.nodes {
        return nodes;
    }
    let need = (slots.saturating_sub(2) as u64).saturating_mul(lines);
    least_exponent(3, choice.profile.min(25), need)
}

fn root_size(choice: &Choice, lines: u64) -> u32
    requires { IsValid choice.now }
    ensures { MatchOption choice.now.roots
        (IsLeastExponent (least_roots choice.now) 24 (root_need choice.now.mode lines) result) (λ r. result ≡ r) }
{
    if let Some(roots) = choice.roots {
        return roots;
    }
    match choice.mode {
        Mode::Plain => least_exponent(3, 24, lines),
        Mode::Compact => least_exponent(
            choice.region.unwrap_or(6).max(6),
            24,
            lines.saturating_mul(2),
        ),
    }
}

/// The sizes of a choice for a trace of `lines` lines of `slots` slots: what is given, and else the least
/// sizes that suffice, or the greatest where none does. An automatic node table has a bucket for each inner
/// node that the lines can have, an automatic root table a place for each line, and twice as many in
/// compact mode. A region is as large as the root table, up to two to the power of 12 cells.
pub fn sizes(choice: &Choice, slots: usize, lines: u64) -> TableSizes
    requires { IsValid choice.now }
    ensures sizes { AreTableSizes choice.now slots lines result }
    ensures in_range { AreInRange choice.now.mode choice.now.profile result }

    ensures determined { (t : TableSizes) → AreTableSizes choice.now slots lines t → t ≡ result }

    // What the automatic sizes are enough for.
    ensures enough_nodes { choice.now.nodes ≡ None → node_need slots lines ≤ 2 ^ most_nodes choice.now
        → node_need slots lines ≤ 2 ^ result.nodes }
    ensures enough_nodes_for_input { choice.now.nodes ≡ None → 25 ≤ choice.now.profile
        → slots * lines ≤ 2 ^ 25
        → node_need slots lines ≤ 2 ^ result.nodes }
    ensures enough_plain_roots { choice.now.roots ≡ None → choice.now.mode ≡ Mode.Plain → lines ≤ 2 ^ 24
        → lines ≤ 2 ^ result.roots }
    ensures enough_compact_roots { choice.now.roots ≡ None → choice.now.mode ≡ Mode.Compact
        → 2 * lines ≤ 2 ^ 24
        → 2 * lines ≤ 2 ^ result.roots }
{
    let nodes = node_size(choice, slots, lines);
    let roots = root_size(choice, lines);
    let region = choice.region.unwrap_or(roots.min(12));
    TableSizes {
        nodes,
        roots,
        region,
        probe: choice.probe,
    }
}
