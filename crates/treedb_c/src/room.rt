//! How much room a store needs for its states.
ghost use Rattle.std.specs.Prelude.{◌≤◌, ◌<◌, ◌^◌, ◌↔◌, IfOk, IfErr, IsTrue, MatchOption};
ghost use Rattle.treedb_c.specs.Calls.{HasProfile, AreSlots};
ghost use Rattle.treedb_c.specs.Room.{IsLeast, IsRoomFor, HasNoRoom};

use crate::code::Code;

/// How large the tables of a store are: 2 to the power of `nodes` places for nodes and of `roots` for
/// vectors, of which `probe` lines of 8 are searched for one.
#[repr(C)]
#[derive(Clone, Copy, Debug, PartialEq, Eq)]
pub struct Room {
    pub nodes: u32,
    pub roots: u32,
    pub probe: u64,
}

// The least number from 3 to `most` whose power of two reaches the need.
fn least_exponent(most: u32, need: u64) -> Option<u32>
    requires { (3 ≤ most) × (most ≤ 25) }
    ensures { MatchOption result (2 ^ most < need) (IsLeast most need) }
{
    for exponent in 3..most + 1 {
        if need <= 1u64 << exponent {
            return Some(exponent);
        }
    }
    None
}

// Whether some profile has so many bits a slot.
fn has_profile(profile: u32) -> bool
    ensures { IsTrue result ↔ HasProfile profile }
{
    profile == 16 || profile == 28 || profile == 31
}

// Whether vectors may have so many slots.
fn are_slots(slots: usize) -> bool
    ensures { IsTrue result ↔ AreSlots slots }
{
    2 <= slots && slots <= 1024
}

/// The least room for so many states of so many slots: a place for each, and for each inner node of its tree.
pub fn room_for(profile: u32, slots: usize, states: u64) -> Result<Room, Code>
    ensures room { IfOk result (λ room. HasProfile profile × AreSlots slots
        × IsRoomFor profile slots states room) }
    ensures none { IfErr result (λ code. HasNoRoom code profile slots states) }
{
    if !has_profile(profile) {
        return Err(Code::BadProfile);
    }
    if !are_slots(slots) {
        return Err(Code::BadSlots);
    }
    let inner = ((slots - 2) as u64).saturating_mul(states);
    let Some(nodes) = least_exponent(profile.min(25), inner) else {
        return Err(Code::TooMany);
    };
    let Some(roots) = least_exponent(24, states) else {
        return Err(Code::TooMany);
    };
    Ok(Room {
        nodes,
        roots,
        probe: 4_194_304,
    })
}
