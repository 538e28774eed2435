//! Drawers that draw in turn, and in threads of their own.
ghost use Rattle.std.specs.Prelude.{◌≡◌, ◌≤◌, ◌^◌, All, true};
ghost use Rattle.block_claims.specs.Drawers.{has_ended, BelongsTo, IsNew};

use super::{Claims, Drawer};
use std::alloc::Global;
use std::process::Abort;
use std::sync::atomic::{AtomicU64, Ordering};
use std::test::Fail;
use std::thread;
use std::thread::Threads;

#[test]
fn two_drawers_draw_three_blocks(rt: HostRuntime) -> Result<(), Fail> {
    let (claims, mut drawers) = Claims::create(rt.alloc(), 3, 2)?;
    assert!(rt; claims.draw(&mut drawers[1]) == Some(0));
    assert!(rt; claims.draw(&mut drawers[0]) == Some(1));
    assert!(rt; claims.draw(&mut drawers[1]) == Some(2));
    assert!(rt; claims.draw(&mut drawers[0]).is_none());
    assert!(rt; claims.has_ended(&drawers[0]) && !claims.has_ended(&drawers[1]));
    assert!(rt; claims.gather(drawers));
    Ok(())
}

#[test]
fn nobody_has_ended(rt: HostRuntime) -> Result<(), Fail> {
    let (claims, mut drawers) = Claims::create(rt.alloc(), 2, 2)?;
    assert!(rt; claims.draw(&mut drawers[0]) == Some(0));
    assert!(rt; claims.draw(&mut drawers[0]) == Some(1));
    assert!(rt; !claims.has_ended(&drawers[0]) && !claims.has_ended(&drawers[1]));
    assert!(rt; !claims.gather(drawers));
    Ok(())
}

#[test]
fn each_drawer_ends(rt: HostRuntime) -> Result<(), Fail> {
    let (claims, mut drawers) = Claims::create(rt.alloc(), 1, 3)?;
    assert!(rt; claims.draw(&mut drawers[2]) == Some(0));
    assert!(rt; claims.draw(&mut drawers[0]).is_none());
    assert!(rt; claims.draw(&mut drawers[1]).is_none());
    assert!(rt; claims.draw(&mut drawers[2]).is_none());
    assert!(rt; claims.has_ended(&drawers[0]) && claims.has_ended(&drawers[2]));
    assert!(rt; claims.gather(drawers));
    Ok(())
}

#[test]
fn most_blocks_and_drawers(rt: HostRuntime) -> Result<(), Fail> {
    let (claims, mut drawers) = Claims::create(rt.alloc(), 1 << 32, 64)?;
    assert!(rt; drawers.len() == 64);
    assert!(rt; claims.draw(&mut drawers[63]) == Some(0));
    assert!(rt; !claims.gather(drawers));
    Ok(())
}

// Draws until no block is left, and marks each block that it draws. It has ended then: so a loop of one draw
// more than there are blocks is never run through.
fn draw_all(claims: &Claims, drawer: &mut Drawer, blocks: u64, marks: &[AtomicU64])
    requires new { IsNew claims.now drawer.old }
    requires blocks { claims.now.totals.blocks ≡ blocks }
    requires few { blocks ≤ 2 ^ 32 }
    ensures of { BelongsTo claims.now drawer.new }
    ensures ended { has_ended drawer.new ≡ true }
{
    for _turn in 0..blocks + 1 {
        let Some(block) = claims.draw(drawer) else {
            return;
        };
        if let Some(mark) = marks.get(block as usize) {
            mark.fetch_add(1, Ordering::SeqCst);
        }
    }
    unreachable!()
}

// Each drawer draws in a thread of its own until no block is left.
fn draw_at_once<H: Threads + Sync>(
    rt: &H,
    claims: &Claims,
    drawers: &mut [Drawer],
    blocks: u64,
    marks: &[AtomicU64],
)
    requires new { All (IsNew claims.now) drawers.old }
    requires blocks { claims.now.totals.blocks ≡ blocks }
    requires few { blocks ≤ 2 ^ 32 }
    ensures of { All (BelongsTo claims.now) drawers.new }
    ensures ended { All (λ d. has_ended d ≡ true) drawers.new }
{
    let count = drawers.len();
    if count > 0 {
        thread::for_each_mut(
            rt,
            drawers,
            count,
            &|_, drawer: &mut Drawer|
                requires new { IsNew claims.now drawer.now }
                requires blocks { claims.now.totals.blocks ≡ blocks }
                requires few { blocks ≤ 2 ^ 32 }
                ensures of { BelongsTo claims.entry.now drawer.exit.now }
                ensures ended { has_ended drawer.exit.now ≡ true }
            { draw_all(claims, drawer, blocks, marks) },
        );
    }
}

// So many threads draw so many blocks: each is drawn once, and each drawer has ended.
fn share_out<H: Threads + Abort + Sync>(
    rt: &H,
    alloc: Global,
    blocks: u64,
    threads: u64,
) -> Result<(), Fail>
    requires blocks { (1 ≤ blocks) × (blocks ≤ 2 ^ 32) }
    requires threads { (1 ≤ threads) × (threads ≤ 64) }
{
    let (claims, mut drawers) = Claims::create(alloc, blocks, threads)?;
    let mut marks = Vec::new(alloc);
    for _block in 0..blocks {
        marks.push(AtomicU64::new(0))?;
    }
    draw_at_once(
        rt,
        &claims,
        drawers.as_mut_slice(),
        blocks,
        marks.as_slice(),
    );
    for mark in &marks {
        assert!(rt; mark.load(Ordering::SeqCst) == 1);
    }
    assert!(rt; claims.gather(drawers));
    Ok(())
}

#[test]
fn threads_draw_each_block_once(rt: HostRuntime) -> Result<(), Fail> {
    share_out(&rt, rt.alloc(), 1, 8)?;
    share_out(&rt, rt.alloc(), 1000, 2)?;
    share_out(&rt, rt.alloc(), 5000, 8)?;
    share_out(&rt, rt.alloc(), 300, 64)
}
