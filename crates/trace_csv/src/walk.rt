//! A trace that is drawn.
ghost use Rattle.std.specs.Prelude.{◌≡◌, ◌*◌, ◌^◌, ◌<◌, ◌≤◌, All, IfOk, length};
ghost use Rattle.trace_csv.specs.Walk.{walk};

use crate::Trace;
use rand_core::SeedableRng;
use rand_core::utils::NextWord;
use rand_pcg::Lcg128Xsl64;
use std::alloc::Global;
use tdb_base::NoMemory;

/// A trace that is drawn: its first line is zeros, and each later line is the one before it with one slot set
/// anew.
///
/// For each later line the 64-bit PCG generator (XSL RR 128/64, O'Neill 2014) that `seed` starts draws one
/// number `w`, and slot `w mod slots` becomes `(w div slots) mod values`. So a line may equal the one before
/// it. All memory is taken before the first draw.
pub fn generate(
    alloc: Global,
    lines: u64,
    slots: usize,
    values: u64,
    seed: u64,
) -> Result<Trace, NoMemory>
    requires some { 1 ≤ lines }
    requires many { lines ≤ 4194304 }
    requires least { 2 ≤ slots }
    requires most { slots ≤ 1024 }
    requires valued { 1 ≤ values }
    requires small { values ≤ 65536 }
    requires numbers { lines * slots ≤ 2 ^ 25 }
    ensures walk { IfOk result (λ trace. trace ≡ walk lines slots values seed) }
    ensures each { IfOk result (λ trace. All (λ line. length line ≡ slots) trace) }
    ensures below { IfOk result (λ trace. All (λ line. All (λ n. n < values) line) trace) }
{
    let mut random = Lcg128Xsl64::seed_from_u64(seed);
    let mut numbers = Vec::with_capacity(alloc, lines as usize * slots)?;
    let mut line = vec![in alloc; 0u32; slots]?;
    numbers.extend_from_slice(&line)?;
    for _turn in 1..lines {
        let word = random.next_word();
        let at = (word % slots as u64) as usize;
        line[at] = (word / slots as u64 % values) as u32;
        numbers.extend_from_slice(&line)?;
    }
    Ok(Trace::of_numbers(numbers, slots, lines))
}
