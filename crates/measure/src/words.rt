//! The words of the command line.

ghost use Rattle.std.specs.Prelude.{◌≤◌, IfSome};

/// What the words may be.
pub const USAGE: &str = "usage: measure read-trace [TRIES] | nodes [D [THREADS]] | \
    region [S [FILL [ROUNDS]]] | \
    roots [TABLES [S [FILL [PUTS [LOOKS [THREADS [R]]]]]]] | \
    locks [WORKERS [R [S]]] | claims [WORKERS [BLOCK [ROUNDS]]] | flags [R]";

/// The number that the word at this place writes, from `low` to `high`; `otherwise`, where no word stands
/// there.
pub fn number(words: &[String], place: usize, low: u64, high: u64, otherwise: u64) -> Option<u64>
    requires { (low ≤ otherwise) × (otherwise ≤ high) }
    ensures { IfSome result (λ number. (low ≤ number) × (number ≤ high)) }
{
    let Some(word) = words.get(place) else {
        return Some(otherwise);
    };
    let Ok(number) = word.parse::<u64>() else {
        return None;
    };
    if low <= number && number <= high {
        return Some(number);
    }
    None
}
