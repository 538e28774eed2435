//! Peterson's mutual exclusion for two processes (1981), right and wrong, as states of five slots and their
//! steps.
ghost use Rattle.std.specs.Prelude.{◌<◌};

/// A state: where process 0 is, where process 1 is, whether process 0 wants to enter, whether process 1
/// does, and whose turn it is.
pub type State = [u32; 5];

// Where a process is.
const IDLE: u32 = 0;

const WANTS: u32 = 1;

const WAITS: u32 = 2;

const CRITICAL: u32 = 3;

/// How a process that wants to enter leaves the turn.
#[derive(Clone, Copy, Debug, PartialEq, Eq)]
pub enum Protocol {
    /// To the other process, as Peterson's protocol has it.
    Peterson,
    /// As it is. Then both processes can become critical.
    Hasty,
}

/// Where all begins: both processes are idle.
pub(crate) const START: State = [IDLE, IDLE, 0, 0, 0];

/// The state after a step of this process, 0 or 1, if it can make one.
pub(crate) fn step(protocol: Protocol, state: &State, me: usize) -> Option<State>
    requires { me < 2 }
{
    let you = 1 - me;
    let mut next = *state;
    match state[me] {
        IDLE => {
            next[me] = WANTS;
            next[2 + me] = 1;
        }
        WANTS => {
            next[me] = WAITS;
            if protocol == Protocol::Peterson {
                next[4] = you as u32;
            }
        }
        WAITS => {
            if state[2 + you] == 1 && state[4] != me as u32 {
                return None;
            }
            next[me] = CRITICAL;
        }
        _ => {
            next[me] = IDLE;
            next[2 + me] = 0;
        }
    }
    Some(next)
}

/// Whether both processes are in their critical sections.
pub(crate) fn both_critical(state: &State) -> bool {
    state[0] == CRITICAL && state[1] == CRITICAL
}
