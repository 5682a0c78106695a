// The state of a moving day (order 7 of document 02): the day as it was edited, the number of closed slots, and the planned slots; when such
// a state is sound, and the call that closes a slot.
//
// Proved: `is_state_sound` is `state_sound` of rolling's Rolling.antt, and `close` answers what `state_after` there says, for every state; a
// refused call gives the state back as it was. Assumes nothing.
#![tactic(auto)]

ghost use Rattle.std.specs.Prelude.{◌≡◌, ◌≤◌, length};
ghost use Rattle.fold.specs.Fold.{each};
ghost use Rattle.day.specs.Sound.{day_limits};
ghost use Rattle.rolling.specs.Rolling.{close as closing, state_sound, state_after, or_before};
ghost use Rattle.rolling_state.specs.States.{state_in, new_state, answer, zero_state, Says, zero_past};

use day::{Day, Refusal};

// What a call is handed and gives back, by value. Slots past the day's trains are 0.
#[derive(Clone, Copy)]
pub struct RollingState {
    pub day: Day,
    pub closed: u32,
    pub row: [u8; 12],
}

// The new state; or a refusal, and the state as it was given (of `begin`, which is given none, zeros).
// Stays: a verdict beside a state, and no Result of a state: a refused call gives back the state as before (clauses `state_value` of `begin`,
// `close`, `cancel`, `add` and `set_boxes`). `told` makes one, and `state_of` of state_text that of a kept state.
#[derive(Clone, Copy)]
pub struct Rolled {
    pub verdict: Result<(), Refusal>,
    pub state: RollingState,
}

// What a call gives back that was to make a new state of the one before.
pub fn told(before: RollingState, new: Result<RollingState, Refusal>) -> Rolled
    ensures { Says (state_in before) (new_state new) result }
{
    match new {
        Ok(state) => Rolled {
            verdict: Ok(()),
            state,
        },
        Err(why) => Rolled {
            verdict: Err(why),
            state: before,
        },
    }
}

pub fn zero_state() -> RollingState
    ensures { state_in result ≡ zero_state }
{
    RollingState {
        day: day::zero_day(),
        closed: 0,
        row: [0; 12],
    }
}

// Whether a row holds 0 past its first n slots.
fn is_zero_past(row: &[u8], n: usize) -> bool
    requires { 12 ≤ length row.now }
    ensures { result ≡ each 12 (zero_past n row.now) }
{
    (0..12).all(|i| (i < n) | (row[i] == 0))
}

// Whether a state can be gone on with: a sound day, no more closed slots than it has, an allowed plan, and 0 past it. Else the calls give 8.
pub fn is_state_sound(state: RollingState) -> bool
    ensures { result ≡ state_sound day_limits (state_in state) }
{
    let d = state.day;
    if !day_sound::is_sound(d) {
        return false;
    }
    let n = d.trains;
    valuing::value_assignment(d, &state.row[..n]).is_ok()
        & (state.closed <= d.slots as u32)
        & is_zero_past(&state.row, n)
}

// The state whose first open slot is closed. Checks 8, then 20.
fn closed(state: RollingState) -> Result<RollingState, Refusal>
    ensures { new_state result ≡ state_after day_limits (state_in state) closing }
{
    if !is_state_sound(state) {
        return Err(Refusal::Unsound);
    }
    if state.day.slots as u32 <= state.closed {
        return Err(Refusal::NoOpenSlot);
    }
    Ok(RollingState {
        closed: state.closed + 1,
        ..state
    })
}

// Closes the first open slot: the trains planned in it are served, and the plan stays. Checks 8, then 20.
pub fn close(state: RollingState) -> Rolled
    ensures result_value { answer result ≡ state_after day_limits (state_in state) closing }
    ensures state_value { state_in result.state ≡ or_before (state_in state) (answer result) }
{
    told(state, closed(state))
}
