// The state of a moving day as a program keeps it: the day file's bytes, the number of closed slots, the slots of its trains. It is taken
// from these, and written into lent memory as these.
//
// Proved: `state_of` gives what `kept_state` of specs/StateText.antt says, for every text, number and row; `put_state` writes what is said
// there. specs/Kept.antt: what is written reads again as the same state. Assumes nothing.
#![tactic(auto)]

ghost use Rattle.std.specs.Prelude.{◌≡◌, ◌∷◌, ◌++◌, ◌≤◌, T, length, drop};
ghost use Rattle.fold.specs.Column.{column};
ghost use Rattle.model.specs.Model.{slot_of};
ghost use Rattle.day.specs.Sound.{day_limits};
ghost use Rattle.dayfile.specs.Size.{day_bytes};
ghost use Rattle.telling.specs.Telling.{number_count};
ghost use Rattle.rolling.specs.Rolling.{plan_of, state_sound, or_before};
ghost use Rattle.rolling_state.specs.States.{state_in, new_state, answer, zero_state};
ghost use Rattle.state_text.specs.StateText.{kept_state};
ghost use Rattle.state_text.specs.Laws.{PutState};

use day::Refusal;
use rolling_state::{Rolled, RollingState};
use std::array;

// A row of at most twelve slots, and 0 past it.
fn padded(row: &[u8]) -> [u8; 12]
    requires { length row.now ≤ 12 }
    ensures { result ≡ column 12 (length row.now) (slot_of row.now) }
{
    array::from_fn(|i| if i < row.len() { row[i] } else { 0 })
}

// The state that is kept as these: reading's refusal, or 8 where the row is not one slot for each train.
fn kept(text: &[u8], closed: u32, row: &[u8]) -> Result<RollingState, Refusal>
    ensures { new_state result ≡ kept_state day_limits text.now closed row.now }
{
    let day = dayread::read_record(text)?;
    if row.len() != day.trains {
        return Err(Refusal::Unsound);
    }
    Ok(RollingState {
        day,
        closed,
        row: padded(row),
    })
}

// The state of a text, a number of closed slots and a row: reading's refusal, or 8 where the row is not one slot for each train. (Whether the
// state is sound is asked by the call that it is handed to.)
// Stays: a match and not `told`, which is given the state beside a refusal: those zeros, made before they are needed, took a third more time of
// a refused text.
pub fn state_of(text: &[u8], closed: u32, row: &[u8]) -> Rolled
    ensures result_value { answer result ≡ kept_state day_limits text.now closed row.now }
    ensures state_value { state_in result.state ≡ or_before zero_state (answer result) }
{
    match kept(text, closed, row) {
        Ok(state) => Rolled {
            verdict: Ok(()),
            state,
        },
        Err(why) => Rolled {
            verdict: Err(why),
            state: rolling_state::zero_state(),
        },
    }
}

// Tells the numbers of a state whose day file has this many bytes: closed slots, trains, bytes, 0.
pub fn put_figures(state: RollingState, bytes: usize, numbers: &mut [u64])
    requires { number_count ≤ length numbers.old }
    ensures { numbers.new ≡ state.closed ∷ state.day.trains ∷ bytes ∷ 0 ∷ drop number_count numbers.old }
{
    telling::store_four(
        numbers,
        state.closed as u64,
        state.day.trains as u64,
        bytes as u64,
        0,
    );
}

// Puts the plan of a sound state into the first bytes.
pub fn put_plan(state: RollingState, next: &mut [u8])
    requires { T (state_sound day_limits (state_in state)) × (12 ≤ length next.old) }
    ensures { next.new ≡ plan_of (state_in state) ++ drop (length (plan_of (state_in state))) next.old }
{
    output::put_bytes(next, 0, &state.row[..state.day.trains]);
}

// Writes a sound state: its day file, its plan, its numbers.
pub fn put_state(state: RollingState, day: &mut [u8], next: &mut [u8], numbers: &mut [u64])
    requires { T (state_sound day_limits (state_in state)) × ((day_bytes ≤ length day.old) × ((12 ≤ length next.old) × (number_count ≤ length numbers.old))) }
    ensures { PutState (state_in state) day.old next.old numbers.old day.new next.new numbers.new }
{
    let bytes = daywrite::put_day(state.day, day);
    put_plan(state, next);
    put_figures(state, bytes, numbers);
}
