// The calls that change a moving day (order 7 of document 02): cancel a train, add a train, set boxes. Each plans anew what is left.
//
// Proved: for every state and all lent memory each call answers what `state_after` of rolling's Rolling.antt says; a refused one gives the
// state back as it was; where a check fails no word of the two areas changes, else only their first 4,096 and 32,768 may. Rolling's
// Follows.antt draws order 7's theorem from this. Assumes nothing.
#![tactic(auto)]

ghost use Rattle.std.specs.Prelude.{◌≡◌, T, length};
ghost use Rattle.day.specs.Sound.{day_limits};
ghost use Rattle.planning.specs.Planning.{cost_area, choice_area, open_words, Stays};
ghost use Rattle.rolling.specs.Rolling.{account_of, cancel as cancelling, add as adding, set_boxes, change as changing, state_sound, state_after, state_begins, or_before};
ghost use Rattle.rolling_state.specs.States.{state_in, answer};
ghost use Rattle.account_edits.specs.Accounts.{account_in, change_in};
ghost use Rattle.replanning.specs.Replans.{Made, Done};

use account_edits::{Account, Change};
use day::Refusal;
use rolling_state::{Rolled, RollingState};

// The account of a sound state: a train is served when its planned slot is closed.
fn account_of(state: RollingState) -> Account
    requires { T (state_sound day_limits (state_in state)) }
    ensures { account_in result ≡ account_of (state_in state) }
{
    let day = state.day;
    let closed = state.closed as u8;
    Account {
        day,
        closed,
        served: day_cut::served_slots(&state.row, day.trains, closed),
    }
}

// The state after any of the three changes. Checks 8, 10, then its own; then plans.
fn changed_state(
    state: RollingState,
    change: Change,
    cost: &mut [u64],
    choice: &mut [u16],
) -> Result<RollingState, Refusal>
    ensures { Made (state_after day_limits (state_in state) (changing (change_in change) (length cost.old) (length choice.old))) (state_begins day_limits (state_in state) (changing (change_in change) (length cost.old) (length choice.old))) cost.old choice.old result cost.new choice.new }
{
    if !rolling_state::is_state_sound(state) {
        return Err(Refusal::Unsound);
    }
    if !planning::are_areas_enough(cost.len(), choice.len()) {
        return Err(Refusal::TooShort);
    }
    let account = account_edits::edited_account(account_of(state), change)?;
    replanning::replan(account, cost, choice)
}

// Any of the three changes: checks 8, 10, then its own; then plans.
pub fn change(state: RollingState, change: Change, cost: &mut [u64], choice: &mut [u16]) -> Rolled
    ensures { Done (state_in state) (state_after day_limits (state_in state) (changing (change_in change) (length cost.old) (length choice.old))) (state_begins day_limits (state_in state) (changing (change_in change) (length cost.old) (length choice.old))) cost.old choice.old result cost.new choice.new }
{
    rolling_state::told(state, changed_state(state, change, cost, choice))
}

// ---- the three calls
// Stays: each has its four clauses in full; contracts of the five calls may not change (TRUST names them).

// Cancels the train of this number. Checks 8, 10, 3, 18; 9 and 16 never come: the plan without the train is still allowed.
pub fn cancel(state: RollingState, number: u32, cost: &mut [u64], choice: &mut [u16]) -> Rolled
    ensures result_value { answer result ≡ state_after day_limits (state_in state) (changing (cancelling number) (length cost.old) (length choice.old)) }
    ensures state_value { state_in result.state ≡ or_before (state_in state) (answer result) }
    ensures stays { Stays (open_words (state_begins day_limits (state_in state) (changing (cancelling number) (length cost.old) (length choice.old))) cost_area) cost.old cost.new }
    ensures stays_2 { Stays (open_words (state_begins day_limits (state_in state) (changing (cancelling number) (length cost.old) (length choice.old))) choice_area) choice.old choice.new }
{
    change(state, Change::Cancel(number), cost, choice)
}

// Adds a train with its window, in no group and without boxes. Checks 8, 10, 3, 19, 5, then 9 or 16.
pub fn add(
    state: RollingState,
    number: u32,
    first: u32,
    last: u32,
    cost: &mut [u64],
    choice: &mut [u16],
) -> Rolled
    ensures result_value { answer result ≡ state_after day_limits (state_in state) (changing (adding number first last) (length cost.old) (length choice.old)) }
    ensures state_value { state_in result.state ≡ or_before (state_in state) (answer result) }
    ensures stays { Stays (open_words (state_begins day_limits (state_in state) (changing (adding number first last) (length cost.old) (length choice.old))) cost_area) cost.old cost.new }
    ensures stays_2 { Stays (open_words (state_begins day_limits (state_in state) (changing (adding number first last) (length cost.old) (length choice.old))) choice_area) choice.old choice.new }
{
    change(
        state,
        Change::Add {
            number,
            first,
            last,
        },
        cost,
        choice,
    )
}

// Sets the boxes that one train receives from another, served or not. Checks 8, 10, 3, 18, 6; 9 and 16 never come: the plan is still allowed.
pub fn set_boxes(
    state: RollingState,
    to: u32,
    from: u32,
    boxes: u32,
    cost: &mut [u64],
    choice: &mut [u16],
) -> Rolled
    ensures result_value { answer result ≡ state_after day_limits (state_in state) (changing (set_boxes to from boxes) (length cost.old) (length choice.old)) }
    ensures state_value { state_in result.state ≡ or_before (state_in state) (answer result) }
    ensures stays { Stays (open_words (state_begins day_limits (state_in state) (changing (set_boxes to from boxes) (length cost.old) (length choice.old))) cost_area) cost.old cost.new }
    ensures stays_2 { Stays (open_words (state_begins day_limits (state_in state) (changing (set_boxes to from boxes) (length cost.old) (length choice.old))) choice_area) choice.old choice.new }
{
    change(state, Change::SetBoxes { to, from, boxes }, cost, choice)
}
