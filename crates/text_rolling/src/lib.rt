// The calls of a moving day on a state that a program keeps as a text, a number and a row: begin, close, and the three changes. What is new
// is written into memory that the caller lends.
//
// Proved: for every text, row and all lent memory each function answers and leaves what specs/TextRolling.antt says, by the definitions of
// reading and of the calls. Assumes nothing.
#![tactic(auto)]

ghost use Rattle.std.specs.Prelude.{◌≡◌, ◌≤◌, length};
ghost use Rattle.day.specs.Answer.{code};
ghost use Rattle.day.specs.Sound.{day_limits, yard};
ghost use Rattle.dayfile.specs.Size.{day_bytes};
ghost use Rattle.dayfile.specs.Writing.{day_text};
ghost use Rattle.planning.specs.Planning.{cost_area, choice_area, open_words, Stays};
ghost use Rattle.telling.specs.Telling.{number_count};
ghost use Rattle.rolling.specs.Rolling.{change as changing};
ghost use Rattle.rolling_state.specs.States.{state_in};
ghost use Rattle.account_edits.specs.Accounts.{change_in};
ghost use Rattle.state_text.specs.StateText.{state_numbers, day_after, plan_after};
ghost use Rattle.text_rolling.specs.TextRolling.{begin_for, close_for, change_for, begin_opens, change_opens};
ghost use Rattle.text_rolling.specs.Laws.{BegunDay, ChangedState};

use account_edits::Change;
use day::{Day, Refusal};
use rolling_state::RollingState;

// The most trains of a day: a plan is a byte for each, so this is the room for one.
const MOST_TRAINS: usize = 12;

// Stays: numbers of refusals and no Result, and each lent slice is a parameter of its own: the three public functions are the bodies of the C
// functions `yard_begin`, `yard_close`, and `yard_cancel`, `yard_add` and `yard_set_boxes`; their clauses `value` name the number.

// Begins a day that was read from a text of so many bytes.
fn begin_day(
    day: Day,
    bytes: usize,
    cost: &mut [u64],
    choice: &mut [u16],
    next: &mut [u8],
    numbers: &mut [u64],
) -> u64
    requires { (bytes ≡ length (day_text day_limits (yard day))) × ((day_limits.trains ≤ length next.old) × (number_count ≤ length numbers.old)) }
    ensures { BegunDay (yard day) cost.old choice.old next.old numbers.old result cost.new choice.new next.new numbers.new }
{
    let begun = replanning::begin(day, cost, choice);
    if let Err(why) = begun.verdict {
        return telling::tell(numbers, why);
    }
    state_text::put_plan(begun.state, next);
    state_text::put_figures(begun.state, bytes, numbers);
    0
}

// Begins the day of a text: 0 with the plan in the first bytes of `next` and the state's numbers; or the refusal with what it carries.
pub fn begin_text(
    text: &[u8],
    cost: &mut [u64],
    choice: &mut [u16],
    next: &mut [u8],
    numbers: &mut [u64],
) -> u64
    ensures value { result ≡ code (begin_for day_limits text.now (length cost.old) (length choice.old) (length next.old) (length numbers.old)) }
    ensures numbers_after { numbers.new ≡ state_numbers day_limits (begin_for day_limits text.now (length cost.old) (length choice.old) (length next.old) (length numbers.old)) numbers.old }
    ensures next_after { next.new ≡ plan_after (begin_for day_limits text.now (length cost.old) (length choice.old) (length next.old) (length numbers.old)) next.old }
    ensures stays { Stays (open_words (begin_opens day_limits text.now (length cost.old) (length choice.old) (length next.old) (length numbers.old)) cost_area) cost.old cost.new }
    ensures stays_2 { Stays (open_words (begin_opens day_limits text.now (length cost.old) (length choice.old) (length next.old) (length numbers.old)) choice_area) choice.old choice.new }
{
    if !telling::is_room(numbers.len()) {
        return 10;
    }
    if next.len() < MOST_TRAINS {
        return telling::tell(numbers, Refusal::TooShort);
    }
    match dayread::read_record(text) {
        Ok(day) => begin_day(day, text.len(), cost, choice, next, numbers),
        Err(why) => telling::tell(numbers, why),
    }
}

// Closes the first open slot of a kept state: 0 with the state's numbers; or the refusal with what it carries. The text and the row stay.
pub fn close_text(text: &[u8], closed: u32, row: &[u8], numbers: &mut [u64]) -> u64
    ensures value { result ≡ code (close_for day_limits text.now closed row.now (length numbers.old)) }
    ensures numbers_after { numbers.new ≡ state_numbers day_limits (close_for day_limits text.now closed row.now (length numbers.old)) numbers.old }
{
    if !telling::is_room(numbers.len()) {
        return 10;
    }
    let kept = state_text::state_of(text, closed, row);
    if let Err(why) = kept.verdict {
        return telling::tell(numbers, why);
    }
    let next = rolling_state::close(kept.state);
    if let Err(why) = next.verdict {
        return telling::tell(numbers, why);
    }
    state_text::put_figures(next.state, text.len(), numbers);
    0
}

// Changes a state, where there is room for the new one.
fn change_state(
    state: RollingState,
    change: Change,
    cost: &mut [u64],
    choice: &mut [u16],
    day: &mut [u8],
    next: &mut [u8],
    numbers: &mut [u64],
) -> u64
    requires { (day_bytes ≤ length day.old) × ((day_limits.trains ≤ length next.old) × (number_count ≤ length numbers.old)) }
    ensures { ChangedState (state_in state) (changing (change_in change) (length cost.old) (length choice.old)) cost.old choice.old day.old next.old numbers.old result cost.new choice.new day.new next.new numbers.new }
{
    let changed = rolling_calls::change(state, change, cost, choice);
    if let Err(why) = changed.verdict {
        return telling::tell(numbers, why);
    }
    state_text::put_state(changed.state, day, next, numbers);
    0
}

// Changes a kept state: 0 with the new day file in the first bytes of `day`, the new plan in those of `next`, and the state's numbers; or the
// refusal with what it carries.
pub fn change_text(
    text: &[u8],
    closed: u32,
    row: &[u8],
    change: Change,
    cost: &mut [u64],
    choice: &mut [u16],
    day: &mut [u8],
    next: &mut [u8],
    numbers: &mut [u64],
) -> u64
    ensures value { result ≡ code (change_for day_limits text.now closed row.now (change_in change) (length cost.old) (length choice.old) (length day.old) (length next.old) (length numbers.old)) }
    ensures numbers_after { numbers.new ≡ state_numbers day_limits (change_for day_limits text.now closed row.now (change_in change) (length cost.old) (length choice.old) (length day.old) (length next.old) (length numbers.old)) numbers.old }
    ensures day_after { day.new ≡ day_after day_limits (change_for day_limits text.now closed row.now (change_in change) (length cost.old) (length choice.old) (length day.old) (length next.old) (length numbers.old)) day.old }
    ensures next_after { next.new ≡ plan_after (change_for day_limits text.now closed row.now (change_in change) (length cost.old) (length choice.old) (length day.old) (length next.old) (length numbers.old)) next.old }
    ensures stays { Stays (open_words (change_opens day_limits text.now closed row.now (change_in change) (length cost.old) (length choice.old) (length day.old) (length next.old) (length numbers.old)) cost_area) cost.old cost.new }
    ensures stays_2 { Stays (open_words (change_opens day_limits text.now closed row.now (change_in change) (length cost.old) (length choice.old) (length day.old) (length next.old) (length numbers.old)) choice_area) choice.old choice.new }
{
    if !telling::is_room(numbers.len()) {
        return 10;
    }
    if !((dayfile::DAY_BYTES <= day.len()) & (MOST_TRAINS <= next.len())) {
        return telling::tell(numbers, Refusal::TooShort);
    }
    let kept = state_text::state_of(text, closed, row);
    if let Err(why) = kept.verdict {
        return telling::tell(numbers, why);
    }
    change_state(kept.state, change, cost, choice, day, next, numbers)
}
