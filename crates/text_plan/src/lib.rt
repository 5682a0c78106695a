// Planning the day of a text, for callers who want slots and numbers: the slots in a lent row, four numbers, the number of trains.
//
// Proved: for every text and all lent memory `plan_text` answers and leaves what specs/TextPlan.antt says, by the definitions of reading and
// of planning. Assumes nothing.
#![tactic(auto)]

ghost use Rattle.std.specs.Prelude.{◌≡◌, ◌≤◌, length};
ghost use Rattle.day.specs.Answer.{code};
ghost use Rattle.day.specs.Sound.{day_limits, yard};
ghost use Rattle.planning.specs.Planning.{cost_words, choice_words, Stays};
ghost use Rattle.telling.specs.Telling.{number_count, numbers_after};
ghost use Rattle.text_plan.specs.TextPlan.{plan_for, row_for, open_for, slots_for};
ghost use Rattle.text_plan.specs.Laws.{PlansDay};

use day::Day;

// Plans a day that was read, and tells the four numbers or the refusal.
fn plan_day(
    day: Day,
    cost: &mut [u64],
    choice: &mut [u16],
    row: &mut [u8],
    numbers: &mut [u64],
    trains: &mut usize,
) -> u64
    requires { number_count ≤ length numbers.old }
    ensures { PlansDay day_limits (yard day) cost.old choice.old row.old numbers.old result cost.new choice.new row.new numbers.new trains.new }
{
    match planning::plan(day, cost, choice, row) {
        Ok(value) => {
            *trains = day.trains;
            telling::store_value(numbers, value);
            0
        }
        Err(refusal) => {
            *trains = 0;
            telling::tell(numbers, refusal)
        }
    }
}

// Plans the day of a text: 0 with the slots in the first bytes of `row`, the four numbers in the first `numbers` and the number of slots
// in `trains`; or the number of the refusal with what it carries. 10 where there is no room for four numbers comes before reading, 10
// where an area or the row is too short after it.
// Stays: it gives the number of a refusal, since it is the body of the C function `yard_plan_in_workspace`.
pub fn plan_text(
    text: &[u8],
    cost: &mut [u64],
    choice: &mut [u16],
    row: &mut [u8],
    numbers: &mut [u64],
    trains: &mut usize,
) -> u64
    ensures value { result ≡ code (plan_for day_limits text.now (length cost.old) (length choice.old) (length row.old) (length numbers.old)) }
    ensures numbers_after { numbers.new ≡ numbers_after (plan_for day_limits text.now (length cost.old) (length choice.old) (length row.old) (length numbers.old)) numbers.old }
    ensures row_after { row.new ≡ row_for day_limits text.now (length cost.old) (length choice.old) (length numbers.old) row.old }
    ensures trains_after { trains.new ≡ slots_for day_limits text.now (length cost.old) (length choice.old) (length row.old) (length numbers.old) }
    ensures stays { Stays (open_for cost_words day_limits text.now (length cost.old) (length choice.old) (length row.old) (length numbers.old)) cost.old cost.new }
    ensures stays_2 { Stays (open_for choice_words day_limits text.now (length cost.old) (length choice.old) (length row.old) (length numbers.old)) choice.old choice.new }
{
    *trains = 0;
    if !telling::is_room(numbers.len()) {
        return 10;
    }
    match dayread::read_record(text) {
        Ok(day) => plan_day(day, cost, choice, row, numbers, trains),
        Err(refusal) => telling::tell(numbers, refusal),
    }
}
