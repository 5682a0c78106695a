// Long days of texts (order 9 of document 02), for callers who want slots and numbers: checking a text, valuing a row of slots, and planning
// at a width, in numbers told to a caller.
//
// Proved: for every text, row, width and lent memory `check_long_text` and `value_long_text` return and leave what text_value's
// TextValue.antt says at the limits of long days, and `plan_long_text` what specs/TextLong.antt says, by the definitions of reading and of
// planning; specs/Means.antt says in the model's words what that means. Assumes nothing.
#![tactic(auto)]

ghost use Rattle.std.specs.Prelude.{◌≡◌, ◌≤◌, length, set};
ghost use Rattle.counting.specs.Counting.{outcome_of};
ghost use Rattle.day.specs.Answer.{gives, refusal, code, answered, on_given};
ghost use Rattle.valuing.specs.Valuing.{valued};
ghost use Rattle.dayfile.specs.Reading.{read_day};
ghost use Rattle.telling.specs.Telling.{numbers_after};
ghost use Rattle.text_value.specs.TextValue.{line, value_text};
ghost use Rattle.long_day.specs.LongDay.{long_limits, long_yard};
ghost use Rattle.long_planning.specs.LongPlanning.{long_outcome_of};
ghost use Rattle.text_long.specs.TextLong.{long_number_count, long_numbers_after, long_plan_for, long_row_for, long_slots_for};
ghost use Rattle.text_long.specs.Laws.{LongTold, PlansLongDay};

use counting::Value;
use day::Refusal;
use long_day::LongDay;
use long_planning::LongValue;

// ---- checking

// Whether a text is a long day's file: 0, or the number of the refusal and its line.
// Stays: it gives the number of a refusal, since it is the body of the C function `yard_long_check`.
#[tactic(auto, using(text_value::specs::Laws::told_code, text_value::specs::Laws::told_line))]
pub fn check_long_text(text: &[u8], at: &mut u64) -> u64
    ensures value { result ≡ code (read_day long_limits text.now) }
    ensures at_after { at.new ≡ line (read_day long_limits text.now) }
{
    telling::tell_line(at, long_read::read_long_day(text).verdict)
}

// ---- valuing

// The numbers of a row of slots on the long day of a text.
fn value_on(text: &[u8], row: &[u8]) -> Result<Value, Refusal>
    ensures { answered outcome_of result ≡ on_given (read_day long_limits text.now) (λ y. valued long_limits y row.now) }
{
    let day = long_read::read_long_record(text)?;
    long_value::value_long_assignment(day, row)
}

// Values a row of slots on the long day of a text: 0 with revisits, split moves, direct moves and cost in the first four numbers; or the number
// of the refusal with what it carries there, zeros behind it. 10 where there is no room for four numbers, and then none changes.
// Stays: it gives the number of a refusal, since it is the body of the C function `yard_long_value`.
pub fn value_long_text(text: &[u8], row: &[u8], numbers: &mut [u64]) -> u64
    ensures value { result ≡ code (value_text long_limits text.now row.now (length numbers.old)) }
    ensures numbers_after { numbers.new ≡ numbers_after (value_text long_limits text.now row.now (length numbers.old)) numbers.old }
{
    if !telling::is_room(numbers.len()) {
        return 10;
    }
    telling::tell_valued(numbers, value_on(text, row))
}

// ---- planning

// Stores two numbers behind the first four.
fn store_behind(numbers: &mut [u64], full: u64, lower: u64)
    requires { long_number_count ≤ length numbers.old }
    ensures { numbers.new ≡ set (set numbers.old 4 full) 5 lower }
{
    numbers[4] = full;
    numbers[5] = lower;
}

// Stores the six numbers of a plan.
fn store_found(numbers: &mut [u64], found: LongValue)
    requires { long_number_count ≤ length numbers.old }
    ensures { LongTold numbers.old (gives (long_outcome_of found)) 0 numbers.new }
{
    telling::store_value(numbers, found.value);
    store_behind(numbers, found.full as u64, found.lower);
}

// Stores what a refusal carries and zeros behind it, six numbers in all, and gives its number.
fn tell_long(numbers: &mut [u64], given: Refusal) -> u64
    requires { long_number_count ≤ length numbers.old }
    ensures { LongTold numbers.old (refusal given) result numbers.new }
{
    let number = telling::tell(numbers, given);
    store_behind(numbers, 0, 0);
    number
}

// Plans a long day that was read, and tells the six numbers or the refusal.
fn plan_long_day(
    day: LongDay,
    width: u32,
    row: &mut [u8],
    numbers: &mut [u64],
    trains: &mut usize,
) -> u64
    requires { long_number_count ≤ length numbers.old }
    ensures { PlansLongDay (long_yard day) width row.old numbers.old result row.new numbers.new trains.new }
{
    match long_planning::plan_long(day, width, row) {
        Ok(found) => {
            *trains = day.trains;
            store_found(numbers, found);
            0
        }
        Err(refusal) => {
            *trains = 0;
            tell_long(numbers, refusal)
        }
    }
}

// Plans the long day of a text at a width: 0 with the slots in the first bytes of `row`, revisits, split moves, direct moves, cost, the number
// of full slots and the lower figure in the first six `numbers`, and the number of slots in `trains`; or the number of the refusal with what
// it carries. 10 where there is no room for six numbers comes before reading; then 21, and 10 where the row is too short.
// Stays: it gives the number of a refusal, since it is the body of the C function `yard_long_plan`.
pub fn plan_long_text(
    text: &[u8],
    width: u32,
    row: &mut [u8],
    numbers: &mut [u64],
    trains: &mut usize,
) -> u64
    ensures value { result ≡ code (long_plan_for text.now width (length row.old) (length numbers.old)) }
    ensures numbers_after { numbers.new ≡ long_numbers_after (long_plan_for text.now width (length row.old) (length numbers.old)) numbers.old }
    ensures row_after { row.new ≡ long_row_for text.now width (length numbers.old) row.old }
    ensures trains_after { trains.new ≡ long_slots_for text.now width (length row.old) (length numbers.old) }
{
    *trains = 0;
    if numbers.len() < 6 {
        return 10;
    }
    match long_read::read_long_record(text) {
        Ok(day) => plan_long_day(day, width, row, numbers, trains),
        Err(refusal) => tell_long(numbers, refusal),
    }
}
