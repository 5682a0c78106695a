// The C interface: functions on numbers and byte slices, for software that plans from C, C++, Rust or any language that calls C
// (include/yard.h). A slice is a pointer and a length.
//
// Proved: for every text, row and lent memory each function returns and leaves what the call behind it says, in the papers' numbers
// (specs/Returns.antt, Moving.antt, Long.antt and Season.antt, for a lent calendar lent_calendar's Header.antt: which they can be, and what they
// mean); too little room gives refusal 10. Assumes nothing; of a caller only that a pointer has the length that is given beside it.
#![tactic(auto)]

ghost use Rattle.std.specs.Prelude.{◌≡◌, length};
ghost use Rattle.day.specs.Answer.{code};
ghost use Rattle.day.specs.Sound.{day_limits};
ghost use Rattle.dayfile.specs.Reading.{read_day};
ghost use Rattle.output.specs.Output.{answer as written_answer};
ghost use Rattle.answering.specs.Answering.{answer_writes, answer_leaves};
ghost use Rattle.procedures.specs.Procedures.{first_come, myopic};
ghost use Rattle.comparing.specs.Comparing.{comparison_or_zero};
ghost use Rattle.planning.specs.Planning.{cost_words, choice_words, cost_area, choice_area, open_words, Stays};
ghost use Rattle.telling.specs.Telling.{numbers_after};
ghost use Rattle.text_plan.specs.TextPlan.{plan_for, row_for, open_for, slots_for};
ghost use Rattle.text_value.specs.TextValue.{line, value_text};
ghost use Rattle.text_savings.specs.TextSavings.{compare_text, outcomes};
ghost use Rattle.rolling.specs.Rolling.{cancel, add, set_boxes};
ghost use Rattle.state_text.specs.StateText.{state_numbers, day_after, plan_after};
ghost use Rattle.text_rolling.specs.TextRolling.{begin_for, close_for, change_for, begin_opens, change_opens};
ghost use Rattle.long_day.specs.LongDay.{long_limits};
ghost use Rattle.long_answering.specs.LongAnswering.{long_answer_writes, long_answer_leaves};
ghost use Rattle.text_long.specs.TextLong.{long_numbers_after, long_plan_for, long_row_for, long_slots_for};
ghost use Rattle.period_answering.specs.PeriodAnswering.{period_writes, period_leaves};
ghost use Rattle.text_period.specs.TextPeriod.{report_for, report_after};
ghost use Rattle.opening_hours.specs.Calendar.{slots_or_zero, window_or_zero};
ghost use Rattle.lent_calendar.specs.LentCalendar.{slots_lent, window_lent};
ghost use Rattle.yard.specs.Interface.{version, count};

use account_edits::Change;
use baselines::Procedure;
use day::Refusal;
use refusals::Numbered;

// The version of include/yard.h that this library meets.
#[unsafe(no_mangle)]
pub extern "C" fn yard_version() -> u64
    ensures { result ≡ version }
{
    3
}

// Tells how many bytes were written and gives 0; or 0 bytes, and the number of the refusal.
fn tell_count(written: Result<usize, Refusal>, bytes: &mut usize) -> u64
    ensures value { result ≡ code (written_answer written) }
    ensures bytes_after { bytes.new ≡ count (written_answer written) }
{
    match written {
        Ok(n) => {
            *bytes = n;
            0
        }
        Err(refusal) => {
            *bytes = 0;
            Numbered::from(refusal).number
        }
    }
}

// What yard-plan prints for a text, in the first bytes of `out`, and their count; or 10, with a count of 0.
#[unsafe(no_mangle)]
pub extern "C" fn yard_answer(text: &[u8], out: &mut [u8], bytes: &mut usize) -> u64
    ensures value { result ≡ code (answer_writes day_limits text.now (length out.old)) }
    ensures bytes_after { bytes.new ≡ count (answer_writes day_limits text.now (length out.old)) }
    ensures out_after { out.new ≡ answer_leaves day_limits text.now out.old }
{
    tell_count(answering::answer_text(text, out), bytes)
}

// Plans the day of a text in lent work areas: 0 with the slots in the first bytes of `row`, revisits, split moves, direct moves and cost in
// the first four numbers, and the number of slots in `trains`; or the number of the refusal with what it carries there, and no slots.
#[unsafe(no_mangle)]
pub extern "C" fn yard_plan_in_workspace(
    text: &[u8],
    cost: &mut [u64],
    choice: &mut [u16],
    row: &mut [u8],
    numbers: &mut [u64],
    trains: &mut usize,
) -> u64
    ensures value { result ≡ code (plan_for day_limits text.now (length cost.old) (length choice.old) (length row.old) (length numbers.old)) }
    ensures numbers_after { numbers.new ≡ numbers_after (plan_for day_limits text.now (length cost.old) (length choice.old) (length row.old) (length numbers.old)) numbers.old }
    ensures row_after { row.new ≡ row_for day_limits text.now (length cost.old) (length choice.old) (length numbers.old) row.old }
    ensures trains_after { trains.new ≡ slots_for day_limits text.now (length cost.old) (length choice.old) (length row.old) (length numbers.old) }
    ensures stays { Stays (open_for cost_words day_limits text.now (length cost.old) (length choice.old) (length row.old) (length numbers.old)) cost.old cost.new }
    ensures stays_2 { Stays (open_for choice_words day_limits text.now (length cost.old) (length choice.old) (length row.old) (length numbers.old)) choice.old choice.new }
{
    text_plan::plan_text(text, cost, choice, row, numbers, trains)
}

// The same in areas of its own, which suffice for every day.
#[unsafe(no_mangle)]
pub extern "C" fn yard_plan(
    text: &[u8],
    row: &mut [u8],
    numbers: &mut [u64],
    trains: &mut usize,
) -> u64
    ensures value { result ≡ code (plan_for day_limits text.now cost_area choice_area (length row.old) (length numbers.old)) }
    ensures numbers_after { numbers.new ≡ numbers_after (plan_for day_limits text.now cost_area choice_area (length row.old) (length numbers.old)) numbers.old }
    ensures row_after { row.new ≡ row_for day_limits text.now cost_area choice_area (length numbers.old) row.old }
    ensures trains_after { trains.new ≡ slots_for day_limits text.now cost_area choice_area (length row.old) (length numbers.old) }
{
    let mut cost = [0u64; 4096];
    let mut choice = [0u16; 32768];
    text_plan::plan_text(text, &mut cost, &mut choice, row, numbers, trains)
}

// Whether a text is a day file: 0, or the number of the refusal and its line.
#[unsafe(no_mangle)]
pub extern "C" fn yard_check(text: &[u8], at: &mut u64) -> u64
    ensures value { result ≡ code (read_day day_limits text.now) }
    ensures at_after { at.new ≡ line (read_day day_limits text.now) }
{
    text_value::check_text(text, at)
}

// Values a row of slots on the day of a text: 0 with revisits, split moves, direct moves and cost in the first four numbers; or the number
// of the refusal with what it carries there, zeros behind it. 10 where there is no room for four numbers, and then none changes.
#[unsafe(no_mangle)]
pub extern "C" fn yard_value(text: &[u8], row: &[u8], numbers: &mut [u64]) -> u64
    ensures value { result ≡ code (value_text day_limits text.now row.now (length numbers.old)) }
    ensures numbers_after { numbers.new ≡ numbers_after (value_text day_limits text.now row.now (length numbers.old)) numbers.old }
{
    text_value::value_text(text, row, numbers)
}

// ---- what planning saves

// First come, first served on the day of a text, against the best plan: 0 with its revisits, split moves, direct moves and cost in the first
// four numbers and the saving, its cost less the planned cost; or the number of the refusal with what it carries there, and a saving of 0.
// 10 where there is no room for four numbers, and then none changes.
#[unsafe(no_mangle)]
pub extern "C" fn yard_first_come_first_served(
    text: &[u8],
    numbers: &mut [u64],
    saving: &mut i64,
) -> u64
    ensures value { result ≡ code (compare_text first_come day_limits text.now (length numbers.old)) }
    ensures numbers_after { numbers.new ≡ numbers_after (outcomes (compare_text first_come day_limits text.now (length numbers.old))) numbers.old }
    ensures saving_after { saving.new ≡ (comparison_or_zero (compare_text first_come day_limits text.now (length numbers.old))).saving }
{
    text_savings::compare_text(Procedure::FirstCome, text, numbers, saving)
}

// The same of the myopic start procedure.
#[unsafe(no_mangle)]
pub extern "C" fn yard_myopic(text: &[u8], numbers: &mut [u64], saving: &mut i64) -> u64
    ensures value { result ≡ code (compare_text myopic day_limits text.now (length numbers.old)) }
    ensures numbers_after { numbers.new ≡ numbers_after (outcomes (compare_text myopic day_limits text.now (length numbers.old))) numbers.old }
    ensures saving_after { saving.new ≡ (comparison_or_zero (compare_text myopic day_limits text.now (length numbers.old))).saving }
{
    text_savings::compare_text(Procedure::Myopic, text, numbers, saving)
}

// ---- a day that keeps moving: a state is kept as a text, a number of closed slots and a row

// Begins the day of a text with every slot open: 0 with the plan in the first bytes of `next` and the state's numbers (closed slots, trains,
// bytes of the day file, 0); or the number of the refusal with what it carries there.
#[unsafe(no_mangle)]
pub extern "C" fn yard_begin(
    text: &[u8],
    cost: &mut [u64],
    choice: &mut [u16],
    next: &mut [u8],
    numbers: &mut [u64],
) -> u64
    ensures value { result ≡ code (begin_for day_limits text.now (length cost.old) (length choice.old) (length next.old) (length numbers.old)) }
    ensures numbers_after { numbers.new ≡ state_numbers day_limits (begin_for day_limits text.now (length cost.old) (length choice.old) (length next.old) (length numbers.old)) numbers.old }
    ensures next_after { next.new ≡ plan_after (begin_for day_limits text.now (length cost.old) (length choice.old) (length next.old) (length numbers.old)) next.old }
    ensures stays { Stays (open_words (begin_opens day_limits text.now (length cost.old) (length choice.old) (length next.old) (length numbers.old)) cost_area) cost.old cost.new }
    ensures stays_2 { Stays (open_words (begin_opens day_limits text.now (length cost.old) (length choice.old) (length next.old) (length numbers.old)) choice_area) choice.old choice.new }
{
    text_rolling::begin_text(text, cost, choice, next, numbers)
}

// Closes the first open slot of a kept state: 0 with the state's numbers; or the number of the refusal.
#[unsafe(no_mangle)]
pub extern "C" fn yard_close(text: &[u8], closed: u32, row: &[u8], numbers: &mut [u64]) -> u64
    ensures value { result ≡ code (close_for day_limits text.now closed row.now (length numbers.old)) }
    ensures numbers_after { numbers.new ≡ state_numbers day_limits (close_for day_limits text.now closed row.now (length numbers.old)) numbers.old }
{
    text_rolling::close_text(text, closed, row, numbers)
}

// Cancels a train of a kept state: 0 with the new day file in the first bytes of `day`, the new plan in those of `next`, and the state's
// numbers; or the number of the refusal with what it carries.
#[unsafe(no_mangle)]
pub extern "C" fn yard_cancel(
    text: &[u8],
    closed: u32,
    row: &[u8],
    train: u32,
    cost: &mut [u64],
    choice: &mut [u16],
    day: &mut [u8],
    next: &mut [u8],
    numbers: &mut [u64],
) -> u64
    ensures value { result ≡ code (change_for day_limits text.now closed row.now (cancel train) (length cost.old) (length choice.old) (length day.old) (length next.old) (length numbers.old)) }
    ensures numbers_after { numbers.new ≡ state_numbers day_limits (change_for day_limits text.now closed row.now (cancel train) (length cost.old) (length choice.old) (length day.old) (length next.old) (length numbers.old)) numbers.old }
    ensures day_after { day.new ≡ day_after day_limits (change_for day_limits text.now closed row.now (cancel train) (length cost.old) (length choice.old) (length day.old) (length next.old) (length numbers.old)) day.old }
    ensures next_after { next.new ≡ plan_after (change_for day_limits text.now closed row.now (cancel train) (length cost.old) (length choice.old) (length day.old) (length next.old) (length numbers.old)) next.old }
    ensures stays { Stays (open_words (change_opens day_limits text.now closed row.now (cancel train) (length cost.old) (length choice.old) (length day.old) (length next.old) (length numbers.old)) cost_area) cost.old cost.new }
    ensures stays_2 { Stays (open_words (change_opens day_limits text.now closed row.now (cancel train) (length cost.old) (length choice.old) (length day.old) (length next.old) (length numbers.old)) choice_area) choice.old choice.new }
{
    text_rolling::change_text(
        text,
        closed,
        row,
        Change::Cancel(train),
        cost,
        choice,
        day,
        next,
        numbers,
    )
}

// Adds a train with its window, the same way.
#[unsafe(no_mangle)]
pub extern "C" fn yard_add(
    text: &[u8],
    closed: u32,
    row: &[u8],
    train: u32,
    first: u32,
    last: u32,
    cost: &mut [u64],
    choice: &mut [u16],
    day: &mut [u8],
    next: &mut [u8],
    numbers: &mut [u64],
) -> u64
    ensures value { result ≡ code (change_for day_limits text.now closed row.now (add train first last) (length cost.old) (length choice.old) (length day.old) (length next.old) (length numbers.old)) }
    ensures numbers_after { numbers.new ≡ state_numbers day_limits (change_for day_limits text.now closed row.now (add train first last) (length cost.old) (length choice.old) (length day.old) (length next.old) (length numbers.old)) numbers.old }
    ensures day_after { day.new ≡ day_after day_limits (change_for day_limits text.now closed row.now (add train first last) (length cost.old) (length choice.old) (length day.old) (length next.old) (length numbers.old)) day.old }
    ensures next_after { next.new ≡ plan_after (change_for day_limits text.now closed row.now (add train first last) (length cost.old) (length choice.old) (length day.old) (length next.old) (length numbers.old)) next.old }
    ensures stays { Stays (open_words (change_opens day_limits text.now closed row.now (add train first last) (length cost.old) (length choice.old) (length day.old) (length next.old) (length numbers.old)) cost_area) cost.old cost.new }
    ensures stays_2 { Stays (open_words (change_opens day_limits text.now closed row.now (add train first last) (length cost.old) (length choice.old) (length day.old) (length next.old) (length numbers.old)) choice_area) choice.old choice.new }
{
    text_rolling::change_text(
        text,
        closed,
        row,
        Change::Add {
            number: train,
            first,
            last,
        },
        cost,
        choice,
        day,
        next,
        numbers,
    )
}

// Sets the boxes that one train receives from another, the same way.
#[unsafe(no_mangle)]
pub extern "C" fn yard_set_boxes(
    text: &[u8],
    closed: u32,
    row: &[u8],
    to: u32,
    from: u32,
    boxes: u32,
    cost: &mut [u64],
    choice: &mut [u16],
    day: &mut [u8],
    next: &mut [u8],
    numbers: &mut [u64],
) -> u64
    ensures value { result ≡ code (change_for day_limits text.now closed row.now (set_boxes to from boxes) (length cost.old) (length choice.old) (length day.old) (length next.old) (length numbers.old)) }
    ensures numbers_after { numbers.new ≡ state_numbers day_limits (change_for day_limits text.now closed row.now (set_boxes to from boxes) (length cost.old) (length choice.old) (length day.old) (length next.old) (length numbers.old)) numbers.old }
    ensures day_after { day.new ≡ day_after day_limits (change_for day_limits text.now closed row.now (set_boxes to from boxes) (length cost.old) (length choice.old) (length day.old) (length next.old) (length numbers.old)) day.old }
    ensures next_after { next.new ≡ plan_after (change_for day_limits text.now closed row.now (set_boxes to from boxes) (length cost.old) (length choice.old) (length day.old) (length next.old) (length numbers.old)) next.old }
    ensures stays { Stays (open_words (change_opens day_limits text.now closed row.now (set_boxes to from boxes) (length cost.old) (length choice.old) (length day.old) (length next.old) (length numbers.old)) cost_area) cost.old cost.new }
    ensures stays_2 { Stays (open_words (change_opens day_limits text.now closed row.now (set_boxes to from boxes) (length cost.old) (length choice.old) (length day.old) (length next.old) (length numbers.old)) choice_area) choice.old choice.new }
{
    text_rolling::change_text(
        text,
        closed,
        row,
        Change::SetBoxes { to, from, boxes },
        cost,
        choice,
        day,
        next,
        numbers,
    )
}

// ---- long days

// What yard-long prints for a text, in the first bytes of `out`, and their count; or 10, with a count of 0.
#[unsafe(no_mangle)]
pub extern "C" fn yard_long_answer(text: &[u8], out: &mut [u8], bytes: &mut usize) -> u64
    ensures value { result ≡ code (long_answer_writes text.now (length out.old)) }
    ensures bytes_after { bytes.new ≡ count (long_answer_writes text.now (length out.old)) }
    ensures out_after { out.new ≡ long_answer_leaves text.now out.old }
{
    tell_count(long_answering::answer_long_text(text, out), bytes)
}

// Plans the long day of a text at a width: 0 with the slots in the first bytes of `row`, revisits, split moves, direct moves, cost, the number
// of full slots and the lower figure in the first six numbers, and the number of slots in `trains`; or the number of the refusal with what
// it carries there, and no slots.
#[unsafe(no_mangle)]
pub extern "C" fn yard_long_plan(
    text: &[u8],
    width: u32,
    row: &mut [u8],
    numbers: &mut [u64],
    trains: &mut usize,
) -> u64
    ensures value { result ≡ code (long_plan_for text.now width (length row.old) (length numbers.old)) }
    ensures numbers_after { numbers.new ≡ long_numbers_after (long_plan_for text.now width (length row.old) (length numbers.old)) numbers.old }
    ensures row_after { row.new ≡ long_row_for text.now width (length numbers.old) row.old }
    ensures trains_after { trains.new ≡ long_slots_for text.now width (length row.old) (length numbers.old) }
{
    text_long::plan_long_text(text, width, row, numbers, trains)
}

// Whether a text is a long day's file: 0, or the number of the refusal and its line.
#[unsafe(no_mangle)]
pub extern "C" fn yard_long_check(text: &[u8], at: &mut u64) -> u64
    ensures value { result ≡ code (read_day long_limits text.now) }
    ensures at_after { at.new ≡ line (read_day long_limits text.now) }
{
    text_long::check_long_text(text, at)
}

// Values a row of slots on the long day of a text, as yard_value does on a day.
#[unsafe(no_mangle)]
pub extern "C" fn yard_long_value(text: &[u8], row: &[u8], numbers: &mut [u64]) -> u64
    ensures value { result ≡ code (value_text long_limits text.now row.now (length numbers.old)) }
    ensures numbers_after { numbers.new ≡ numbers_after (value_text long_limits text.now row.now (length numbers.old)) numbers.old }
{
    text_long::value_long_text(text, row, numbers)
}

// ---- the season

// The report over the days of a text: 0 with its numbers in the first forty, or 22 with zeros there. 10 where there is no room for forty, and
// then none changes.
#[unsafe(no_mangle)]
pub extern "C" fn yard_season(text: &[u8], numbers: &mut [u64]) -> u64
    ensures value { result ≡ code (report_for day_limits text.now (length numbers.old)) }
    ensures numbers_after { numbers.new ≡ report_after (report_for day_limits text.now (length numbers.old)) numbers.old }
{
    text_period::tell_report(text, numbers)
}

// What yard-season prints for a text, in the first bytes of `out`, and their count; or 10, with a count of 0.
#[unsafe(no_mangle)]
pub extern "C" fn yard_season_answer(text: &[u8], out: &mut [u8], bytes: &mut usize) -> u64
    ensures value { result ≡ code (period_writes text.now (length out.old)) }
    ensures bytes_after { bytes.new ≡ count (period_writes text.now (length out.old)) }
    ensures out_after { out.new ≡ period_leaves text.now out.old }
{
    tell_count(period_answering::answer_period(text, out), bytes)
}

// ---- opening hours and dates

// How many slots a date uses, for a calendar that is lent as numbers: 0 with the number in `slots`, or 10 or 23 with 0 there.
#[unsafe(no_mangle)]
pub extern "C" fn yard_slots_on(
    hours: &[u32],
    minutes: u32,
    closed: &[u32],
    date: u32,
    slots: &mut u32,
) -> u64
    ensures value { result ≡ code (slots_lent hours.now minutes closed.now date) }
    ensures slots_after { slots.new ≡ slots_or_zero (slots_lent hours.now minutes closed.now date) }
{
    lent_calendar::tell_slots(hours, minutes, closed, date, slots)
}

// The window of a train that arrives and departs on a date: 0 with its first and last slot, or 10, 23 or 24 with zeros there.
#[unsafe(no_mangle)]
pub extern "C" fn yard_window(
    hours: &[u32],
    minutes: u32,
    closed: &[u32],
    date: u32,
    arrival: u32,
    departure: u32,
    first: &mut u32,
    last: &mut u32,
) -> u64
    ensures value { result ≡ code (window_lent hours.now minutes closed.now date arrival departure) }
    ensures first_after { first.new ≡ (window_or_zero (window_lent hours.now minutes closed.now date arrival departure)).first }
    ensures last_after { last.new ≡ (window_or_zero (window_lent hours.now minutes closed.now date arrival departure)).last }
{
    lent_calendar::tell_window(
        hours, minutes, closed, date, arrival, departure, first, last,
    )
}
