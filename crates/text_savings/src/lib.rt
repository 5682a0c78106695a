// What planning saves against a procedure on the day of a text, in numbers told to a caller.
//
// Proved: for every text and lent memory `compare_text` returns and leaves what specs/TextSavings.antt says. Assumes nothing.
#![tactic(auto)]

ghost use Rattle.std.specs.Prelude.{◌≡◌, ◌≤◌, length};
ghost use Rattle.day.specs.Answer.{code, judged};
ghost use Rattle.day.specs.Sound.{day_limits, yard};
ghost use Rattle.planning.specs.Planning.{cost_area, choice_area};
ghost use Rattle.comparing.specs.Comparing.{comparison_of, comparison_or_zero};
ghost use Rattle.baselines.specs.Baselines.{row_by, compared};
ghost use Rattle.telling.specs.Telling.{number_count, numbers_after};
ghost use Rattle.text_savings.specs.TextSavings.{compare_text, outcomes};
ghost use Rattle.text_savings.specs.Laws.{ToldSaving};

use baselines::Procedure;
use comparing::Baseline;
use day::Day;

// Stores the numbers of a comparison, or what its refusal carries, and the saving.
fn tell_baseline(baseline: Baseline, numbers: &mut [u64], saving: &mut i64) -> u64
    requires number_count_in_bounds { number_count ≤ length numbers.old }
    requires baseline_value { comparison_of baseline ≡ comparison_or_zero (judged baseline.verdict (comparison_of baseline)) }
    ensures { ToldSaving numbers.old (judged baseline.verdict (comparison_of baseline)) result numbers.new saving.new }
{
    *saving = baseline.saving;
    match baseline.verdict {
        Ok(()) => {
            telling::store_value(numbers, baseline.value);
            0
        }
        Err(refusal) => telling::tell(numbers, refusal),
    }
}

// Compares a day that was read. The areas are local; they suffice for every sound day.
fn compare_day(procedure: Procedure, day: Day, numbers: &mut [u64], saving: &mut i64) -> u64
    requires { number_count ≤ length numbers.old }
    ensures { ToldSaving numbers.old (compared day_limits (yard day) (row_by procedure (yard day)) cost_area choice_area) result numbers.new saving.new }
{
    let mut cost = [0u64; 4096];
    let mut choice = [0u16; 32768];
    let baseline = baselines::measure(procedure, day, &mut cost, &mut choice);
    tell_baseline(baseline, numbers, saving)
}

// Compares the day of a text: 10 where there is no room for four numbers, and then none changes.
// Stays: it gives the number of a refusal, since it is the body of two C functions, `yard_first_come_first_served` and `yard_myopic`.
pub fn compare_text(procedure: Procedure, text: &[u8], numbers: &mut [u64], saving: &mut i64) -> u64
    ensures value { result ≡ code (compare_text (row_by procedure) day_limits text.now (length numbers.old)) }
    ensures numbers_after { numbers.new ≡ numbers_after (outcomes (compare_text (row_by procedure) day_limits text.now (length numbers.old))) numbers.old }
    ensures saving_after { saving.new ≡ (comparison_or_zero (compare_text (row_by procedure) day_limits text.now (length numbers.old))).saving }
{
    *saving = 0;
    if !telling::is_room(numbers.len()) {
        return 10;
    }
    match dayread::read_record(text) {
        Ok(day) => compare_day(procedure, day, numbers, saving),
        Err(refusal) => telling::tell(numbers, refusal),
    }
}
