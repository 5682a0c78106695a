// What planning saves (document 02, order 1): a day's first come, first served and its myopic start procedure, each compared with the
// best plan. They are the order's yardsticks.
//
// Proved: for every record and all lent memory each call answers what `compared` of specs/Baselines.antt says of its procedure's row, with
// zeros beside a refusal; of the two areas only the words that planning needs may change. specs/Savings.antt: no saving is below zero.
// Assumes nothing.
#![tactic(auto)]

ghost use Rattle.std.specs.Prelude.{◌≡◌, ◌^◌, ◌<◌, T, length, replicate};
ghost use Rattle.day.specs.Answer.{judged};
ghost use Rattle.day.specs.Sound.{day_limits, yard, sound};
ghost use Rattle.planning.specs.Planning.{answer as plan_answer, planned, Stays};
ghost use Rattle.procedures.specs.Procedures.{first_come, myopic};
ghost use Rattle.comparing.specs.Comparing.{comparison_of, comparison_or_zero, against};
ghost use Rattle.baselines.specs.Baselines.{row_by, compared, open_costs, open_choices};
ghost use Rattle.comparing.specs.Comparing.{Says};

use comparing::Baseline;
use counting::Value;
use day::{Day, Refusal};
use procedures::LentDay;

// The procedures that planning is compared with.
#[derive(Clone, Copy)]
pub enum Procedure {
    FirstCome,
    Myopic,
}

// Plans a day for its cost alone: the row is local, and long enough for every sound day.
pub fn plan_cost(day: Day, cost: &mut [u64], choice: &mut [u16]) -> Result<Value, Refusal>
    ensures result_value { plan_answer result ≡ planned day_limits (yard day) (length cost.old) (length choice.old) day.trains }
    ensures stays { Stays (open_costs day_limits (yard day) (length cost.old) (length choice.old)) cost.old cost.new }
    ensures stays_2 { Stays (open_choices day_limits (yard day) (length cost.old) (length choice.old)) choice.old choice.new }
{
    let mut row = [0u8; 12];
    planning::plan(day, cost, choice, &mut row)
}

// Fills a row of n zeros by a procedure.
fn fill_row(procedure: Procedure, day: Day, row: &mut [u8])
    requires { T (sound day_limits (yard day)) × (row.old ≡ replicate day.trains 0) }
    ensures { row.new ≡ row_by procedure (yard day) }
{
    let lent = LentDay {
        trains: day.trains,
        tracks: day.tracks,
        slots: day.slots,
        revisit: day.revisit,
        split: day.split,
        first: &day.first,
        last: &day.last,
        width: 12,
        boxes: &day.boxes,
    };
    match procedure {
        Procedure::FirstCome => procedures::come_first(&lent, row),
        Procedure::Myopic => procedures::serve_myopic(&lent, row),
    }
}

// A procedure's row on a sound day, against a planned cost.
pub fn compare_with(procedure: Procedure, day: Day, best: u64) -> Baseline
    requires { T (sound day_limits (yard day)) × (best < 2 ^ 63) }
    ensures { Says (against (yard day) (row_by procedure (yard day)) best) result }
{
    let n = day.trains;
    let mut row = [0u8; 12];
    fill_row(procedure, day, &mut row[..n]);
    comparing::compare(day, &row[..n], best)
}

// A procedure against the best plan. `cost` needs 2^n words, `choice` T × 2^n words: else 10.
pub fn measure(procedure: Procedure, day: Day, cost: &mut [u64], choice: &mut [u16]) -> Baseline
    ensures result_value { judged result.verdict (comparison_of result) ≡ compared day_limits (yard day) (row_by procedure (yard day)) (length cost.old) (length choice.old) }
    ensures result_value_2 { comparison_of result ≡ comparison_or_zero (compared day_limits (yard day) (row_by procedure (yard day)) (length cost.old) (length choice.old)) }
    ensures stays { Stays (open_costs day_limits (yard day) (length cost.old) (length choice.old)) cost.old cost.new }
    ensures stays_2 { Stays (open_choices day_limits (yard day) (length cost.old) (length choice.old)) choice.old choice.new }
{
    match plan_cost(day, cost, choice) {
        Ok(best) => compare_with(procedure, day, best.cost),
        Err(refusal) => comparing::refused(refusal),
    }
}

// First come, first served: the trains in file order each take the earliest slot in their window with a track free.
pub fn first_come_first_served(day: Day, cost: &mut [u64], choice: &mut [u16]) -> Baseline
    ensures result_value { judged result.verdict (comparison_of result) ≡ compared day_limits (yard day) (first_come (yard day)) (length cost.old) (length choice.old) }
    ensures result_value_2 { comparison_of result ≡ comparison_or_zero (compared day_limits (yard day) (first_come (yard day)) (length cost.old) (length choice.old)) }
    ensures stays { Stays (open_costs day_limits (yard day) (length cost.old) (length choice.old)) cost.old cost.new }
    ensures stays_2 { Stays (open_choices day_limits (yard day) (length cost.old) (length choice.old)) choice.old choice.new }
{
    measure(Procedure::FirstCome, day, cost, choice)
}

// The myopic start procedure (source 000, section 4.2): slot after slot and track after track the train that adds least by (11), of those
// whose window holds the slot.
pub fn myopic_start(day: Day, cost: &mut [u64], choice: &mut [u16]) -> Baseline
    ensures result_value { judged result.verdict (comparison_of result) ≡ compared day_limits (yard day) (myopic (yard day)) (length cost.old) (length choice.old) }
    ensures result_value_2 { comparison_of result ≡ comparison_or_zero (compared day_limits (yard day) (myopic (yard day)) (length cost.old) (length choice.old)) }
    ensures stays { Stays (open_costs day_limits (yard day) (length cost.old) (length choice.old)) cost.old cost.new }
    ensures stays_2 { Stays (open_choices day_limits (yard day) (length cost.old) (length choice.old)) choice.old choice.new }
{
    measure(Procedure::Myopic, day, cost, choice)
}
