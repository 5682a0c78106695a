// Writing a plan as a plan file (document 01): a day and a row; checks 8, 11, 12, 13, 17, then 10; fills the first bytes of the output,
// returns their count and leaves the bytes beyond. A refusal changes no byte.
//
// Proved: for every record, every row and every output `write_plan` answers and leaves what `plan_writes` and `plan_leaves` of
// specs/PlanText.antt say of valuing's checks and of the plan's text, which has at most `plan_bytes` bytes (specs/Size.antt). The
// functions below it take a lent day or slices, so that records of other sizes use them too. Assumes nothing.
#![tactic(auto)]

ghost use Rattle.std.specs.Prelude.{◌≡◌, ◌+◌, ◌≤◌, T, length};
ghost use Rattle.model.specs.Model.{allowed};
ghost use Rattle.day.specs.Parts.{part_yard, IsShaped};
ghost use Rattle.day.specs.Sound.{day_limits, yard, sound};
ghost use Rattle.decimal.specs.Place.{Put};
ghost use Rattle.output.specs.Output.{answer};
ghost use Rattle.counting.specs.Counting.{outcome_of};
ghost use Rattle.planfile.specs.PlanText.{plan_lines, plan_text, plan_writes, plan_leaves};
ghost use Rattle.planfile.specs.Laws.{value_lines, slot_lines};

use counting::Value;
use day::{Day, Parts, Refusal};

// The greatest size of a plan file (specs/Size.antt).
pub const PLAN_BYTES: usize = 161;

pub const VALUE_NAMES: [u8; 28] = *b"revisits splits direct cost\n";

pub const SLOT_NAMES: [u8; 11] = *b"train slot\n";

// Puts the first section at the front: its names line and the row's four numbers. Gives the place after it.
fn put_values(out: &mut [u8], value: Value) -> usize
    requires { length (value_lines (outcome_of value)) ≤ length out.old }
    ensures { Put out.old out.new 0 result (value_lines (outcome_of value)) }
{
    let next = output::put_bytes(out, 0, &VALUE_NAMES);
    let row = [
        value.revisits.count(),
        value.splits.count(),
        value.direct.count(),
        value.cost,
    ];
    output::put_row(out, next, &row)
}

// Puts the second section from a place on: its names line and the slots of n trains. Gives the place after it.
fn put_slots(out: &mut [u8], at: usize, numbers: &[u32], row: &[u8], n: usize) -> usize
    requires n_in_bounds { (n ≤ length numbers.now) × (n ≤ length row.now) }
    requires n_in_bounds_2 { at + length (slot_lines numbers.now row.now n) ≤ length out.old }
    ensures { Put out.old out.new at result (slot_lines numbers.now row.now n) }
{
    let mut next = output::put_bytes(out, at, &SLOT_NAMES);
    for i in 0..n {
        next = output::put_row(out, next, &[u64::from(numbers[i]), u64::from(row[i])]);
    }
    next
}

// Puts the plan file of a row of n trains, whose four numbers are given, at the front. Gives its length.
pub fn put_plan(out: &mut [u8], numbers: &[u32], row: &[u8], n: usize, value: Value) -> usize
    requires n_in_bounds { (n ≤ length numbers.now) × (n ≤ length row.now) }
    requires row_in_bounds { length (plan_lines n numbers.now (outcome_of value) row.now) ≤ length out.old }
    ensures { Put out.old out.new 0 result (plan_lines n numbers.now (outcome_of value) row.now) }
{
    let next = put_values(out, value);
    put_slots(out, next, numbers, row, n)
}

// Writes the plan of a row of a lent day by way of a buffer that holds its text, so that its length is known before the output changes.
pub fn write_plan_file(
    p: &Parts,
    row: &[u8],
    buffer: &mut [u8],
    out: &mut [u8],
) -> Result<usize, Refusal>
    requires shape { IsShaped p.now × (p.now.limits.trains ≤ 64) }
    requires room { T (sound p.now.limits (part_yard p.now)) → T (allowed (part_yard p.now) row.now) → length (plan_text (part_yard p.now) row.now) ≤ length buffer.old }
    ensures result_value { answer result ≡ plan_writes p.now.limits (part_yard p.now) row.now (length out.old) }
    ensures out_after { out.new ≡ plan_leaves p.now.limits (part_yard p.now) row.now out.old }
{
    let value = valuing::value_file(p, row)?;
    let count = put_plan(buffer, p.numbers, row, p.head.trains, value);
    output::write_text(&buffer[..count], out)
}

// Writes the plan of a row. The output is lent: its first bytes become the plan file, the others stay; a refusal changes none. The buffer
// holds the text of every allowed row (specs/Size.antt).
pub fn write_plan(day: Day, row: &[u8], out: &mut [u8]) -> Result<usize, Refusal>
    ensures result_value { answer result ≡ plan_writes day_limits (yard day) row.now (length out.old) }
    ensures out_after { out.new ≡ plan_leaves day_limits (yard day) row.now out.old }
{
    let mut text = [0u8; PLAN_BYTES];
    write_plan_file(&day.parts(), row, &mut text, out)
}
