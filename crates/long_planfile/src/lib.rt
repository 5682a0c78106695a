// Writing the plan of a long day as a plan file (order 9 of document 02): a long day and a row; checks 8, 11, 12, 13, then 10; fills the
// first bytes of the output, returns their count and leaves the bytes beyond. A refusal changes no byte.
//
// Proved: for every record, every row and every output `write_long_plan` answers and leaves what `plan_writes` and `plan_leaves` of
// planfile's PlanText.antt say at the limits of long days. The text has at most `long_plan_bytes` bytes (specs/Size.antt), and some plan's
// has just as many (specs/Reached.antt). Assumes nothing.
#![tactic(auto)]

ghost use Rattle.std.specs.Prelude.{◌≡◌, length};
ghost use Rattle.output.specs.Output.{answer};
ghost use Rattle.planfile.specs.PlanText.{plan_writes, plan_leaves};
ghost use Rattle.long_day.specs.LongDay.{long_limits, long_yard};

use day::Refusal;
use long_day::LongDay;

// The greatest size of a long day's plan file (specs/Size.antt).
pub const LONG_PLAN_BYTES: usize = 367;

// Writes the plan of a row. The output is lent: its first bytes become the plan file, the others stay; a refusal changes none. The buffer
// holds the text of every such row (specs/Size.antt).
pub fn write_long_plan(day: LongDay, row: &[u8], out: &mut [u8]) -> Result<usize, Refusal>
    ensures result_value { answer result ≡ plan_writes long_limits (long_yard day) row.now (length out.old) }
    ensures out_after { out.new ≡ plan_leaves long_limits (long_yard day) row.now out.old }
{
    let mut text = [0u8; LONG_PLAN_BYTES];
    planfile::write_plan_file(&day.parts(), row, &mut text, out)
}
