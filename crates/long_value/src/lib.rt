// Valuing a row of slots of a long day (order 9 of document 02): the four numbers, or refusal 8, 11, 12 or 13.
//
// Proved: for every record and every row `value_long_assignment` answers what `valued` of valuing's Valuing.antt says at the limits of
// long days. It is valuing's `value_file`, with a column of zeros for the groups: a row then parts none, and 17 is never given
// (specs/LongValued.antt). Assumes nothing.
#![tactic(auto)]

ghost use Rattle.std.specs.Prelude.{◌≡◌};
ghost use Rattle.valuing.specs.Valuing.{answer, valued};
ghost use Rattle.long_day.specs.LongDay.{long_limits, long_yard};

use counting::Value;
use day::Refusal;
use long_day::LongDay;

// Values a row of slots: the four numbers, or refusal 8, 11, 12 with the lowest such position, or 13 with the lowest such slot, checked in
// this order. For every record and every row; no lent byte changes.
pub fn value_long_assignment(day: LongDay, row: &[u8]) -> Result<Value, Refusal>
    ensures { answer result ≡ valued long_limits (long_yard day) row.now }
{
    valuing::value_file(&day.parts(), row)
}
