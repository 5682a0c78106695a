// Writing a long day as a file (order 9 of document 02): checks 8, then 10; fills the first bytes of the output, returns their count and
// leaves the bytes beyond. A refusal changes no byte.
//
// Proved: for every record and every output `write_long_day` answers and leaves what `day_writes` and `day_leaves` of dayfile's Calls.antt
// say at the limits of long days. It is daywrite's `write_file`, as writing a day is. Assumes nothing.
#![tactic(auto)]

ghost use Rattle.std.specs.Prelude.{◌≡◌, length};
ghost use Rattle.dayfile.specs.Calls.{day_writes, day_leaves};
ghost use Rattle.output.specs.Output.{answer};
ghost use Rattle.long_day.specs.LongDay.{long_limits, long_yard};

use day::Refusal;
use long_day::LongDay;

// Writes a long day. The output is lent: its first bytes become the file, the others stay; a refusal changes none. The buffer holds the text
// of every sound long day (long_file's LongFile.antt).
pub fn write_long_day(day: LongDay, out: &mut [u8]) -> Result<usize, Refusal>
    ensures result_value { answer result ≡ day_writes long_limits (long_yard day) (length out.old) }
    ensures out_after { out.new ≡ day_leaves long_limits (long_yard day) out.old }
{
    let mut text = [0u8; long_file::LONG_DAY_BYTES];
    daywrite::write_file(&day.parts(), &mut text, out)
}
