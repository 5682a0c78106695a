// The answer of yard-long (order 9 of document 02): from the text of a long day's file to the bytes that are printed, the plan file of the
// row that the beam search finds at width 30 or the two lines of a refusal.
//
// Proved: for every text and every output `answer_long_text` answers and leaves what `long_answer_text` of specs/LongAnswering.antt says, and
// as many bytes of output as the greatest plan file of a long day has always suffice. Assumes nothing.
#![tactic(auto)]

ghost use Rattle.std.specs.Prelude.{◌≡◌, ◌≤◌, T, length};
ghost use Rattle.day.specs.Sound.{sound};
ghost use Rattle.decimal.specs.Place.{Put};
ghost use Rattle.output.specs.Output.{answer};
ghost use Rattle.answering.specs.Answering.{day_reply};
ghost use Rattle.long_day.specs.LongDay.{long_limits, long_yard};
ghost use Rattle.long_planfile.specs.Size.{long_plan_bytes};
ghost use Rattle.long_answering.specs.LongAnswering.{long_row, long_answer_text, long_answer_writes, long_answer_leaves};

use day::Refusal;
use long_day::LongDay;

// Plans a sound long day at width 30 and puts the reply at the front: the plan file of the row, or the two lines of 9. Gives its length. The
// row is local; it suffices for every sound long day.
fn put_row(out: &mut [u8], day: LongDay) -> usize
    requires { T (sound long_limits (long_yard day)) × (long_plan_bytes ≤ length out.old) }
    ensures { Put out.old out.new 0 result (day_reply (long_yard day) (long_row (long_yard day))) × (result ≤ long_plan_bytes) }
{
    let mut row = [0u8; 36];
    match long_planning::plan_long(day, 30, &mut row) {
        Ok(found) => planfile::put_plan(out, &day.numbers, &row, day.trains, found.value),
        Err(refusal) => refusal_text::put_refusal(out, refusal),
    }
}

// Reads a text and puts the answer at the front. Gives its length.
fn put_long_answer(text: &[u8], out: &mut [u8]) -> usize
    requires { long_plan_bytes ≤ length out.old }
    ensures { Put out.old out.new 0 result (long_answer_text text.now) × (result ≤ long_plan_bytes) }
{
    match long_read::read_long_record(text) {
        Ok(day) => put_row(out, day),
        Err(refusal) => refusal_text::put_refusal(out, refusal),
    }
}

// Answers a text. The output is lent: its first bytes become the answer, the others stay; 10 where it is too short, and then no byte
// changes.
pub fn answer_long_text(text: &[u8], out: &mut [u8]) -> Result<usize, Refusal>
    ensures result_value { answer result ≡ long_answer_writes text.now (length out.old) }
    ensures out_after { out.new ≡ long_answer_leaves text.now out.old }
    ensures text_len_bound { length (long_answer_text text.now) ≤ long_plan_bytes }
{
    let mut reply = [0u8; long_planfile::LONG_PLAN_BYTES];
    let count = put_long_answer(text, &mut reply);
    output::write_text(&reply[..count], out)
}
