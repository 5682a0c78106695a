// The answer of yard-plan (document 01, "The program"): from the text of a day file to the bytes that are printed, the plan file of the
// best row or the two lines of a refusal.
//
// Proved: for every text and every output `answer_text` answers and leaves what `answer_text` of specs/Answering.antt says, and as many
// bytes of output as the greatest plan file has always suffice. Assumes nothing.
#![tactic(auto)]

ghost use Rattle.std.specs.Prelude.{◌≡◌, ◌≤◌, T, length};
ghost use Rattle.model.specs.BestOf.{best_of};
ghost use Rattle.day.specs.Sound.{day_limits, yard, sound};
ghost use Rattle.decimal.specs.Place.{Put};
ghost use Rattle.output.specs.Output.{answer};
ghost use Rattle.planfile.specs.Size.{plan_bytes};
ghost use Rattle.answering.specs.Answering.{day_reply, answer_text, answer_writes, answer_leaves};

use day::{Day, Refusal};

// Plans a sound day and puts the reply at the front: the plan file of the best row, or the two lines of 9 or 16. Gives its length. The areas
// are local; they suffice for every sound day.
fn put_best(out: &mut [u8], day: Day) -> usize
    requires { T (sound day_limits (yard day)) × (plan_bytes ≤ length out.old) }
    ensures { Put out.old out.new 0 result (day_reply (yard day) (best_of (yard day))) × (result ≤ plan_bytes) }
{
    let mut cost = [0u64; 4096];
    let mut choice = [0u16; 32768];
    let mut row = [0u8; 12];
    match planning::plan(day, &mut cost, &mut choice, &mut row) {
        Ok(value) => planfile::put_plan(out, &day.numbers, &row, day.trains, value),
        Err(refusal) => refusal_text::put_refusal(out, refusal),
    }
}

// Reads a text and puts the answer at the front. Gives its length.
fn put_answer(text: &[u8], out: &mut [u8]) -> usize
    requires { plan_bytes ≤ length out.old }
    ensures { Put out.old out.new 0 result (answer_text day_limits text.now) × (result ≤ plan_bytes) }
{
    match dayread::read_record(text) {
        Ok(day) => put_best(out, day),
        Err(refusal) => refusal_text::put_refusal(out, refusal),
    }
}

// Answers a text. The output is lent: its first bytes become the answer, the others stay; 10 where it is too short, and then no byte
// changes.
pub fn answer_text(text: &[u8], out: &mut [u8]) -> Result<usize, Refusal>
    ensures result_value { answer result ≡ answer_writes day_limits text.now (length out.old) }
    ensures out_after { out.new ≡ answer_leaves day_limits text.now out.old }
    ensures text_len_bound { length (answer_text day_limits text.now) ≤ plan_bytes }
{
    let mut reply = [0u8; planfile::PLAN_BYTES];
    let count = put_answer(text, &mut reply);
    output::write_text(&reply[..count], out)
}
