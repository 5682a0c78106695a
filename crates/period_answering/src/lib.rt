// The answer of yard-season (docs/FORMAT.md): from the day files of a period, joined in one text, to the bytes that are printed.
//
// Proved: for every text and every output `answer_period` answers and leaves what `period_text` of specs/PeriodAnswering.antt says, and 512 bytes of
// output always suffice. Assumes nothing.
#![tactic(auto)]

ghost use Rattle.std.specs.Prelude.{◌≡◌, ◌≤◌, length};
ghost use Rattle.decimal.specs.Place.{Put};
ghost use Rattle.output.specs.Output.{answer};
ghost use Rattle.report_text.specs.Size.{report_bytes};
ghost use Rattle.period_answering.specs.PeriodAnswering.{period_text, period_writes, period_leaves};

use day::Refusal;

// Bytes that suffice for every report (report_text's Size.antt).
pub const REPORT_BYTES: usize = 512;

// Puts the report over the days of a text, or the two lines of its refusal, at the front. Gives its length. The areas are local.
fn put_period(text: &[u8], out: &mut [u8]) -> usize
    requires { report_bytes ≤ length out.old }
    ensures { Put out.old out.new 0 result (period_text text.now) × (result ≤ report_bytes) }
{
    let mut cost = [0u64; 4096];
    let mut choice = [0u16; 32768];
    let reported = reporting::report_period(text, &mut cost, &mut choice);
    match reported.verdict {
        Ok(()) => report_text::put_report(out, reported.report),
        Err(refusal) => refusal_text::put_refusal(out, refusal),
    }
}

// Answers a text. The output is lent: its first bytes become the answer, the others stay; 10 where it is too short, and then no byte
// changes.
pub fn answer_period(text: &[u8], out: &mut [u8]) -> Result<usize, Refusal>
    ensures result_value { answer result ≡ period_writes text.now (length out.old) }
    ensures out_after { out.new ≡ period_leaves text.now out.old }
    ensures text_len_bound { length (period_text text.now) ≤ report_bytes }
{
    let mut reply = [0u8; REPORT_BYTES];
    let count = put_period(text, &mut reply);
    output::write_text(&reply[..count], out)
}
