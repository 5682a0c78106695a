// The report over the days of a text (order 10 of document 02), in numbers told to a caller.
//
// Proved: for every text and lent memory `tell_report` returns and leaves what specs/TextPeriod.antt says; specs/Laws.antt has the header's words
// for it. Assumes nothing.
#![tactic(auto)]

ghost use Rattle.std.specs.Prelude.{◌≡◌, ◌+◌, ◌≤◌, length};
ghost use Rattle.day.specs.Answer.{code};
ghost use Rattle.day.specs.Sound.{day_limits};
ghost use Rattle.decimal.specs.Place.{Put};
ghost use Rattle.period_report.specs.Report.{counters};
ghost use Rattle.text_period.specs.TextPeriod.{report_count, report_numbers, report_for, report_after};

use period_report::Report;

// Stores numbers from a place on, and gives the place after them.
fn put_numbers(out: &mut [u64], at: usize, numbers: &[u64]) -> usize
    requires { at + length numbers.now ≤ length out.old }
    ensures { Put out.old out.new at result numbers.now }
{
    let end = at + numbers.len();
    out[at..end].copy_from_slice(numbers);
    end
}

// Stores the numbers of a report at the front.
fn store_report(out: &mut [u64], report: Report)
    requires { (length report.days ≡ counters) × (report_count ≤ length out.old) }
    ensures { Put out.old out.new 0 report_count (report_numbers report) }
{
    let days = report.days;
    let totals = report.totals;
    let means = report.means;
    let figures = [
        totals.revisits,
        totals.splits,
        totals.direct,
        totals.boxes,
        totals.savings,
        means.revisits.quotient,
        means.revisits.remainder,
        means.splits.quotient,
        means.splits.remainder,
        means.direct.quotient,
        means.direct.remainder,
        means.boxes.quotient,
        means.boxes.remainder,
    ];
    let next = put_numbers(out, 0, &days);
    put_numbers(out, next, &figures);
}

// The report over the days of a text: 0 with its numbers, or 22 with zeros. 10 where there is no room for them, and then none changes. The
// areas are local.
// Stays: it gives the number of a refusal, since it is the body of the C function `yard_season`.
pub fn tell_report(text: &[u8], numbers: &mut [u64]) -> u64
    ensures value { result ≡ code (report_for day_limits text.now (length numbers.old)) }
    ensures numbers_after { numbers.new ≡ report_after (report_for day_limits text.now (length numbers.old)) numbers.old }
{
    if numbers.len() < 40 {
        return 10;
    }
    let mut cost = [0u64; 4096];
    let mut choice = [0u16; 32768];
    let reported = reporting::report_period(text, &mut cost, &mut choice);
    store_report(numbers, reported.report);
    refusals::number_of(reported.verdict)
}
