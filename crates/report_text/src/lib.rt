// The lines of a report over a period, as yard-season prints them (docs/FORMAT.md).
//
// Proved: `put_report` puts `report_text` of specs/ReportText.antt at the front of an output that holds it; for the numbers of a year 512
// bytes do (specs/Size.antt). Assumes nothing.
#![tactic(auto)]

ghost use Rattle.std.specs.Prelude.{◌≡◌, ◌+◌, ◌≤◌, ◌<◌, length};
ghost use Rattle.decimal.specs.Place.{Put};
ghost use Rattle.period_report.specs.Report.{counters};
ghost use Rattle.report_text.specs.ReportText.{refusal_count, refused_days, report_text};
ghost use Rattle.report_text.specs.Laws.{Countable, day_lines, refusal_line, refusal_lines, figure_lines, figures_lines};

use day_figures::Figures;
use period_report::{Mean, Means, Report};

// Refusals have the numbers 1 to 26.
const REFUSALS: usize = 26;

const DAY_NAMES: [u8; 21] = *b"days planned refused\n";

const REFUSAL_NAMES: [u8; 13] = *b"refusal days\n";

const REVISIT_NAMES: [u8; 24] = *b"revisits mean remainder\n";

const SPLIT_NAMES: [u8; 22] = *b"splits mean remainder\n";

const DIRECT_NAMES: [u8; 22] = *b"direct mean remainder\n";

const BOX_NAMES: [u8; 21] = *b"boxes mean remainder\n";

const SAVING_NAMES: [u8; 8] = *b"savings\n";

// The refused days, under whatever number.
fn refused_days(days: &[u64]) -> u64
    requires { Countable days.now }
    ensures { result ≡ refused_days days.now }
{
    let mut refused = 0;
    for i in 0usize..REFUSALS {
        refused += days[i + 1];
    }
    refused
}

// Puts the first section at the front: its names line and the days, all, those planned and those refused. Gives the place after it.
fn put_days(out: &mut [u8], days: &[u64]) -> usize
    requires { Countable days.now × (length (day_lines days.now) ≤ length out.old) }
    ensures { Put out.old out.new 0 result (day_lines days.now) }
{
    let refused = refused_days(days);
    let next = output::put_bytes(out, 0, &DAY_NAMES);
    output::put_row(out, next, &[days[0] + refused, days[0], refused])
}

// Puts the row of refusal i + 1 where a day was refused under it, and nothing where none was.
fn put_refused(out: &mut [u8], at: usize, days: &[u64], i: usize) -> usize
    requires i_lt_refusal_count { (i < refusal_count) × (length days.now ≡ counters) }
    requires i_in_bounds { at + length (refusal_line days.now i) ≤ length out.old }
    ensures { Put out.old out.new at result (refusal_line days.now i) }
{
    let k = i + 1;
    if days[k] == 0 {
        return at;
    }
    output::put_row(out, at, &[k as u64, days[k]])
}

// Puts the second section from a place on: its names line and a row for each number under which a day was refused. Gives the place after
// it.
fn put_refusals(out: &mut [u8], at: usize, days: &[u64]) -> usize
    requires { (length days.now ≡ counters) × (at + length (refusal_lines days.now) ≤ length out.old) }
    ensures { Put out.old out.new at result (refusal_lines days.now) }
{
    let mut next = output::put_bytes(out, at, &REFUSAL_NAMES);
    for i in 0usize..REFUSALS {
        next = put_refused(out, next, days, i);
    }
    next
}

// Puts the section of one figure from a place on: its names line, and its total and mean. Gives the place after it.
fn put_figure(out: &mut [u8], at: usize, names: &[u8], total: u64, mean: Mean) -> usize
    requires { at + length (figure_lines names.now total mean) ≤ length out.old }
    ensures { Put out.old out.new at result (figure_lines names.now total mean) }
{
    let next = output::put_bytes(out, at, names);
    output::put_row(out, next, &[total, mean.quotient, mean.remainder])
}

// Puts the sections of the figures from a place on, and the savings after them; each place is named after what is put there. Gives the
// place after all.
fn put_figures(out: &mut [u8], at: usize, totals: Figures, means: Means) -> usize
    requires { at + length (figures_lines totals means) ≤ length out.old }
    ensures { Put out.old out.new at result (figures_lines totals means) }
{
    let splits = put_figure(out, at, &REVISIT_NAMES, totals.revisits, means.revisits);
    let direct = put_figure(out, splits, &SPLIT_NAMES, totals.splits, means.splits);
    let boxes = put_figure(out, direct, &DIRECT_NAMES, totals.direct, means.direct);
    let savings = put_figure(out, boxes, &BOX_NAMES, totals.boxes, means.boxes);
    let row = output::put_bytes(out, savings, &SAVING_NAMES);
    output::put_row(out, row, &[totals.savings])
}

// Puts the report at the front. Gives its length.
pub fn put_report(out: &mut [u8], report: Report) -> usize
    requires { Countable report.days × (length (report_text report) ≤ length out.old) }
    ensures { Put out.old out.new 0 result (report_text report) }
{
    let days = report.days;
    let totals = report.totals;
    let means = report.means;
    let refusals = put_days(out, &days);
    let figures = put_refusals(out, refusals, &days);
    put_figures(out, figures, totals, means)
}
