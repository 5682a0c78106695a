// The report over a period (document 02, order 10: the season in exact figures): one report over up to 366 day files, joined in one text
// with an empty line between.
//
// Proved: for every text and all lent memory `report_period` answers what `period_report` of specs/Period.antt says, with zeros beside a
// refusal; no byte of the text changes, and of the two areas only the words that every day can be planned in. specs/Promised.antt draws the
// order's sentences from this. Assumes nothing.
#![tactic(auto)]

ghost use Rattle.std.specs.Prelude.{◌≡◌, ◌≤◌, length};
ghost use Rattle.day.specs.Answer.{refusal, judged};
ghost use Rattle.day.specs.Sound.{day_limits};
ghost use Rattle.planning.specs.Planning.{cost_area, choice_area, open_words, Stays};
ghost use Rattle.parting.specs.Parting.{days};
ghost use Rattle.period_report.specs.Report.{most_days, tally_of};
ghost use Rattle.reporting.specs.Period.{answers, period_report, report_or_zero, period_begins};
ghost use Rattle.reporting.specs.Laws.{Says};

use day::Refusal;
use period_report::{Report, Tally};

// "one report over up to 366 day files"
const MOST_DAYS: usize = 366;

// A report, or the refusal beside a report of zeros.
// Stays: a report beside its verdict, since the second clause of `report_period` promises the zeros.
#[derive(Clone, Copy)]
pub struct Reported {
    pub verdict: Result<(), Refusal>,
    pub report: Report,
}

// The tally of the days of a text, each read and planned in turn where it stands.
fn tally_days(text: &[u8], cost: &mut [u64], choice: &mut [u16]) -> Tally
    requires { (length (days text.now) ≤ most_days) × ((length cost.old ≡ cost_area) × (length choice.old ≡ choice_area)) }
    ensures { result ≡ tally_of (answers day_limits text.now) }
{
    let mut tally = period_report::no_tally();
    if text.len() == 0 {
        return tally;
    }
    let mut at = 0;
    loop {
        let end = parting::next_empty(text, at);
        let day = day_figures::day_of(&text[at..end], cost, choice);
        tally = period_report::add_day(tally, day);
        if text.len() <= end {
            return tally;
        }
        at = end + 1;
    }
}

// A refusal, beside a report of zeros.
fn refused(given: Refusal) -> Reported
    ensures { Says (refusal given) result }
{
    Reported {
        verdict: Err(given),
        report: period_report::with_means(period_report::no_tally()),
    }
}

// One report over the day files of a text. `cost` needs 4,096 words and `choice` 32,768, whatever the days: else 10. A 367th day gets 22,
// before any day is planned.
pub fn report_period(text: &[u8], cost: &mut [u64], choice: &mut [u16]) -> Reported
    ensures report_value { judged result.verdict result.report ≡ period_report day_limits text.now (length cost.old) (length choice.old) }
    ensures report_value_2 { result.report ≡ report_or_zero (period_report day_limits text.now (length cost.old) (length choice.old)) }
    ensures stays { Stays (open_words (period_begins text.now (length cost.old) (length choice.old)) cost_area) cost.old cost.new }
    ensures stays_2 { Stays (open_words (period_begins text.now (length cost.old) (length choice.old)) choice_area) choice.old choice.new }
{
    if !planning::are_areas_enough(cost.len(), choice.len()) {
        return refused(Refusal::TooShort);
    }
    if !parting::has_at_most(text, MOST_DAYS) {
        return refused(Refusal::TooManyDays);
    }
    let tally = tally_days(text, &mut cost[..4096], &mut choice[..32768]);
    Reported {
        verdict: Ok(()),
        report: period_report::with_means(tally),
    }
}
