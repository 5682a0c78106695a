// The figures of a report over a period (document 02, order 10): days counted by their answers, totals, means.
//
// Proved: `no_tally` is that of no days, `add_day` adds a day to one that has room, and `with_means` divides, as specs/Report.antt says.
// Assumes nothing.
#![tactic(auto)]

ghost use Rattle.std.specs.Prelude.{◌≡◌, ◌+◌, ◌<◌, [], length, get_or, set};
ghost use Rattle.day_figures.specs.Figures.{answer};
ghost use Rattle.period_report.specs.Report.{counters, mean, tally_of, with_means};
ghost use Rattle.day_figures.specs.Laws.{Within, Small};
ghost use Rattle.period_report.specs.Laws.{plus, added, sum_limit, Light};

use day::Refusal;
use day_figures::Figures;
use refusals::Numbered;

// The figures so far: the days by the numbers of their answers, at 0 those planned and at k those refused under k; and the totals of those
// planned.
#[derive(Clone, Copy)]
pub struct Tally {
    pub days: [u64; 27],
    pub totals: Figures,
}

// A mean over the planned days: quotient × planned days + remainder is the total.
#[derive(Clone, Copy)]
pub struct Mean {
    pub quotient: u64,
    pub remainder: u64,
}

#[derive(Clone, Copy)]
pub struct Means {
    pub revisits: Mean,
    pub splits: Mean,
    pub direct: Mean,
    pub boxes: Mean,
}

// The report: the tally of all days, and the means.
#[derive(Clone, Copy)]
pub struct Report {
    pub days: [u64; 27],
    pub totals: Figures,
    pub means: Means,
}

// The tally of no days.
pub fn no_tally() -> Tally
    ensures { result ≡ tally_of [] }
{
    Tally {
        days: [0; 27],
        totals: Figures {
            revisits: 0,
            splits: 0,
            direct: 0,
            boxes: 0,
            savings: 0,
        },
    }
}

// The counters with one day more under a number.
fn count_day(days: [u64; 27], number: u64) -> [u64; 27]
    requires { (number < counters) × (get_or days number 0 < sum_limit) }
    ensures { result ≡ set days number (get_or days number 0 + 1) }
{
    let k = number as usize;
    let mut more = days;
    more[k] = days[k] + 1;
    more
}

// Figures added up.
fn add_figures(a: Figures, b: Figures) -> Figures
    requires { Within sum_limit a × Within sum_limit b }
    ensures { result ≡ plus a b }
{
    Figures {
        revisits: a.revisits + b.revisits,
        splits: a.splits + b.splits,
        direct: a.direct + b.direct,
        boxes: a.boxes + b.boxes,
        savings: a.savings + b.savings,
    }
}

// The tally with one day more: a planned day's figures are added, and a refused one is counted under its number.
pub fn add_day(tally: Tally, day: Result<Figures, Refusal>) -> Tally
    requires { Light tally × Small sum_limit (answer day) }
    ensures { result ≡ added tally (answer day) }
{
    match day {
        Ok(figures) => Tally {
            days: count_day(tally.days, 0),
            totals: add_figures(tally.totals, figures),
        },
        Err(refusal) => {
            let told = Numbered::from(refusal);
            Tally {
                days: count_day(tally.days, told.number),
                totals: tally.totals,
            }
        }
    }
}

// A mean over so many planned days.
fn mean_of(total: u64, planned: u64) -> Mean
    ensures { result ≡ mean total planned }
{
    if planned == 0 {
        return Mean {
            quotient: 0,
            remainder: 0,
        };
    }
    Mean {
        quotient: total / planned,
        remainder: total % planned,
    }
}

// The report of a tally.
pub fn with_means(tally: Tally) -> Report
    requires { length tally.days ≡ counters }
    ensures { result ≡ with_means tally }
{
    let totals = tally.totals;
    let planned = tally.days[0];
    Report {
        days: tally.days,
        totals,
        means: Means {
            revisits: mean_of(totals.revisits, planned),
            splits: mean_of(totals.splits, planned),
            direct: mean_of(totals.direct, planned),
            boxes: mean_of(totals.boxes, planned),
        },
    }
}
