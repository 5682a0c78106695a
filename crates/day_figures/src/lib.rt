// One day of a report over a period (document 02, order 10): a day file read and planned, and compared with first come.
//
// Proved: `day_of` answers what `day_answer` of specs/Figures.antt says of any text, by the answers of reading, planning and comparing; each
// day is planned once. Assumes nothing.
#![tactic(auto)]

ghost use Rattle.std.specs.Prelude.{◌≡◌, length};
ghost use Rattle.day.specs.Answer.{gives};
ghost use Rattle.day.specs.Sound.{day_limits, yard};
ghost use Rattle.counting.specs.Counting.{outcome_of};
ghost use Rattle.planning.specs.Planning.{cost_area, choice_area, planned};
ghost use Rattle.procedures.specs.Procedures.{first_come};
ghost use Rattle.baselines.specs.Baselines.{compared};
ghost use Rattle.day_figures.specs.Figures.{answer, saved, figures, plan_answer, day_answer};

use baselines::Procedure;
use counting::Value;
use day::{Day, Refusal};

// The figures of a planned day, or of several, added up: revisits, split moves, direct moves, all boxes, and what planning saves against
// first come.
#[derive(Clone, Copy)]
pub struct Figures {
    pub revisits: u64,
    pub splits: u64,
    pub direct: u64,
    pub boxes: u64,
    pub savings: u64,
}

// What first come costs more than the plan of a day; 0 where it gives no allowed row.
fn saved_by(day: Day, best: Value) -> u64
    requires { planned day_limits (yard day) cost_area choice_area day.trains ≡ gives (outcome_of best) }
    ensures { result ≡ saved (outcome_of best) (compared day_limits (yard day) (first_come (yard day)) cost_area choice_area) }
{
    let baseline = baselines::compare_with(Procedure::FirstCome, day, best.cost);
    match baseline.verdict {
        Ok(()) => baseline.value.cost - best.cost,
        Err(_) => 0,
    }
}

// The figures of a day whose plan has these numbers. Its boxes are the split and the direct moves.
fn figures_of(day: Day, best: Value) -> Figures
    requires { planned day_limits (yard day) cost_area choice_area day.trains ≡ gives (outcome_of best) }
    ensures { result ≡ figures day_limits (yard day) (outcome_of best) }
{
    let splits = best.splits.count();
    let direct = best.direct.count();
    Figures {
        revisits: best.revisits.count(),
        splits,
        direct,
        boxes: direct + splits,
        savings: saved_by(day, best),
    }
}

// Plans a day in areas that suffice for every day.
fn plan_day(day: Day, cost: &mut [u64], choice: &mut [u16]) -> Result<Figures, Refusal>
    requires { (length cost.old ≡ cost_area) × (length choice.old ≡ choice_area) }
    ensures { answer result ≡ plan_answer day_limits (yard day) }
{
    let best = baselines::plan_cost(day, cost, choice)?;
    Ok(figures_of(day, best))
}

// A day file, read and planned: its figures, or why it is refused.
pub fn day_of(text: &[u8], cost: &mut [u64], choice: &mut [u16]) -> Result<Figures, Refusal>
    requires { (length cost.old ≡ cost_area) × (length choice.old ≡ choice_area) }
    ensures { answer result ≡ day_answer day_limits text.now }
{
    let day = dayread::read_record(text)?;
    plan_day(day, cost, choice)
}
