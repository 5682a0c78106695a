// Comparing a row of slots with the planned cost (document 02, order 1): its four numbers and the saving, or refusal 14.
//
// Proved: `compare` says `against` of specs/Comparing.antt, with zeros beside a refusal. Assumes nothing.
#![tactic(auto)]

ghost use Rattle.std.specs.Prelude.{◌≤◌, ◌<◌, ◌^◌, T, length};
ghost use Rattle.day.specs.Answer.{refusal};
ghost use Rattle.day.specs.Sound.{day_limits, yard, sound};
ghost use Rattle.comparing.specs.Comparing.{against};
ghost use Rattle.comparing.specs.Comparing.{Says};

use counting::Value;
use day::{Day, Refusal};

// The four numbers of a procedure's row, and the saving, its cost less the planned cost; zeros with a refusal.
// Stays: numbers beside a verdict, since `Says` (the contracts of `compare`, `compare_with`) and the second clause of `measure` promise the zeros.
#[derive(Clone, Copy)]
pub struct Baseline {
    pub verdict: Result<(), Refusal>,
    pub value: Value,
    pub saving: i64,
}

// A refusal, beside zeros.
pub fn refused(given: Refusal) -> Baseline
    ensures { Says (refusal given) result }
{
    Baseline {
        verdict: Err(given),
        value: counting::zero_value(),
        saving: 0,
    }
}

// Compares a row of a sound day with the planned cost: 14 where it leaves a train without a slot, and 14 with 0 where it parts a group.
pub fn compare(day: Day, row: &[u8], best: u64) -> Baseline
    requires { T (sound day_limits (yard day)) × (day.trains ≤ length row.now) × (best < 2 ^ 63) }
    ensures { Says (against (yard day) row.now best) result }
{
    let n = day.trains;
    let left = procedures::left_over(row, n);
    if left < n {
        return refused(Refusal::WithoutSlot(left + 1));
    }
    let most = day::day_limits().groups;
    if wagon_sets::first_parted(&day.groups, row, n, most) < most {
        return refused(Refusal::WithoutSlot(0));
    }
    let value = counting::value_slots(&day.boxes, 12, row, n, day.revisit, day.split);
    Baseline {
        verdict: Ok(()),
        value,
        saving: procedures::saving_of(value.cost, best),
    }
}
