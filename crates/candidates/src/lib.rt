// One partial plan with one set of trains more: its price, and the plan as held_plans has it (document 02, order 9).
//
// Proved: the price is that of equation (10); `with_set` gives the plan with that set, and its numbers stay within bounds that grow with the
// slots (specs/Words.antt). Over slices, for up to 36 trains, 4 tracks and 12 slots. Assumes nothing.
#![tactic(auto)]

ghost use Rattle.std.specs.Prelude.{◌≡◌, ◌+◌, ◌≤◌, ◌<◌};
ghost use Rattle.std.specs.Int.Count.{ones};
ghost use Rattle.sets.specs.Subset.{Sub};
ghost use Rattle.sets.specs.Rest.{full};
ghost use Rattle.candidates.specs.Given.{Tables, late_of, price_of};
ghost use Rattle.candidates.specs.Words.{LowPlan, WithSet};

use beam_tables::Boxes;
use held_plans::HeldPlan;

// The numbers of a long day: all its trains as a set, tracks, slots, weights; and the greatest number of partial plans kept.
#[derive(Clone, Copy)]
pub struct Sizes {
    pub all: u64,
    pub tracks: u32,
    pub slots: usize,
    pub revisit: u64,
    pub split: u64,
    pub width: usize,
}

// What the search reads of a day: its numbers, the boxes between its trains, for each train its suppliers and the boxes that it receives, and for
// each slot the trains whose last slot has come.
#[derive(Clone, Copy)]
pub struct DayTables<'a> {
    pub sizes: Sizes,
    pub boxes: Boxes<'a>,
    pub suppliers: &'a [u64],
    pub incoming: &'a [u64],
    pub ends: &'a [u64],
}

// What a set of trains adds to a plan: how many of them revisit, and the cost.
#[derive(Clone, Copy)]
pub struct Price {
    pub late: u64,
    pub cost: u64,
}

// The price of the set s of the trains `rest` that remain, by equation (10).
pub fn price_of(day: &DayTables, rest: u64, s: u64) -> Price
    requires { Tables day.now × (rest ≤ full day.now.boxes.trains) × Sub s rest × (ones s ≤ day.now.sizes.tracks) }
    ensures { (result.late ≡ late_of day.now rest s) × (result.cost ≡ price_of day.now rest s) × (result.late ≤ 4) × (result.cost ≤ 4294967296) }
{
    let sizes = day.sizes;
    let late = set_costs::late_trains(day.suppliers, day.boxes.trains, s, rest - s);
    let outside = set_costs::boxes_from_outside(&day.boxes, day.incoming, s);
    Price {
        late,
        cost: sizes.revisit * late + sizes.split * outside,
    }
}

// The plan with the set s of trains that remain in slot j + 1, at its price.
pub fn with_set(plan: &HeldPlan, day: &DayTables, j: usize, s: u64, price: Price) -> HeldPlan
    requires { LowPlan day.now.boxes.trains j plan.now × (j < 12) × (day.now.sizes.all ≡ full day.now.boxes.trains) × (s ≤ plan.now.rest) × (ones s ≤ 4) × (price.late ≤ 4) × (price.cost ≤ 4294967296) }
    ensures { WithSet j s price.late price.cost day.now.sizes.all plan.now result × LowPlan day.now.boxes.trains (j + 1) result }
{
    let mut unserved = plan.unserved;
    unserved[j] = day.sizes.all - s;
    HeldPlan {
        cost: plan.cost + price.cost,
        revisits: plan.revisits + price.late,
        slot_sum: plan.slot_sum + (j as u64 + 1) * u64::from(u64::count_ones(s)),
        unserved,
        rest: plan.rest - s,
    }
}
