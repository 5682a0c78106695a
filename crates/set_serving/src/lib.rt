// One set of trains served after one partial plan, in the next slot (document 02, order 9): the plan with the set is offered to those that the slot
// has gathered, unless it costs too much, comes too late or leaves trains that are discarded.
//
// Proved: what that does to the plans gathered (specs/Serving.antt), on every day whose tables are those given and that overbooks no interval. Over
// slices, for up to 36 trains, 4 tracks and 12 slots. Assumes nothing.
#![tactic(auto)]

ghost use Rattle.std.specs.Prelude.{◌≡◌, true, false, ◌+◌, ◌-◌, ◌≤◌, ◌<◌};
ghost use Rattle.std.specs.Int.Count.{ones};
ghost use Rattle.sets.specs.Subset.{Sub};
ghost use Rattle.beam.specs.HeldWords.{held_before};
ghost use Rattle.held_plans.specs.Words.{word, plan_at, words};
ghost use Rattle.candidates.specs.Words.{LowPlan};
ghost use Rattle.set_serving.specs.Serving.{SearchTables, Priced, PlanArray, IsFull, ServesSet};

use candidates::{DayTables, Price};
use held_plans::{Held, HeldPlan};

// Whether there is no room, one was dropped already, and a plan of this cost costs more than the last one held. Then it need not be tested:
// it is held in no case, and the flag is set.
fn is_dearer(next: &Held, cost: u64, width: usize) -> bool
    requires { (next.now.count ≤ width) × (1 ≤ width) × (width ≤ 64) }
    ensures { result ≡ true → IsFull next.now width × ((plan_at next.now.plans (next.now.count - 1)).cost < cost) }
{
    next.dropped && next.count == width && next.plans[next.count - 1].cost < cost
}

// The same where the plan x costs as much and does not come before the last one held.
fn comes_too_late(next: &Held, x: &HeldPlan, width: usize, slots: usize) -> bool
    requires { (next.now.count ≤ width) × (1 ≤ width) × (width ≤ 64) × (slots ≤ 12) }
    ensures { result ≡ true → IsFull next.now width × (held_before slots (word x.now) (words next.now.plans) (next.now.count - 1) ≡ false) }
{
    next.dropped
        && next.count == width
        && !held_plans::comes_before(x, &next.plans[next.count - 1], slots + 3)
}

// The set s of the plan, in slot j + 1, at its price: offered, unless it comes too late or what it leaves is discarded.
fn try_set(next: &mut Held, plan: &HeldPlan, day: &DayTables, j: usize, s: u64, price: Price)
    requires { SearchTables day.now × LowPlan day.now.boxes.trains j plan.now × (j < day.now.sizes.slots) × Sub s plan.now.rest × (ones s ≤ day.now.sizes.tracks) × PlanArray day.now (j + 1) next.old × Priced day.now plan.now.rest s price }
    ensures { PlanArray day.now (j + 1) next.new × ServesSet day.now plan.now j s next.old next.new }
{
    let sizes = day.sizes;
    let x = candidates::with_set(plan, day, j, s, price);
    if comes_too_late(next, &x, sizes.width, sizes.slots) {
        return;
    }
    if set_costs::is_discarded(day.ends, plan.rest - s, j + 1, sizes.slots, sizes.tracks) {
        return; // not one that remained: it sets no flag
    }
    offering::offer(next, &x, sizes.width, sizes.slots);
}

// The set s of the plan, in slot j + 1.
pub fn serve_set(next: &mut Held, plan: &HeldPlan, day: &DayTables, j: usize, s: u64)
    requires { SearchTables day.now × LowPlan day.now.boxes.trains j plan.now × (j < day.now.sizes.slots) × Sub s plan.now.rest × (ones s ≤ day.now.sizes.tracks) × PlanArray day.now (j + 1) next.old }
    ensures { PlanArray day.now (j + 1) next.new × ServesSet day.now plan.now j s next.old next.new }
{
    let price = candidates::price_of(day, plan.rest, s);
    if is_dearer(next, plan.cost + price.cost, day.sizes.width) {
        return;
    }
    try_set(next, plan, day, j, s, price);
}
