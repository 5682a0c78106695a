// One slot of the beam search (document 02, order 9): every set of the trains that remain after each plan kept, the largest set first.
//
// Proved: after the plans kept after a slot those kept after the next are held, and the flag says that more remained (specs/Serving.antt), on
// every day whose tables are those given and that overbooks no interval. Over slices, for up to 36 trains, 4 tracks and 12 slots. Assumes nothing.
#![tactic(auto)]

ghost use Rattle.std.specs.Prelude.{◌+◌, ◌<◌};
ghost use Rattle.candidates.specs.Words.{LowPlan};
ghost use Rattle.set_serving.specs.Serving.{SearchTables, PlanArray};
ghost use Rattle.slot_serving.specs.Serving.{ServesPlan, ServesSlot};

use candidates::DayTables;
use held_plans::{Held, HeldPlan};

// Every set of the plan, in slot j + 1, of the trains `ready` whose windows hold it: from the largest down, past those with more trains than tracks.
fn serve_plan(next: &mut Held, plan: &HeldPlan, day: &DayTables, j: usize, ready: u64)
    requires { SearchTables day.now × LowPlan day.now.boxes.trains j plan.now × (j < day.now.sizes.slots) × PlanArray day.now (j + 1) next.old }
    ensures { PlanArray day.now (j + 1) next.new × ServesPlan day.now plan.now j ready next.old next.new }
{
    let can = plan.rest & ready;
    let mut s = set_costs::trimmed(can, day.sizes.tracks);
    loop {
        set_serving::serve_set(next, plan, day, j, s);
        if s == 0 {
            return;
        }
        s = set_costs::trimmed((s - 1) & can, day.sizes.tracks);
    }
}

// Every plan of `kept`, those kept after slot j, in slot j + 1: `next` holds those kept after it.
pub fn serve_slot(next: &mut Held, kept: &Held, day: &DayTables, j: usize, ready: u64)
    requires { SearchTables day.now × (j < day.now.sizes.slots) × PlanArray day.now j kept.now }
    ensures { PlanArray day.now (j + 1) next.new × ServesSlot day.now j ready kept.now next.new }
{
    next.count = 0;
    next.dropped = false;
    for plan in kept.plans[..kept.count].iter() {
        serve_plan(next, plan, day, j, ready);
    }
}
