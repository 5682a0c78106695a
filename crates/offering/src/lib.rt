// One plan more is offered to those that the beam search holds (document 02, order 9).
//
// Proved: `offer` does with the plans what specs/Offered.antt says, of which beam's laws make the merged plans (crate `gathering`). Assumes nothing.
#![tactic(auto)]

ghost use Rattle.std.specs.Prelude.{◌≡◌, ◌≤◌, ◌<◌, length};
ghost use Rattle.offering.specs.Put.{Put};
ghost use Rattle.offering.specs.Offered.{Offers};

use held_plans::{Held, HeldPlan};

// Puts the plan x at `place`; the plans from there up to the place `upto` move one further, and what stood behind that is lost.
fn put(plans: &mut [HeldPlan], x: &HeldPlan, place: usize, upto: usize)
    requires { (place ≤ upto) × (upto < length plans.old) × (length plans.old ≤ 64) }
    ensures { Put x.now plans.old plans.new place upto }
{
    plans.copy_within(place..upto, place + 1);
    plans[place] = *x;
}

// Offers the plan x. Of two that leave the same trains the one that comes before the other stays; beyond `width` the last is dropped.
pub fn offer(held: &mut Held, x: &HeldPlan, width: usize, slots: usize)
    requires { (held.old.count ≤ width) × (width ≤ 64) × (slots ≤ 12) }
    ensures { Offers x.now held.old width slots held.new }
{
    let count = held.count;
    let same = held_plans::place_of_rest(held, x.rest);
    let place = held_plans::place_of_plan(held, x, slots);
    if same < place {
        return;
    }
    if same < count {
        put(&mut held.plans, x, place, same);
        return;
    }
    if count < width {
        put(&mut held.plans, x, place, count);
        held.count += 1;
        return;
    }
    held.dropped = true;
    if place < count {
        put(&mut held.plans, x, place, count - 1);
    }
}
