// The partial plans that the beam search holds after a slot: how two compare, and the places that a search through them looks for (document 02,
// order 9).
//
// Proved: the order is that of the words that beam gives a plan (HeldWords.antt); each place is the lowest that passes. Assumes nothing.
#![tactic(auto)]

ghost use Rattle.std.specs.Prelude.{◌≡◌, ◌==◌, ◌+◌, ◌≤◌, position};
ghost use Rattle.model.specs.Model.{lower};
ghost use Rattle.held_plans.specs.Words.{word};
ghost use Rattle.held_plans.specs.Placed.{rest_place, plan_place};

// A partial plan: its cost, its revisits and the sum of its trains' slots so far; for each slot the trains that are not served in it, and the
// trains that remain.
#[derive(Clone, Copy)]
pub struct HeldPlan {
    pub cost: u64,
    pub revisits: u64,
    pub slot_sum: u64,
    pub unserved: [u64; 12],
    pub rest: u64,
}

// The plans that are held, the first `count` of the array, and whether one was dropped for want of room.
#[derive(Clone, Copy)]
pub struct Held {
    pub plans: [HeldPlan; 64],
    pub count: usize,
    pub dropped: bool,
}

// Whether the first words of the plan x, of its sixteen, come before those of the other: its cost, its revisits, its sum of slots, the trains not
// served in each slot, the trains that remain. On a day of so many slots their number and 3 say which of two plans is held first.
pub fn comes_before(x: &HeldPlan, other: &HeldPlan, words: usize) -> bool
    requires { words ≤ 16 }
    ensures { result ≡ lower words (word x.now) (word other.now) }
{
    if x.cost != other.cost {
        return (0 < words) & (x.cost < other.cost);
    }
    if x.revisits != other.revisits {
        return (1 < words) & (x.revisits < other.revisits);
    }
    if x.slot_sum != other.slot_sum {
        return (2 < words) & (x.slot_sum < other.slot_sum);
    }
    let slots = words.saturating_sub(3).min(12);
    for j in 0..slots {
        if x.unserved[j] != other.unserved[j] {
            return x.unserved[j] < other.unserved[j];
        }
    }
    (15 < words) & (x.rest < other.rest)
}

// The place of the first plan that leaves `rest`.
fn find_rest(plans: &[HeldPlan], rest: u64) -> Option<usize>
    ensures { result ≡ position (λ p. p.rest == rest) plans.now }
{
    plans.iter().position(|plan| plan.rest == rest)
}

// The place of the first plan that x comes before.
fn find_later(plans: &[HeldPlan], x: &HeldPlan, slots: usize) -> Option<usize>
    requires { slots ≤ 12 }
    ensures { result ≡ position (λ p. lower (slots + 3) (word x.now) (word p)) plans.now }
{
    plans
        .iter()
        .position(|plan| comes_before(x, plan, slots + 3))
}

// The place of the plan that leaves `rest`, or the number of plans.
pub fn place_of_rest(held: &Held, rest: u64) -> usize
    requires { held.now.count ≤ 64 }
    ensures { result ≡ rest_place held.now.plans held.now.count rest }
{
    find_rest(&held.plans[..held.count], rest).unwrap_or(held.count)
}

// The first place of a plan that x comes before, or the number of plans.
pub fn place_of_plan(held: &Held, x: &HeldPlan, slots: usize) -> usize
    requires { (held.now.count ≤ 64) × (slots ≤ 12) }
    ensures { result ≡ plan_place slots held.now.plans held.now.count x.now }
{
    find_later(&held.plans[..held.count], x, slots).unwrap_or(held.count)
}
