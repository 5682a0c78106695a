// The row of a whole plan, read back from it (document 02, order 9).
//
// Proved: the slots are those that the plan's sets give (specs/Row.antt). Over slices, for up to 36 trains and 12 slots.
// Assumes nothing.
#![tactic(auto)]

ghost use Rattle.std.specs.Prelude.{◌≡◌, ◌≤◌, ◌<◌, length};
ghost use Rattle.tables.specs.Filled.{Filled};
ghost use Rattle.plan_rows.specs.Row.{slot_at};

use held_plans::HeldPlan;

// The slot of train i: the last in which it is served.
fn slot_in(plan: &HeldPlan, slots: usize, i: usize) -> u8
    requires { (slots ≤ 12) × (i < 36) }
    ensures { result ≡ slot_at plan.now i slots }
{
    let mut slot: u8 = 0;
    for (j, trains) in plan.unserved[..slots].iter().enumerate() {
        if (*trains >> i) & 1 != 1 {
            slot = (j + 1) as u8;
        }
    }
    slot
}

// The slots of the first n trains, in the first words of `row`; the words behind stay as they were.
pub fn read_row(row: &mut [u8], plan: &HeldPlan, n: usize, slots: usize)
    requires { (slots ≤ 12) × (n ≤ 36) × (n ≤ length row.old) }
    ensures { Filled (λ i. slot_at plan.now i slots) n row.old row.new }
{
    for i in 0..n {
        row[i] = slot_in(plan, slots, i);
    }
}
