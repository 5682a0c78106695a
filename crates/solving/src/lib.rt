// Solving the staged choices of a day from its tables over sets: slot after slot from the last.
//
// Proved: `solve` leaves the least key of all trains and the choices of all slots for what can remain of them, as optimum's `Solved`
// says. Over slices, for up to 12 trains and 8 slots. Assumes nothing.
#![tactic(auto)]

ghost use Rattle.cells.specs.Lent.{lent};
ghost use Rattle.slot_filling.specs.Given.{Fillable, SolvedTo};

use cells::SetTables;
use slot_filling::Sizes;

// The least key of all trains in the last of the first `sets` words of `cost`, and the choices that lead to it in the first
// `slots * sets` of `choice`, slot by slot from the last: the cells of what can remain. The others of these words may hold anything; the
// words behind stay as they were.
pub fn solve(cost: &mut [u64], choice: &mut [u16], tables: &SetTables, sizes: Sizes)
    requires { Fillable sizes (lent tables.now) cost.old choice.old }
    ensures { SolvedTo sizes (lent tables.now) 0 cost.old choice.old cost.new choice.new }
{
    slot_filling::fill_last(cost, choice, tables, sizes);
    let last = sizes.slots - 1;
    let mut later = tables.opens[last];
    for j in (1..last).rev() {
        later = later | tables.opens[j];
        slot_filling::fill_slot(cost, choice, tables, sizes, later, j);
    }
    if 0 < last {
        slot_filling::fill_first(cost, choice, tables, sizes);
    }
}
