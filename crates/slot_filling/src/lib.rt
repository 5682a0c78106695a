// The table of one slot, filled in place from that of the next, cell by cell, with the choices: of the last slot, of one between, of the first.
//
// Proved: each function leaves the table and the choices of its slot for what can remain, as optimum's `Solved` says. Over slices, for up to
// 12 trains and 8 slots. Assumes nothing.
#![tactic(auto)]

ghost use Rattle.std.specs.Prelude.{◌+◌, ◌-◌, ◌*◌, ◌≤◌, ◌<◌, length};
ghost use Rattle.optimum.specs.Layers.{Every};
ghost use Rattle.cells.specs.Lent.{lent};
ghost use Rattle.cells.specs.Given.{Given};
ghost use Rattle.slot_filling.specs.Given.{Later, Fillable, SolvedFrom, SolvedTo};

use cells::{Pick, SetTables};

// How far a day's tables and the two areas reach, and how many trains a slot has room for: a set of trains for each number below `sets`.
#[derive(Clone, Copy)]
pub struct Sizes {
    pub tracks: u32,
    pub slots: usize,
    pub sets: usize,
}

// The table and the choices of the last slot: one set for each that remains.
pub fn fill_last(cost: &mut [u64], choice: &mut [u16], tables: &SetTables, sizes: Sizes)
    requires { Given sizes.sets sizes.slots (lent tables.now) × (sizes.sets ≤ length cost.old) × (sizes.slots * sizes.sets ≤ length choice.old) }
    ensures { SolvedFrom (lent tables.now) Every sizes.sets sizes.slots (sizes.slots - 1) cost.old choice.old cost.new choice.new }
{
    let j = sizes.slots - 1;
    for r in (0..sizes.sets).rev() {
        let p = cells::whole(tables, j, r);
        cost[r] = p.value;
        choice[j * sizes.sets + r] = p.set;
    }
}

// The table of slot j + 1 from that of the next slot, and its choices, set by set from the largest: a cell reads values of sets no larger
// than its own, which are still the next slot's. No walk where r has more trains than the slots left have tracks for, or one outside
// `later`, whose window has passed: r cannot be served. No cell where fewer trains are left than the slots before, all tracks taken, leave: r
// cannot remain.
pub fn fill_slot(
    cost: &mut [u64],
    choice: &mut [u16],
    tables: &SetTables,
    sizes: Sizes,
    later: usize,
    j: usize,
)
    requires { Fillable sizes (lent tables.now) cost.old choice.old × Later sizes.slots j later tables.now.opens.now × (0 < j) × (j < sizes.slots) × SolvedTo sizes (lent tables.now) (j + 1) cost.old choice.old cost.old choice.old }
    ensures { SolvedTo sizes (lent tables.now) j cost.old choice.old cost.new choice.new }
{
    let room = sizes.tracks * ((sizes.slots - j) as u32);
    let gone = sizes.tracks * (j as u32);
    let fewest = usize::count_ones(sizes.sets - 1).saturating_sub(gone);
    for r in (0..sizes.sets).rev() {
        let trains = usize::count_ones(r);
        if fewest <= trains {
            let p = if (room < trains) | (r & later != r) {
                Pick {
                    value: staging::NONE,
                    set: 0,
                }
            } else {
                cells::cheapest(cost, tables, j, r)
            };
            cost[r] = p.value;
            choice[j * sizes.sets + r] = p.set;
        }
    }
}

// The cell of all trains in the first slot, from the table of the second: before the first slot nothing else can remain. The tracks are
// read by the contract alone.
pub fn fill_first(cost: &mut [u64], choice: &mut [u16], tables: &SetTables, sizes: Sizes)
    requires { Fillable sizes (lent tables.now) cost.old choice.old × SolvedTo sizes (lent tables.now) 1 cost.old choice.old cost.old choice.old }
    ensures { SolvedTo sizes (lent tables.now) 0 cost.old choice.old cost.new choice.new }
{
    let r = sizes.sets - 1;
    let p = cells::cheapest(cost, tables, 0, r);
    cost[r] = p.value;
    choice[r] = p.set;
}
