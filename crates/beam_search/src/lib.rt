// The beam search of a long day (document 02, order 9; source 000, section 4.3): slot after slot the partial plans kept, and the row of the first
// one kept after the last slot.
//
// Proved: `beam_search` gives `beam_row` and `full_slots` of beam's Beam.antt, for every day of up to 36 trains, 4 tracks and 12 slots whose windows lie
// in its slots and that overbooks no interval. Over slices. Assumes nothing.
#![tactic(auto)]

ghost use Rattle.std.specs.Prelude.{◌≤◌, length};
ghost use Rattle.set_serving.specs.Serving.{SearchTables};
ghost use Rattle.beam_search.specs.Start.{Starts};
ghost use Rattle.beam_search.specs.Slots.{SearchFinds};
ghost use Rattle.beam_search.specs.Found.{Sized, Searched};

use beam_tables::DayTrains;
use candidates::{DayTables, Sizes};
use held_plans::{Held, HeldPlan};

// The first plan kept after the last slot, and the number of slots after which more plans remained than are kept.
#[derive(Clone, Copy)]
struct Found {
    plan: HeldPlan,
    full: usize,
}

// A plan without words: what stands at a place that holds none.
const NO_PLAN: HeldPlan = HeldPlan {
    cost: 0,
    revisits: 0,
    slot_sum: 0,
    unserved: [0; 12],
    rest: 0,
};

// No plan held. It is all zeros, so that it is written where it is to stand; a copy of another record would take 8 KB of stack more.
fn nothing_held() -> Held {
    Held {
        plans: [NO_PLAN; 64],
        count: 0,
        dropped: false,
    }
}

// What is held before the first slot: the plan that serves nobody.
fn start(all: u64) -> Held
    ensures { Starts all result }
{
    let mut held = nothing_held();
    held.plans[0] = HeldPlan {
        unserved: [all; 12],
        rest: all,
        ..NO_PLAN
    };
    held.count = 1;
    held
}

// Slot after slot, from the plans kept to the next ones.
fn search(first: &[u8], last: &[u8], day: &DayTables) -> Found
    requires { SearchTables day.now × (day.now.boxes.trains ≤ length first.now) × (day.now.boxes.trains ≤ length last.now) }
    ensures { SearchFinds day.now first.now last.now result.plan result.full }
{
    let mut kept = start(day.sizes.all);
    let mut next = nothing_held();
    let mut full_slots: usize = 0;
    for j in 0..day.sizes.slots {
        let ready = tables::open_in(first, last, day.boxes.trains, (j + 1) as u8) as u64;
        slot_serving::serve_slot(&mut next, &kept, day, j, ready);
        full_slots += usize::from(next.dropped);
        kept = next;
    }
    Found {
        plan: kept.plans[0],
        full: full_slots,
    }
}

// The row that the beam search finds, in the first words of `row`; the words behind stay as they were. It answers the number of slots after which
// more partial plans remained than are kept.
pub fn beam_search(row: &mut [u8], day: &DayTrains, sizes: Sizes) -> usize
    requires { Sized sizes day.now row.old }
    ensures { Searched sizes day.now row.old row.new result }
{
    let boxes = day.boxes;
    let mut suppliers = [0u64; 36];
    beam_tables::fill_suppliers(&mut suppliers, &boxes);
    let mut incoming = [0u64; 36];
    beam_tables::fill_incoming(&mut incoming, &boxes);
    let mut ends = [0u64; 13];
    beam_tables::fill_ends(&mut ends, day.last, boxes.trains, sizes.slots);
    let tables = DayTables {
        sizes,
        boxes,
        suppliers: &suppliers,
        incoming: &incoming,
        ends: &ends,
    };
    let found = search(day.first, day.last, &tables);
    plan_rows::read_row(row, &found.plan, boxes.trains, sizes.slots);
    found.full
}
