// The best row of a sound day: its tables filled, solved and read back.
//
// Proved: where a row is allowed, `place_trains` puts the best one into the first bytes of the row; where none is, it leaves the row. Of the
// two areas it changes only the words of the sets. Assumes nothing.
#![tactic(auto)]

ghost use Rattle.std.specs.Prelude.{◌≤◌, ◌*◌, ◌^◌, ◌≡◌, T, length};
ghost use Rattle.day.specs.Sound.{day_limits, yard, sound};
ghost use Rattle.optimum.specs.Layers.{Solved};
ghost use Rattle.staging.specs.Tables.{servable, stage_key, no_cost};
ghost use Rattle.staging.specs.Reachable.{Reachable};
ghost use Rattle.placing.specs.Placed.{Places};

use cells::SetTables;
use day::Day;
use slot_filling::Sizes;
use tables::Supplies;

// Solves a sound day: the least key of serving all trains, and the choices that lead to it. The tables are local, so that the inner loop
// reads nothing else.
fn solve_day(day: &Day, cost: &mut [u64], choice: &mut [u16], size: usize)
    requires { T (sound day_limits (yard day.now)) × ((size ≡ 2 ^ day.now.trains) × ((size ≤ length cost.old) × (day.now.slots * size ≤ length choice.old))) }
    ensures { Solved (servable (yard day.now)) (stage_key (yard day.now)) no_cost (Reachable size day.now.tracks) size day.now.slots 0 cost.old choice.old cost.new choice.new }
{
    let slots = day.slots as usize;
    let supplies = Supplies {
        boxes: &day.boxes,
        width: 12,
        trains: day.trains,
    };
    let mut need = [0u16; 4096];
    let mut late = [0u32; 4096];
    let mut price = [0u32; 4096];
    let mut count = [0u8; 4096];
    let mut opens = [0usize; 8];
    tables::fill_needing(&mut need, &supplies);
    tables::fill_count(&mut count, day.trains);
    tables::fill_late(&mut late, &count, day.revisit, size);
    prices::fill_price(&mut price, &supplies, size, day.tracks, day.split);
    barring::bar_groups(&mut price, &day.groups, day.trains, size);
    tables::fill_open(&mut opens, &day.first, &day.last, day.trains, slots);
    let tables = SetTables {
        need: &need,
        late: &late,
        price: &price,
        count: &count,
        opens: &opens,
    };
    let sizes = Sizes {
        tracks: day.tracks,
        slots: slots,
        sets: size,
    };
    solving::solve(cost, choice, &tables, sizes);
}

// Puts the best row of a sound day into the first bytes of `row`, and says whether there is one: a value stands for all trains.
pub fn place_trains(
    day: Day,
    cost: &mut [u64],
    choice: &mut [u16],
    row: &mut [u8],
    size: usize,
) -> bool
    requires { T (sound day_limits (yard day)) × ((size ≡ 2 ^ day.trains) × ((size ≤ length cost.old) × ((day.slots * size ≤ length choice.old) × (day.trains ≤ length row.old)))) }
    ensures { Places (yard day) size cost.old choice.old row.old cost.new choice.new row.new result }
{
    solve_day(&day, cost, choice, size);
    let all = size - 1;
    if staging::NONE <= cost[all] {
        return false;
    }
    tracing::trace(choice, row, day.trains, day.slots as usize, size);
    true
}
