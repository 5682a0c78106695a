// The planning call (document 01): the best plan of a day, or refusal 8, 10, 9 or 16.
//
// Proved: for every record and all lent memory `plan` answers what `planned` of specs/Planning.antt says and leaves the row as
// `row_after` says; of the two areas only the words that planning needs may change. specs/Demand.antt draws demand 3 from this.
// Assumes nothing.
#![tactic(auto)]

ghost use Rattle.std.specs.Prelude.{◌≡◌, ◌≤◌, ◌*◌, ◌^◌, ◌&&◌, T, leb, length};
ghost use Rattle.day.specs.Sound.{day_limits, yard, sound};
ghost use Rattle.planning.specs.Planning.{answer, cost_words, choice_words, areas_suffice, planned, begins, row_after, open_words, Stays};
ghost use Rattle.planning.specs.Laws.{Decided};

use counting::Value;
use day::{Day, Refusal};
use feasibility::Overbooked;

// The number of sets of n trains.
fn count_sets(n: usize) -> usize
    requires { n ≤ 12 }
    ensures { (result ≡ 2 ^ n) × (result ≤ 4096) }
{
    1usize << n
}

// Whether the two areas and the row are long enough for n trains and T slots.
fn are_enough(n: usize, slots: u8, size: usize, costs: usize, choices: usize, bytes: usize) -> bool
    requires { size ≤ 4096 }
    ensures { result ≡ (leb size costs && leb (slots * size) choices && leb n bytes) }
{
    let words = slots as usize * size;
    (size <= costs) & (words <= choices) & (n <= bytes)
}

// Whether the two areas have the words that every day can be planned in. Calls that plan several days or a changing one ask for these.
pub fn are_areas_enough(costs: usize, choices: usize) -> bool
    ensures { result ≡ areas_suffice costs choices }
{
    (4096 <= costs) & (32768 <= choices)
}

// The plan of a sound day, or the first overbooked interval (9), or that the groups can't be kept (16).
fn plan_sound(
    day: Day,
    cost: &mut [u64],
    choice: &mut [u16],
    row: &mut [u8],
    size: usize,
) -> Result<Value, Refusal>
    requires { T (sound day_limits (yard day)) × ((size ≡ 2 ^ day.trains) × ((size ≤ length cost.old) × ((day.slots * size ≤ length choice.old) × (day.trains ≤ length row.old)))) }
    ensures { Decided (yard day) size cost.old choice.old row.old (answer result) cost.new choice.new row.new }
{
    let n = day.trains;
    let found = feasibility::first_overbooked(&day.first, &day.last, n, day.tracks, day.slots);
    if let Some(
        Overbooked {
            first,
            last,
            trains,
        },
    ) = found
    {
        return Err(Refusal::Overbooked {
            first,
            last,
            trains,
        });
    }
    if !placing::place_trains(day, cost, choice, row, size) {
        return Err(Refusal::NoAllowedRow);
    }
    Ok(counting::value_slots(&day.boxes, 12, &row[..n], n, day.revisit, day.split))
}

// Plans a day. `cost` needs 2^n words, `choice` T × 2^n words, `row` n bytes: else 10.
pub fn plan(
    day: Day,
    cost: &mut [u64],
    choice: &mut [u16],
    row: &mut [u8],
) -> Result<Value, Refusal>
    ensures result_value { answer result ≡ planned day_limits (yard day) (length cost.old) (length choice.old) (length row.old) }
    ensures row_after { row.new ≡ row_after day_limits (yard day) (length cost.old) (length choice.old) row.old }
    ensures stays { Stays (open_words (begins day_limits (yard day) (length cost.old) (length choice.old) (length row.old)) (cost_words (yard day))) cost.old cost.new }
    ensures stays_2 { Stays (open_words (begins day_limits (yard day) (length cost.old) (length choice.old) (length row.old)) (choice_words (yard day))) choice.old choice.new }
{
    if !day_sound::is_sound(day) {
        return Err(Refusal::Unsound);
    }
    let n = day.trains;
    let size = count_sets(n);
    if !are_enough(n, day.slots, size, cost.len(), choice.len(), row.len()) {
        return Err(Refusal::TooShort);
    }
    plan_sound(day, cost, choice, row, size)
}
