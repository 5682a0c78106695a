// Planning a long day (order 9 of document 02): the row that the beam search finds, its four numbers, the number of full slots and the
// lower figure, or refusal 8, 21, 10 or 9.
//
// Proved: for every record, every width and every lent row `plan_long` answers what `long_planned` of specs/LongPlanning.antt says and leaves
// the row as `long_row_after` says. specs/Promised.antt draws order 9's sentences from this. Assumes nothing.
#![tactic(auto)]

ghost use Rattle.std.specs.Prelude.{◌≡◌, length};
ghost use Rattle.std.proofs.Math.Option.{none};
ghost use Rattle.model.specs.Overbooked.{first_overbooked};
ghost use Rattle.day.specs.Answer.{gives};
ghost use Rattle.long_day.specs.LongDay.{long_limits, long_yard};
ghost use Rattle.long_planning.specs.LongPlanning.{long_outcome_of, answer, is_width, long_planned, long_row_after};
ghost use Rattle.long_planning.specs.Laws.{Searchable, Decided};

use beam_tables::{Boxes, DayTrains};
use candidates::Sizes;
use counting::Value;
use day::Refusal;
use feasibility::Overbooked;
use long_day::LongDay;

// The four numbers of a row that the search found, the number of slots after which more merged partial plans than the width remained, and
// the lower figure.
#[derive(Clone, Copy)]
pub struct LongValue {
    pub value: Value,
    pub full: usize,
    pub lower: u64,
}

// Whether so many partial plans may be kept after a slot.
fn is_width(width: u32) -> bool
    ensures { result ≡ is_width width }
{
    (1 <= width) & (width <= 64)
}

// The row that the search finds on a sound day that overbooks no interval, with its numbers.
fn find_row(day: LongDay, width: u32, row: &mut [u8]) -> LongValue
    requires { Searchable (long_yard day) width row.old × (first_overbooked (long_yard day) ≡ none) }
    ensures { Decided (long_yard day) width row.old (gives (long_outcome_of result)) row.new }
{
    let n = day.trains;
    let sizes = Sizes {
        all: beam_tables::all_trains(n),
        tracks: day.tracks,
        slots: day.slots as usize,
        revisit: day.revisit as u64,
        split: day.split as u64,
        width: width as usize,
    };
    let table = Boxes {
        table: &day.boxes,
        width: 36,
        trains: n,
    };
    let trains = DayTrains {
        first: &day.first,
        last: &day.last,
        boxes: table,
    };
    let full = beam_search::beam_search(row, &trains, sizes);
    LongValue {
        value: counting::value_slots(&day.boxes, 36, &row[..n], n, day.revisit, day.split),
        full,
        lower: lower_figure::lower_figure(&trains, day.tracks, sizes.revisit, sizes.split),
    }
}

// The plan of a sound day, or the first overbooked interval (9).
fn plan_sound(day: LongDay, width: u32, row: &mut [u8]) -> Result<LongValue, Refusal>
    requires { Searchable (long_yard day) width row.old }
    ensures { Decided (long_yard day) width row.old (answer result) row.new }
{
    let found = feasibility::first_overbooked(
        &day.first, &day.last, day.trains, day.tracks, day.slots,
    );
    if let Some(
        Overbooked {
            first,
            last,
            trains,
        },
    ) = found
    {
        return Err(Refusal::Overbooked {
            first,
            last,
            trains,
        });
    }
    Ok(find_row(day, width, row))
}

// Plans a long day at a width, 1 to 64: else 21. `row` needs n bytes: else 10. A plan fills the first n bytes of the row and leaves those
// beyond; a refusal leaves all.
pub fn plan_long(day: LongDay, width: u32, row: &mut [u8]) -> Result<LongValue, Refusal>
    ensures result_value { answer result ≡ long_planned long_limits (long_yard day) width (length row.old) }
    ensures row_after { row.new ≡ long_row_after long_limits (long_yard day) width row.old }
{
    if !long_day::is_long_sound(day) {
        return Err(Refusal::Unsound);
    }
    if !is_width(width) {
        return Err(Refusal::WidthOutOfRange);
    }
    if row.len() < day.trains {
        return Err(Refusal::TooShort);
    }
    plan_sound(day, width, row)
}
