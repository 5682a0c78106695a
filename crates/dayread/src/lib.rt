// Reading a day file (documents 01 and 02): the day, or the refusal 1 to 7 or 15 with its line beside a record of zeros.
//
// Proved: for every text `read_day` answers what `read_day` of dayfile's Reading.antt says, beside the day or zeros. It is `read_file` at
// the limits of a day; `read_file` reads into lent columns, for any limits. Each step takes the good answer apart, else hands the refusal
// up. Assumes nothing.
#![tactic(auto)]

ghost use Rattle.std.specs.Prelude.{◌≡◌, ◌≤◌, ◌*◌, length, drop, replicate};
ghost use Rattle.day.specs.Answer.{answered, judged};
ghost use Rattle.day.specs.Sound.{day_limits, yard};
ghost use Rattle.dayfile.specs.Reading.{read_day};
ghost use Rattle.dayfile.specs.Calls.{day_or_zero};
ghost use Rattle.dayread.specs.Whole.{RestTo, FileTo};

use day::{Day, Head, Limits, Refusal};
use day_rows::{HeadRow, Place};

// What reading answers: the day, or a refusal 1 to 7 or 15 beside a record of zeros.
// Stays: a struct, for `read_day` promises a record of zeros beside a refusal (the second fact of its contract).
#[derive(Clone, Copy)]
pub struct Reading {
    pub verdict: Result<(), Refusal>,
    pub day: Day,
}

// Reads the third section and the fourth, which follow the trains: moves into the table of boxes, then groups into their column.
fn read_rest(
    l: Limits,
    text: &[u8],
    at: usize,
    numbers: &[u32],
    groups: &mut [u8],
    boxes: &mut [u8],
) -> Result<(), Refusal>
    requires { (l.trains ≤ 900) × ((length numbers.now ≤ l.trains) × ((groups.old ≡ replicate l.trains 0) × (boxes.old ≡ replicate (l.trains * l.trains) 0))) }
    ensures { RestTo l numbers.now (length numbers.now) (drop at text.now) groups.new boxes.new result }
{
    let moves = Place {
        at,
        line: 4 + numbers.len(),
    };
    let groups_at = day_moves::read_moves(l, text, moves, numbers, boxes, l.trains)?;
    day_groups::read_groups(l, text, groups_at, numbers, groups)
}

// Reads a day file of any limits into four columns and a table of boxes, which hold zeros before and are of use after an accepted text.
// Stays: five lent slices and no struct of them: a contract would name what they hold at the end by `columns.exit.0.now` to
// `columns.exit.1.1.1.1.0.now`.
pub fn read_file(
    l: Limits,
    text: &[u8],
    numbers: &mut [u32],
    first: &mut [u8],
    last: &mut [u8],
    groups: &mut [u8],
    boxes: &mut [u8],
) -> Result<Head, Refusal>
    requires { (l.trains ≤ 900) × ((numbers.old ≡ replicate l.trains 0) × ((first.old ≡ replicate l.trains 0) × ((last.old ≡ replicate l.trains 0) × ((groups.old ≡ replicate l.trains 0) × (boxes.old ≡ replicate (l.trains * l.trains) 0))))) }
    ensures { FileTo l text.now numbers.new first.new last.new groups.new boxes.new result }
{
    let HeadRow { head, next } = day_trains::read_head(l, text)?;
    let slots = head.slots as u32;
    let at = day_trains::read_trains(l, text, next, slots, head.trains, numbers, first, last)?;
    read_rest(l, text, at, &numbers[..head.trains], groups, boxes)?;
    Ok(head)
}

// Reads a day file into a record.
pub fn read_record(text: &[u8]) -> Result<Day, Refusal>
    ensures { answered yard result ≡ read_day day_limits text.now }
{
    let mut day = day::zero_day();
    let head = read_file(
        day::day_limits(),
        text,
        &mut day.numbers,
        &mut day.first,
        &mut day.last,
        &mut day.groups,
        &mut day.boxes,
    )?;
    Ok(Day {
        trains: head.trains,
        tracks: head.tracks,
        slots: head.slots,
        revisit: head.revisit,
        split: head.split,
        ..day
    })
}

// Reads a day file.
pub fn read_day(text: &[u8]) -> Reading
    ensures { (judged result.verdict (yard result.day) ≡ read_day day_limits text.now) × (yard result.day ≡ day_or_zero day_limits (read_day day_limits text.now)) }
{
    match read_record(text) {
        Ok(day) => Reading {
            verdict: Ok(()),
            day,
        },
        Err(refusal) => Reading {
            verdict: Err(refusal),
            day: day::zero_day(),
        },
    }
}
