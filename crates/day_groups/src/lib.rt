// The groups of a day file (order 4 of document 02), read into a column that the caller lends.
//
// Proved: each function answers and leaves what dayfile's Reading.antt says of the section at its place, for any limits and a column of
// zeros. Each takes the good answer of a line apart, else hands the refusal up. Assumes nothing.
#![tactic(auto)]

ghost use Rattle.std.specs.Prelude.{◌≡◌, [], ◌∷◌, ◌≤◌, ◌+◌, length, drop, replicate};
ghost use Rattle.dayfile.specs.Reading.{read_groups, group_section};
ghost use Rattle.day_groups.specs.Groups.{GroupsTo};

use day::{Limits, Refusal};
use day_rows::Place;

// Reads the rows of groups from the place `start` on, up to the end of the text, each into the column at its train's position.
fn read_group_rows(
    l: Limits,
    text: &[u8],
    start: Place,
    numbers: &[u32],
    groups: &mut [u8],
) -> Result<(), Refusal>
    requires { (start.at ≤ length text.now) × ((start.line ≤ 1001 + start.at) × ((length numbers.now ≤ l.trains) × (groups.old ≡ replicate l.trains 0))) }
    ensures { GroupsTo numbers.now (read_groups l numbers.now (length (drop start.at text.now)) [] (0 ∷ 0 ∷ []) start.line (drop start.at text.now)) groups.old groups.new result }
{
    let mut place = start;
    let mut before = (0, 0);
    while let Some(row) = day_rows::read_group(l, text, place, numbers, groups, before)? {
        groups[row.i] = row.group as u8;
        before = (row.group, row.train);
        place = Place {
            at: row.next,
            line: place.line + 1,
        };
    }
    Ok(())
}

// Reads the section of groups, whose names line stands at `place`, where the text goes on; it then has at least one row.
pub fn read_groups(
    l: Limits,
    text: &[u8],
    place: Place,
    numbers: &[u32],
    groups: &mut [u8],
) -> Result<(), Refusal>
    requires { (place.at ≤ length text.now) × ((place.line ≤ 1000 + place.at) × ((length numbers.now ≤ l.trains) × (groups.old ≡ replicate l.trains 0))) }
    ensures { GroupsTo numbers.now (group_section l numbers.now place.line (drop place.at text.now)) groups.old groups.new result }
{
    if text.len() <= place.at {
        return Ok(());
    }
    let next = day_rows::read_names(text, place.at, place.line, &dayfile::GROUP_NAMES)?;
    let start = Place {
        at: next,
        line: place.line + 1,
    };
    if text.len() <= start.at {
        return Err(Refusal::RowForm(start.line));
    }
    read_group_rows(l, text, start, numbers, groups)
}
