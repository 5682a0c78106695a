// The moves of a day file (document 01), read into a table of boxes that the caller lends.
//
// Proved: each function answers and leaves what dayfile's Reading.antt says of the section at its place, for any limits. Each takes the
// good answer of a line apart, else hands the refusal up. Assumes nothing.
#![tactic(auto)]

ghost use Rattle.std.specs.Prelude.{◌≡◌, [], ◌∷◌, ◌≤◌, ◌<◌, ◌+◌, ◌*◌, length, drop, set};
ghost use Rattle.model.specs.Cells.{InTable};
ghost use Rattle.dayfile.specs.Reading.{read_moves, move_section};
ghost use Rattle.day_moves.specs.Moves.{MovesTo};

use day::{Limits, Refusal};
use day_rows::Place;

// Puts x at the entry (i, j) of a square table that is stored row after row.
fn put_cell(table: &mut [u8], width: usize, i: usize, j: usize, x: u8)
    requires { InTable width table.old i j }
    ensures { table.new ≡ set table.old (i * width + j) x }
{
    table[i * width + j] = x;
}

// Reads the rows of moves from the place `start` on, up to the end of the text or the names line of the groups, into the table of boxes,
// and gives the place after them.
fn read_move_rows(
    l: Limits,
    text: &[u8],
    start: Place,
    numbers: &[u32],
    boxes: &mut [u8],
    width: usize,
) -> Result<Place, Refusal>
    requires { (start.at ≤ length text.now) × ((start.line ≤ 1000) × ((length numbers.now ≤ width) × (width * width ≤ length boxes.old))) }
    ensures { MovesTo numbers.now width start.line text.now (read_moves l numbers.now (length (drop start.at text.now)) (0 ∷ 0 ∷ 0 ∷ []) start.line (drop start.at text.now)) boxes.old boxes.new result }
{
    let mut place = start;
    let mut before = (0, 0);
    while let Some(row) = day_rows::read_move(l, text, place, numbers, before)? {
        put_cell(boxes, width, row.i, row.j, row.boxes as u8);
        before = (row.to, row.from);
        place = Place {
            at: row.next,
            line: place.line + 1,
        };
    }
    Ok(place)
}

// Reads the section of moves, whose names line stands at `place`, and gives the place after it.
pub fn read_moves(
    l: Limits,
    text: &[u8],
    place: Place,
    numbers: &[u32],
    boxes: &mut [u8],
    width: usize,
) -> Result<Place, Refusal>
    requires { (place.line < 1000) × ((length numbers.now ≤ width) × (width * width ≤ length boxes.old)) }
    ensures { MovesTo numbers.now width (place.line + 1) text.now (move_section l numbers.now place.line (drop place.at text.now)) boxes.old boxes.new result }
{
    let start = Place {
        at: day_rows::read_names(text, place.at, place.line, &dayfile::MOVE_NAMES)?,
        line: place.line + 1,
    };
    read_move_rows(l, text, start, numbers, boxes, width)
}
