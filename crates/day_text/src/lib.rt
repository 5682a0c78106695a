// The text of a day file (documents 01 and 02), put into a lent output section by section.
//
// Proved: each function puts what dayfile's Writing.antt says, from a lent day of any size, so that days of every size are written by the
// same code. Assumes nothing.
#![tactic(auto)]

ghost use Rattle.std.specs.Prelude.{[], ◌∷◌, ◌+◌, ◌≤◌, ◌<◌, ◌*◌, length};
ghost use Rattle.decimal.specs.Place.{Put};
ghost use Rattle.dayfile.specs.Writing.{day_text};
ghost use Rattle.day.specs.Parts.{part_yard};
ghost use Rattle.day_text.specs.Writes.{head_text, trains_text, move_text, moves_text, Writable};

use day::{Head, Parts};

// Puts the first section at the front: its names line and its row. Gives the place after it.
fn put_head(out: &mut [u8], head: Head) -> usize
    requires { length (head_text (head.trains ∷ head.tracks ∷ head.slots ∷ head.revisit ∷ head.split ∷ [])) ≤ length out.old }
    ensures { Put out.old out.new 0 result (head_text (head.trains ∷ head.tracks ∷ head.slots ∷ head.revisit ∷ head.split ∷ [])) }
{
    let next = output::put_bytes(out, 0, &dayfile::HEAD_NAMES);
    let row = [
        head.trains as u64,
        u64::from(head.tracks),
        u64::from(head.slots),
        u64::from(head.revisit),
        u64::from(head.split),
    ];
    output::put_row(out, next, &row)
}

// Puts the second section from a place on: its names line and the rows of the trains. Gives the place after it.
fn put_trains(out: &mut [u8], at: usize, p: &Parts) -> usize
    requires long_enough { (p.now.head.trains ≤ length p.now.numbers.now) × (p.now.head.trains ≤ length p.now.first.now) × (p.now.head.trains ≤ length p.now.last.now) }
    requires room { at + length (trains_text p.now.numbers.now p.now.first.now p.now.last.now p.now.head.trains) ≤ length out.old }
    ensures { Put out.old out.new at result (trains_text p.now.numbers.now p.now.first.now p.now.last.now p.now.head.trains) }
{
    let mut next = output::put_bytes(out, at, &dayfile::TRAIN_NAMES);
    for i in 0..p.head.trains {
        let row = [
            u64::from(p.numbers[i]),
            u64::from(p.first[i]),
            u64::from(p.last[i]),
        ];
        next = output::put_row(out, next, &row);
    }
    next
}

// Puts the row of the boxes at place q of their table, and nothing where there are none.
fn put_move(out: &mut [u8], at: usize, p: &Parts, q: usize) -> usize
    requires place { (q < p.now.limits.trains * p.now.limits.trains) × (p.now.limits.trains ≤ length p.now.numbers.now) × (p.now.limits.trains * p.now.limits.trains ≤ length p.now.boxes.now) }
    requires room { at + length (move_text p.now.numbers.now p.now.limits.trains p.now.boxes.now q) ≤ length out.old }
    ensures { Put out.old out.new at result (move_text p.now.numbers.now p.now.limits.trains p.now.boxes.now q) }
{
    let boxes = p.boxes[q];
    if boxes == 0 {
        return at;
    }
    let to = p.numbers[q / p.limits.trains];
    let from = p.numbers[q % p.limits.trains];
    output::put_row(out, at, &[u64::from(to), u64::from(from), u64::from(boxes)])
}

// Puts the third section from a place on: its names line and the rows of the boxes, in the order of their table. Gives the place
// after it.
fn put_moves(out: &mut [u8], at: usize, p: &Parts) -> usize
    requires long_enough { (p.now.limits.trains ≤ length p.now.numbers.now) × (p.now.limits.trains * p.now.limits.trains ≤ length p.now.boxes.now) }
    requires room { at + length (moves_text p.now.numbers.now p.now.limits.trains p.now.boxes.now) ≤ length out.old }
    ensures { Put out.old out.new at result (moves_text p.now.numbers.now p.now.limits.trains p.now.boxes.now) }
{
    let mut next = output::put_bytes(out, at, &dayfile::MOVE_NAMES);
    for q in 0..p.limits.trains * p.limits.trains {
        next = put_move(out, next, p, q);
    }
    next
}

// Puts the text of a day at the front, section by section, and gives its length.
pub fn put_file(out: &mut [u8], p: &Parts) -> usize
    requires writable { Writable p.now }
    requires room { length (day_text p.now.limits (part_yard p.now)) ≤ length out.old }
    ensures { Put out.old out.new 0 result (day_text p.now.limits (part_yard p.now)) }
{
    let trains = put_head(out, p.head);
    let moves = put_trains(out, trains, p);
    let sets = put_moves(out, moves, p);
    groups_text::put_groups(
        out,
        sets,
        p.numbers,
        p.groups,
        p.head.trains,
        p.limits.groups,
    )
}
