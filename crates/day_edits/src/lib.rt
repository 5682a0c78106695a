// The changes of a day that keeps moving (order 7 of document 02): where a number stands, a train left out, a train put in, boxes set.
//
// Proved: each function is the definition of rolling's Rolling.antt that its contract names. Assumes nothing.
#![tactic(auto)]

ghost use Rattle.std.specs.Prelude.{◌≡◌, ◌≤◌, ◌<◌, ◌-◌, suc, leb, length, get_or};
ghost use Rattle.fold.specs.Fold.{lowest};
ghost use Rattle.fold.specs.Column.{column, filled, table, table_entry};
ghost use Rattle.model.specs.Model.{cell};
ghost use Rattle.day.specs.Sound.{yard};
ghost use Rattle.rolling.specs.Rolling.{moved, rearranged, source_without, source_with, without_train, with_train, with_boxes};
ghost use Rattle.day_edits.specs.Sources.{AreInDay, source_of};

use day::Day;
use std::array;

// ---- where a number stands

// The first of n positions whose train number is not below x.
pub fn place_of(numbers: &[u32], n: usize, x: u32) -> usize
    requires { n ≤ length numbers.now }
    ensures { result ≡ lowest n (λ i. leb x (get_or numbers.now i 0)) }
{
    numbers[..n]
        .iter()
        .position(|&number| x <= number)
        .unwrap_or(n)
}

// ---- the position that a train had before, its source

// Before position p left.
#[tactic(auto, unfolding(rolling::specs::Rolling::source_without))]
fn source_without(p: usize, i: usize) -> usize
    requires { i < 12 }
    ensures { result ≡ source_without p i }
{
    if i < p { i } else { i + 1 }
}

// Before position p was made; p takes position n, which holds no train.
#[tactic(auto, unfolding(rolling::specs::Rolling::source_with))]
fn source_with(n: usize, p: usize, i: usize) -> usize
    ensures { result ≡ source_with n p i }
{
    if i < p {
        return i;
    }
    if i == p {
        return n;
    }
    i - 1
}

// The sources of a day's trains: position i of the first `trains` has the train of position `of[i]`.
#[derive(Clone, Copy)]
struct Sources {
    trains: usize,
    of: [usize; 12],
}

// Of n trains without the one at position p.
fn sources_without(n: usize, p: usize) -> Sources
    requires { (1 ≤ n) × (n ≤ 12) }
    ensures trains { result.trains ≡ n - 1 }
    ensures of { result.of ≡ column 12 12 (source_without p) }
{
    Sources {
        trains: n - 1,
        of: array::from_fn(|i| source_without(p, i)),
    }
}

// Of n trains and one more, at position p.
fn sources_with(n: usize, p: usize) -> Sources
    requires { n < 12 }
    ensures trains { result.trains ≡ suc n }
    ensures of { result.of ≡ column 12 12 (source_with n p) }
{
    Sources {
        trains: n + 1,
        of: array::from_fn(|i| source_with(n, p, i)),
    }
}

impl Sources {
    // A column once each position has what its source had; `none` past the trains.
    fn moved<T: Copy>(&self, old: &[T; 12], none: T) -> [T; 12]
        requires { AreInDay self.now }
        ensures { result ≡ filled none 12 self.now.trains (λ i. get_or old.now (source_of self.now i) none) }
    {
        let mut column = [none; 12];
        for i in 0..self.trains {
            column[i] = old[self.of[i]];
        }
        column
    }

    // The boxes at place q of the table, row after row, once each position has its source's.
    fn moved_entry(&self, boxes: &[u8; 144], q: usize) -> u8
        requires { AreInDay self.now }
        ensures { result ≡ table_entry 12 self.now.trains (λ i j. cell 12 boxes.now (source_of self.now i) (source_of self.now j)) q }
    {
        let i = q / 12;
        let j = q % 12;
        if i < self.trains && j < self.trains {
            boxes[self.of[i] * 12 + self.of[j]]
        } else {
            0
        }
    }

    fn moved_boxes(&self, boxes: &[u8; 144]) -> [u8; 144]
        requires { AreInDay self.now }
        ensures { result ≡ table 12 self.now.trains (λ i j. cell 12 boxes.now (source_of self.now i) (source_of self.now j)) }
    {
        array::from_fn(|q| self.moved_entry(boxes, q))
    }

    // The day whose trains are these, each with its window, its group and its boxes.
    fn rearrange(&self, day: &Day) -> Day
        requires { AreInDay self.now }
        ensures { yard result ≡ rearranged self.now.trains (source_of self.now) (yard day.now) }
    {
        Day {
            trains: self.trains,
            tracks: day.tracks,
            slots: day.slots,
            revisit: day.revisit,
            split: day.split,
            numbers: self.moved(&day.numbers, 0),
            first: self.moved(&day.first, 0),
            last: self.moved(&day.last, 0),
            groups: self.moved(&day.groups, 0),
            boxes: self.moved_boxes(&day.boxes),
        }
    }
}

// ---- slots by position, moved as the trains of a day are

// Without position p of n.
pub fn slots_without(slots: [u8; 12], n: usize, p: usize) -> [u8; 12]
    requires { (1 ≤ n) × (n ≤ 12) }
    ensures { result ≡ moved 12 (n - 1) (source_without p) slots }
{
    sources_without(n, p).moved(&slots, 0)
}

// With room at position p.
pub fn slots_with(slots: [u8; 12], n: usize, p: usize) -> [u8; 12]
    requires { n < 12 }
    ensures { result ≡ moved 12 (suc n) (source_with n p) slots }
{
    sources_with(n, p).moved(&slots, 0)
}

// ---- the changes of a day

// Without the train of position p.
pub fn without_train(day: Day, p: usize) -> Day
    requires { (1 ≤ day.trains) × (day.trains ≤ 12) }
    ensures { yard result ≡ without_train p (yard day) }
{
    sources_without(day.trains, p).rearrange(&day)
}

// With a train at position p, in no group and without boxes where the day is sound.
pub fn with_train(day: Day, p: usize, number: u32, first: u8, last: u8) -> Day
    requires { (day.trains < 12) × (p ≤ day.trains) }
    ensures { yard result ≡ with_train p number first last (yard day) }
{
    let mut d = sources_with(day.trains, p).rearrange(&day);
    d.numbers[p] = number;
    d.first[p] = first;
    d.last[p] = last;
    d
}

// With these boxes that position i receives from position j.
pub fn with_boxes(day: Day, i: usize, j: usize, boxes: u8) -> Day
    requires { (i < 12) × (j < 12) }
    ensures { yard result ≡ with_boxes i j boxes (yard day) }
{
    let mut d = day;
    d.boxes[i * 12 + j] = boxes;
    d
}
