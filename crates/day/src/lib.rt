// The day record with the limits of document 01 as data, and the refusals of documents 01 and 02.
//
// Proved: the limits and the ranges of a row's fields are those of specs/Sound.antt, which also says when a record is sound. Assumes nothing.
#![tactic(auto)]

ghost use Rattle.std.specs.Prelude.{◌≡◌, [], ◌∷◌, ◌≤◌, ◌<◌, length};
ghost use Rattle.model.specs.Model.{cell, in_time};
ghost use Rattle.model.specs.Cells.{InTable};
ghost use Rattle.day.specs.Parts.{part_yard, IsShaped};
ghost use Rattle.day.specs.Sound.{day_limits, head_of, yard, zero_day, range, between, within, head_ranges, train_ranges, move_ranges, group_ranges};

// A day. Positions are counted from 0; A(i, j), the boxes that train i receives from train j, stands at i * 12 + j of `boxes`.
// A train in no group has group 0. Unused positions hold 0.
#[derive(Clone, Copy)]
pub struct Day {
    pub trains: usize,
    pub tracks: u32,
    pub slots: u8,
    pub revisit: u32,
    pub split: u32,
    pub numbers: [u32; 12],
    pub first: [u8; 12],
    pub last: [u8; 12],
    pub groups: [u8; 12],
    pub boxes: [u8; 144],
}

// The row of the first section of a day file. With it a day of any size is four columns and a table of boxes.
#[derive(Clone, Copy, Debug, PartialEq, Eq)]
pub struct Head {
    pub trains: usize,
    pub tracks: u32,
    pub slots: u8,
    pub revisit: u32,
    pub split: u32,
}

// A day of any size, lent: its limits, its head, four columns and a table of boxes, each as long as the limits say.
#[derive(Clone, Copy)]
pub struct Parts<'a> {
    pub limits: Limits,
    pub head: Head,
    pub numbers: &'a [u32],
    pub first: &'a [u8],
    pub last: &'a [u8],
    pub groups: &'a [u8],
    pub boxes: &'a [u8],
}

// The greatest value of each field of a day file. Where `groups` is 0 the file has no fourth section.
#[derive(Clone, Copy, Debug, PartialEq, Eq)]
pub struct Limits {
    pub trains: usize,
    pub tracks: u32,
    pub slots: u8,
    pub weight: u32,
    pub number: u32,
    pub boxes: u8,
    pub groups: u8,
}

// The refusals 1 to 13 of document 01 and 14 to 24 of document 02, in their order, with what each carries: a line of the text, counted
// from 1, or 0 where no text is read; the first and the last slot of an interval and the trains bound inside; a position or a slot,
// counted from 1 (`WithoutSlot` of 0: each train has a slot, and the row is still not allowed); a group.
#[derive(Clone, Copy, Debug, PartialEq, Eq)]
pub enum Refusal {
    NamesLine(usize),
    RowForm(usize),
    OutOfLimits(usize),
    NumberOrder(usize),
    WindowOrder(usize),
    UnknownTrain(usize),
    PairOrder(usize),
    Unsound,
    Overbooked { first: u8, last: u8, trains: usize },
    TooShort,
    RowLength,
    OutsideWindow(usize),
    SlotOverfull(u8),
    WithoutSlot(usize),
    GroupRow(usize),
    NoAllowedRow,
    GroupParted(u8),
    TrainUnavailable,
    TrainNotAddable,
    NoOpenSlot,
    WidthOutOfRange,
    TooManyDays,
    CalendarOutOfRange,
    NoWindow,
}

// The limits of document 01; that of train numbers is order 2's of document 02, that of groups order 4's.
pub fn day_limits() -> Limits
    ensures { result ≡ day_limits }
{
    Limits {
        trains: 12,
        tracks: 12,
        slots: 8,
        weight: 65535,
        number: 99999,
        boxes: 255,
        groups: 12,
    }
}

// Whether a value lies in a range.
fn in_range(least: u64, greatest: u64, x: u64) -> bool
    ensures { result ≡ between (range least greatest) x }
{
    (least <= x) & (x <= greatest)
}

// Whether the fields of a row lie in their ranges: the first section's row, a train's, a move's, a group's.
pub fn head_within(
    l: Limits,
    trains: u64,
    tracks: u64,
    slots: u64,
    revisit: u64,
    split: u64,
) -> bool
    ensures { result ≡ within (head_ranges l) (trains ∷ tracks ∷ slots ∷ revisit ∷ split ∷ []) }
{
    in_range(1, l.trains as u64, trains)
        & in_range(1, l.tracks as u64, tracks)
        & in_range(1, l.slots as u64, slots)
        & in_range(0, l.weight as u64, revisit)
        & in_range(0, l.weight as u64, split)
}

pub fn train_within(l: Limits, slots: u64, number: u64, first: u64, last: u64) -> bool
    ensures { result ≡ within (train_ranges l slots) (number ∷ first ∷ last ∷ []) }
{
    in_range(1, l.number as u64, number) & in_range(1, slots, first) & in_range(1, slots, last)
}

pub fn move_within(l: Limits, to: u64, from: u64, boxes: u64) -> bool
    ensures { result ≡ within (move_ranges l) (to ∷ from ∷ boxes ∷ []) }
{
    in_range(1, l.number as u64, to)
        & in_range(1, l.number as u64, from)
        & in_range(1, l.boxes as u64, boxes)
}

pub fn group_within(l: Limits, group: u64, train: u64) -> bool
    ensures { result ≡ within (group_ranges l) (group ∷ train ∷ []) }
{
    in_range(1, l.groups as u64, group) & in_range(1, l.number as u64, train)
}

// The entry (i, j) of a square table that is stored row after row.
pub fn cell_at(table: &[u8], width: usize, i: usize, j: usize) -> u8
    requires { InTable width table.now i j }
    ensures { result ≡ cell width table.now i j }
{
    let at = i * width + j;
    table[at]
}

// Whether the window of train i holds slot t.
pub fn is_in_time(first: &[u8], last: &[u8], i: usize, t: u8) -> bool
    requires { (i < length first.now) × (i < length last.now) }
    ensures { result ≡ in_time first.now last.now i t }
{
    (first[i] <= t) & (t <= last[i])
}

impl Day {
    pub fn head(&self) -> Head
        ensures { result ≡ head_of self.now }
    {
        Head {
            trains: self.trains,
            tracks: self.tracks,
            slots: self.slots,
            revisit: self.revisit,
            split: self.split,
        }
    }

    pub fn parts(&self) -> Parts<'_>
        ensures day { part_yard result ≡ yard self.now }
        ensures limits { result.limits ≡ day_limits }
        ensures shape { IsShaped result }
    {
        Parts {
            limits: day_limits(),
            head: self.head(),
            numbers: &self.numbers,
            first: &self.first,
            last: &self.last,
            groups: &self.groups,
            boxes: &self.boxes,
        }
    }
}

// A record of zeros.
pub fn zero_day() -> Day
    ensures { yard result ≡ zero_day day_limits }
{
    Day {
        trains: 0,
        tracks: 0,
        slots: 0,
        revisit: 0,
        split: 0,
        numbers: [0; 12],
        first: [0; 12],
        last: [0; 12],
        groups: [0; 12],
        boxes: [0; 144],
    }
}
