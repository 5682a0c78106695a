// Long days (order 9 of document 02): up to 36 trains on at most 4 tracks and 12 slots, without groups. The record, its limits, and
// whether it is sound: some long day's file reads to it.
//
// Proved: the limits are those of specs/LongDay.antt; `is_long_sound` is the definition `sound` of day's Sound.antt at these limits, for
// every record, sound or not. It is day_sound's function over a lent day, with a column of zeros for the groups. Assumes nothing.
#![tactic(auto)]

ghost use Rattle.std.specs.Prelude.{◌≡◌};
ghost use Rattle.day.specs.Parts.{part_yard, IsShaped};
ghost use Rattle.day.specs.Sound.{zero_day, sound};
ghost use Rattle.long_day.specs.LongDay.{long_limits, long_head, long_yard};

use day::{Head, Limits, Parts};

// A long day. Positions are counted from 0; A(i, j), the boxes that train i receives from train j, stands at i * 36 + j of `boxes`.
// Unused positions hold 0.
#[derive(Clone, Copy)]
pub struct LongDay {
    pub trains: usize,
    pub tracks: u32,
    pub slots: u8,
    pub revisit: u32,
    pub split: u32,
    pub numbers: [u32; 36],
    pub first: [u8; 36],
    pub last: [u8; 36],
    pub boxes: [u8; 1296],
}

// The limits of order 9; those of weights, train numbers and boxes are a day's. There are no groups.
pub fn long_limits() -> Limits
    ensures { result ≡ long_limits }
{
    Limits {
        trains: 36,
        tracks: 4,
        slots: 12,
        weight: 65535,
        number: 99999,
        boxes: 255,
        groups: 0,
    }
}

// The column of groups of every long day.
static NO_GROUPS: [u8; 36] = [0; 36];

impl LongDay {
    pub fn head(&self) -> Head
        ensures { result ≡ long_head self.now }
    {
        Head {
            trains: self.trains,
            tracks: self.tracks,
            slots: self.slots,
            revisit: self.revisit,
            split: self.split,
        }
    }

    pub fn parts(&self) -> Parts<'_>
        ensures day { part_yard result ≡ long_yard self.now }
        ensures limits { result.limits ≡ long_limits }
        ensures shape { IsShaped result }
    {
        Parts {
            limits: long_limits(),
            head: self.head(),
            numbers: &self.numbers,
            first: &self.first,
            last: &self.last,
            groups: &NO_GROUPS,
            boxes: &self.boxes,
        }
    }
}

// A record of zeros.
pub fn zero_long_day() -> LongDay
    ensures { long_yard result ≡ zero_day long_limits }
{
    LongDay {
        trains: 0,
        tracks: 0,
        slots: 0,
        revisit: 0,
        split: 0,
        numbers: [0; 36],
        first: [0; 36],
        last: [0; 36],
        boxes: [0; 1296],
    }
}

// Whether a record is sound: some long day's file reads to it. For every record, sound or not.
pub fn is_long_sound(day: LongDay) -> bool
    ensures { result ≡ sound long_limits (long_yard day) }
{
    day_sound::is_file_sound(&day.parts())
}
