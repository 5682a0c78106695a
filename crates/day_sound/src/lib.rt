// Whether a day is sound: some day file reads to it.
//
// Proved: `is_sound` is the definition `sound` of day's Sound.antt for every record, sound or not. A record's parts are tested by functions
// over a lent day of any size, so that records of other sizes use them too. Assumes nothing.
#![tactic(auto)]

ghost use Rattle.std.specs.Prelude.{◌≡◌, [], ◌∷◌, ◌<◌, length};
ghost use Rattle.fold.specs.Fold.{each};
ghost use Rattle.day.specs.Parts.{part_yard, IsShaped};
ghost use Rattle.day.specs.Sound.{day_limits, yard, within, head_ranges, number_before, train_sound, unused, position_sound, group_sound, pair_sound, receiver_sound, sound};

use day::{Day, Parts};

// The train number before position i, 0 before the first.
fn number_before(numbers: &[u32], i: usize) -> u32
    requires { i < length numbers.now }
    ensures { result ≡ number_before numbers.now i }
{
    if i == 0 { 0 } else { numbers[i - 1] }
}

// Position i of a train: its fields lie in their ranges, its number rises, its window is in order.
fn train_sound(p: &Parts, i: usize) -> bool
    requires { IsShaped p.now × (i < p.now.limits.trains) }
    ensures { result ≡ train_sound p.now.limits p.now.head.slots p.now.numbers.now p.now.first.now p.now.last.now i }
{
    day::train_within(
        p.limits,
        u64::from(p.head.slots),
        u64::from(p.numbers[i]),
        u64::from(p.first[i]),
        u64::from(p.last[i]),
    ) & (number_before(p.numbers, i) < p.numbers[i])
        & (p.first[i] <= p.last[i])
}

fn is_unused(p: &Parts, i: usize) -> bool
    requires { IsShaped p.now × (i < p.now.limits.trains) }
    ensures { result ≡ unused p.now.numbers.now p.now.first.now p.now.last.now i }
{
    (p.numbers[i] == 0) & (p.first[i] == 0) & (p.last[i] == 0)
}

fn position_sound(p: &Parts, i: usize) -> bool
    requires { IsShaped p.now × (i < p.now.limits.trains) }
    ensures { result ≡ position_sound p.now.limits p.now.head.trains p.now.head.slots p.now.numbers.now p.now.first.now p.now.last.now i }
{
    if i < p.head.trains {
        train_sound(p, i)
    } else {
        is_unused(p, i)
    }
}

fn positions_sound(p: &Parts) -> bool
    requires { IsShaped p.now }
    ensures { result ≡ each p.now.limits.trains (position_sound p.now.limits p.now.head.trains p.now.head.slots p.now.numbers.now p.now.first.now p.now.last.now) }
{
    (0..p.limits.trains).all(|i| position_sound(p, i))
}

// Boxes pass between two different trains, and keep their limit.
fn pair_sound(p: &Parts, i: usize, j: usize) -> bool
    requires { IsShaped p.now × (i < p.now.limits.trains) × (j < p.now.limits.trains) }
    ensures { result ≡ pair_sound p.now.limits p.now.head.trains p.now.limits.trains p.now.boxes.now i j }
{
    let boxes = day::cell_at(p.boxes, p.limits.trains, i, j);
    if (i < p.head.trains) & (j < p.head.trains) & (i != j) {
        boxes <= p.limits.boxes
    } else {
        boxes == 0
    }
}

fn receiver_sound(p: &Parts, i: usize) -> bool
    requires { IsShaped p.now × (i < p.now.limits.trains) }
    ensures { result ≡ receiver_sound p.now.limits p.now.head.trains p.now.limits.trains p.now.boxes.now i }
{
    (0..p.limits.trains).all(|j| pair_sound(p, i, j))
}

fn boxes_sound(p: &Parts) -> bool
    requires { IsShaped p.now }
    ensures { result ≡ each p.now.limits.trains (receiver_sound p.now.limits p.now.head.trains p.now.limits.trains p.now.boxes.now) }
{
    (0..p.limits.trains).all(|i| receiver_sound(p, i))
}

// Position i is in no group or in one of the limits' numbers, and in none where it holds no train.
fn group_sound(p: &Parts, i: usize) -> bool
    requires { IsShaped p.now × (i < p.now.limits.trains) }
    ensures { result ≡ group_sound p.now.limits p.now.head.trains p.now.groups.now i }
{
    if i < p.head.trains {
        p.groups[i] <= p.limits.groups
    } else {
        p.groups[i] == 0
    }
}

fn groups_sound(p: &Parts) -> bool
    requires { IsShaped p.now }
    ensures { result ≡ each p.now.limits.trains (group_sound p.now.limits p.now.head.trains p.now.groups.now) }
{
    (0..p.limits.trains).all(|i| group_sound(p, i))
}

fn is_head_sound(p: &Parts) -> bool
    ensures { result ≡ within (head_ranges p.now.limits) (p.now.head.trains ∷ p.now.head.tracks ∷ p.now.head.slots ∷ p.now.head.revisit ∷ p.now.head.split ∷ []) }
{
    day::head_within(
        p.limits,
        p.head.trains as u64,
        u64::from(p.head.tracks),
        u64::from(p.head.slots),
        u64::from(p.head.revisit),
        u64::from(p.head.split),
    )
}

// Whether a lent day is sound whose columns and table are as long as its limits say.
pub fn is_file_sound(p: &Parts) -> bool
    requires { IsShaped p.now }
    ensures { result ≡ sound p.now.limits (part_yard p.now) }
{
    is_head_sound(p) & positions_sound(p) & boxes_sound(p) & groups_sound(p)
}

// Whether a record is sound: some day file reads to it. For every record, sound or not.
pub fn is_sound(day: Day) -> bool
    ensures { result ≡ sound day_limits (yard day) }
{
    is_file_sound(&day.parts())
}
