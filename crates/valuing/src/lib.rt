// Valuing a row of slots (document 01): the number of revisits, the number of split moves, their weighted sum and the number of direct
// moves, or refusal 8, 11, 12, 13 or 17.
//
// Proved: for every record and every row `value_assignment` answers what `valued` of specs/Valuing.antt says. It is `value_file`, which
// values a row on a lent day of any size. Assumes nothing.
#![tactic(auto)]

ghost use Rattle.std.specs.Prelude.{◌≡◌, ◌≤◌, ◌<◌, ◌*◌, length, IfSome};
ghost use Rattle.fold.specs.First.{first_below};
ghost use Rattle.model.specs.Model.{in_window, roomy};
ghost use Rattle.model.specs.Groups.{GroupsUpTo};
ghost use Rattle.day.specs.Parts.{part_yard, IsShaped};
ghost use Rattle.day.specs.Sound.{day_limits, yard};
ghost use Rattle.valuing.specs.Valuing.{strays, overfull, answer, valued_row, valued};

use counting::Value;
use day::{Day, Parts, Refusal};

// Whether slot t holds no more trains than there are tracks.
fn is_roomy(row: &[u8], n: usize, tracks: u32, t: u8) -> bool
    requires { (n ≤ 64) × (n ≤ length row.now) }
    ensures { result ≡ roomy n tracks row.now t }
{
    u64::count_ones(counting::slot_mask(row, n, t)) <= tracks
}

// Whether the slot of position i lies in its window.
fn is_in_window(first: &[u8], last: &[u8], row: &[u8], i: usize) -> bool
    requires { (i < length first.now) × (i < length last.now) × (i < length row.now) }
    ensures { result ≡ in_window first.now last.now row.now i }
{
    day::is_in_time(first, last, i, row[i])
}

// The lowest position whose slot lies outside its window.
fn first_stray(first: &[u8], last: &[u8], row: &[u8], n: usize) -> Option<usize>
    requires { (n ≤ length first.now) × (n ≤ length last.now) × (n ≤ length row.now) }
    ensures { result ≡ first_below n (strays first.now last.now row.now) }
{
    (0..n).find(|&i| !is_in_window(first, last, row, i))
}

// The lowest slot that holds too many trains, counted from 0.
fn first_overfull(row: &[u8], n: usize, tracks: u32, slots: u8) -> Option<u8>
    requires { (n ≤ 64) × (n ≤ length row.now) }
    ensures lowest { result ≡ first_below slots (overfull n tracks row.now) }
    ensures small { IfSome result (λ t. t < 255) }
{
    (0..slots).find(|&t| !is_roomy(row, n, tracks, t + 1))
}

// Values a row on a sound day that is lent: 11, 12 with the lowest such position, 13 with the lowest such slot, 17 with the lowest such group,
// else the four numbers. (Train numbers have no part in it.)
pub fn value_row(p: &Parts, row: &[u8]) -> Result<Value, Refusal>
    requires trains_bound { (p.now.head.trains ≤ 64) × ((p.now.head.trains ≤ p.now.limits.trains) × ((p.now.limits.trains * p.now.limits.trains ≤ length p.now.boxes.now) × ((p.now.head.trains ≤ length p.now.first.now) × ((p.now.head.trains ≤ length p.now.last.now) × (p.now.head.trains ≤ length p.now.groups.now))))) }
    requires groups_up_to { GroupsUpTo p.now.limits.groups p.now.head.trains p.now.groups.now }
    ensures { answer result ≡ valued_row p.now.limits (part_yard p.now) row.now }
{
    let head = p.head;
    let n = head.trains;
    if row.len() != n {
        return Err(Refusal::RowLength);
    }
    if let Some(stray) = first_stray(p.first, p.last, row, n) {
        return Err(Refusal::OutsideWindow(stray + 1));
    }
    if let Some(full) = first_overfull(row, n, head.tracks, head.slots) {
        return Err(Refusal::SlotOverfull(full + 1));
    }
    let parted = wagon_sets::first_parted(p.groups, row, n, p.limits.groups);
    if parted < p.limits.groups {
        return Err(Refusal::GroupParted(parted + 1));
    }
    Ok(counting::value_slots(p.boxes, p.limits.trains, row, n, head.revisit, head.split))
}

// Values a row on a lent day of at most 64 trains, sound or not: 8, else as on a sound one.
pub fn value_file(p: &Parts, row: &[u8]) -> Result<Value, Refusal>
    requires { IsShaped p.now × (p.now.limits.trains ≤ 64) }
    ensures { answer result ≡ valued p.now.limits (part_yard p.now) row.now }
{
    if !day_sound::is_file_sound(p) {
        return Err(Refusal::Unsound);
    }
    value_row(p, row)
}

// Values a row of slots, 01's valuing: the four numbers, or refusal 8, 11, 12 with the lowest such position, 13 with the lowest such
// slot, or 17 with the lowest parted group, checked in this order. For every record and every row; no lent byte changes.
pub fn value_assignment(day: Day, row: &[u8]) -> Result<Value, Refusal>
    ensures { answer result ≡ valued day_limits (yard day) row.now }
{
    value_file(&day.parts(), row)
}
