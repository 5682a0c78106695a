// The day that is left to planning when slots are closed (order 7 of document 02): the slots of served trains, and the windows cut to the
// open slots.
//
// Proved: each function is the definition of rolling's Rolling.antt that its contract names. Assumes nothing.
#![tactic(auto)]

ghost use Rattle.std.specs.Prelude.{◌≡◌, ◌≤◌, ◌<◌, ℕ, cond, eqb, length};
ghost use Rattle.fold.specs.Column.{column};
ghost use Rattle.model.specs.Model.{slot_of};
ghost use Rattle.day.specs.Sound.{yard};
ghost use Rattle.rolling.specs.Rolling.{served_slot, cut};
ghost use Rattle.day_cut.specs.Account.{account};

use day::Day;

// What `slot` says of each of the first n positions; 0 past them.
fn by_position<F: Fn(usize) -> u8>(n: usize, slot: F) -> [u8; 12]
    requires few { n ≤ 12 }
    requires callable { (i : ℕ) → i < n → F.pre slot i }
    ensures { (h : ℕ → ℕ) → ((i r : ℕ) → i < n → F.post slot i r → r ≡ h i) → result ≡ column 12 n h }
{
    let mut slots = [0u8; 12];
    for i in 0..n {
        slots[i] = slot(i);
    }
    slots
}

// ---- served trains

// The slot of a served train, 0 of another.
fn served_slot(closed: u8, slot: u8) -> u8
    ensures { result ≡ served_slot closed slot }
{
    if slot <= closed { slot } else { 0 }
}

// By position, for the first n slots of a row; 0 past them.
pub fn served_slots(row: &[u8], n: usize, closed: u8) -> [u8; 12]
    requires { (n ≤ 12) × (n ≤ length row.now) }
    ensures { result ≡ column 12 n (λ i. served_slot closed (slot_of row.now i)) }
{
    by_position(n, |i| served_slot(closed, row[i]))
}

// ---- the windows that are left

// The slot in which a train was served; `waiting` where it was not served yet.
fn served_or(served: u8, waiting: u8) -> u8
    ensures { result ≡ cond (eqb served 0) waiting served }
{
    if served == 0 { waiting } else { served }
}

// The day with its windows cut: a served train is bound to its slot, and the others to the open slots.
pub fn cut_day(day: Day, closed: u8, served: [u8; 12]) -> Day
    requires { (day.trains ≤ 12) × (closed < 255) }
    ensures { yard result ≡ cut (account (yard day) closed served) }
{
    let n = day.trains;
    let first = by_position(n, |i| served_or(served[i], day.first[i].max(closed + 1)));
    let last = by_position(n, |i| served_or(served[i], day.last[i]));
    let mut d = day;
    d.first = first;
    d.last = last;
    d
}
