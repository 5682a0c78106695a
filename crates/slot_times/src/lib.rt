// The slots of one date by the clock (order 11 of document 02): how many are used, and which of them lie between a train's arrival and its
// departure. Minutes count from midnight, slots from 1.
//
// Proved: each function is its definition in specs/Slots.antt. proofs/Laws.antt: which slots are used, and which the first and the last are.
// Assumes nothing.
#![tactic(auto)]

ghost use Rattle.std.specs.Prelude.{◌≡◌, ◌≤◌};
ghost use Rattle.slot_times.specs.Slots.{slots_between, first_slot, last_slot};

// "at most eight are used"
const MOST_SLOTS: u32 = 8;

// How many slots are used between opening and closing: those that end at closing or before, at most eight.
#[tactic(auto, using(crate::proofs::Laws::slots_divided))]
pub fn slots_between(opens: u32, closes: u32, length: u32) -> u32
    requires { 1 ≤ length }
    ensures { (result ≡ slots_between opens closes length) × (result ≤ 8) }
{
    let whole = closes.saturating_sub(opens) / length;
    whole.min(MOST_SLOTS)
}

// The earliest used slot that starts at or after arrival, or the number after the used ones.
pub fn first_slot(opens: u32, length: u32, used: u32, arrival: u32) -> u32
    requires { (opens ≤ 1439) × (length ≤ 1440) × (used ≤ 8) }
    ensures { result ≡ first_slot opens length used arrival }
{
    (1..=used)
        .find(|&k| arrival <= opens + (k - 1) * length)
        .unwrap_or(used + 1)
}

// The latest used slot that ends at or before departure, or 0.
pub fn last_slot(opens: u32, length: u32, used: u32, departure: u32) -> u32
    requires { (opens ≤ 1439) × (length ≤ 1440) × (used ≤ 8) }
    ensures { result ≡ last_slot opens length used departure }
{
    (1..=used)
        .rev()
        .find(|&k| opens + k * length <= departure)
        .unwrap_or(0)
}
