// What it costs to serve a set of trains of a long day, by its trains, and whether what remains is discarded (document 02, order 9).
//
// Proved: the sums over the set that `beam` gives for the two counts (SlotCosts.antt), bounded by the number of its trains; the test of
// discards by counting (Shortcuts.antt). `late_trains` reads `n` in its contract alone. Over slices, for up to 36 trains. Assumes nothing.
#![tactic(auto)]

ghost use Rattle.std.specs.Prelude.{◌≡◌, ℕ, suc, ◌+◌, ◌-◌, ◌*◌, ◌^◌, ◌≤◌, ◌<◌, ltb, length};
ghost use Rattle.std.specs.Int.Bits.{bit_and};
ghost use Rattle.std.specs.Int.Count.{ones};
ghost use Rattle.fold.specs.Fold;
ghost use Rattle.fold.specs.Fold.{bit};
ghost use Rattle.sets.specs.Members.{sum_over};
ghost use Rattle.optimum.specs.Workspace.{at};
ghost use Rattle.beam_tables.specs.Given.{AreGiven, received};
ghost use Rattle.set_costs.specs.Sets.{Trimmed};

use beam_tables::Boxes;

// ---- what a set costs

// The boxes that train i receives from the trains of s.
fn boxes_from(boxes: &Boxes, i: usize, s: u64) -> u64
    requires { AreGiven boxes.now × (i < boxes.now.trains) × (s < 2 ^ boxes.now.trains) }
    ensures { result ≡ sum_over boxes.now.trains s (received boxes.now i) }
{
    let mut total: u64 = 0;
    let mut left = s;
    while left != 0 {
        let j = u64::trailing_zeros(left) as usize;
        total += u64::from(boxes.received(i, j));
        left = left & (left - 1);
    }
    total
}

// The boxes that the trains of s receive from outside s, where `incoming` has what each train receives.
pub fn boxes_from_outside(boxes: &Boxes, incoming: &[u64], s: u64) -> u64
    requires { AreGiven boxes.now × (boxes.now.trains ≤ length incoming.now) × (s < 2 ^ boxes.now.trains) × ((i : ℕ) → i < boxes.now.trains → (sum_over boxes.now.trains s (received boxes.now i) ≤ at incoming.now i) × (at incoming.now i ≤ 9180)) }
    ensures { (result ≡ sum_over boxes.now.trains s λ i. at incoming.now i - sum_over boxes.now.trains s (received boxes.now i)) × (result ≤ 9180 * ones s) }
{
    let mut total: u64 = 0;
    let mut left = s;
    while left != 0 {
        let i = u64::trailing_zeros(left) as usize;
        total += incoming[i] - boxes_from(boxes, i, s);
        left = left & (left - 1);
    }
    total
}

// How many trains of s have a supplier in `rest`.
pub fn late_trains(suppliers: &[u64], n: usize, s: u64, rest: u64) -> u64
    requires { (n ≤ 36) × (n ≤ length suppliers.now) × (s < 2 ^ n) }
    ensures { (result ≡ sum_over n s λ i. bit (ltb 0 (bit_and rest (at suppliers.now i)))) × (result ≤ 1 * ones s) }
{
    let mut late: u64 = 0;
    let mut left = s;
    while left != 0 {
        let i = u64::trailing_zeros(left) as usize;
        if 0 < rest & suppliers[i] {
            late += 1;
        }
        left = left & (left - 1);
    }
    late
}

// ---- discards

// Whether more of the trains r end by slot t + d than the d slots after t have tracks for.
fn is_crowded(ends: &[u64], r: u64, t: usize, d: usize, tracks: u32) -> bool
    requires { (d ≤ 12) × (t + d < length ends.now) × (tracks ≤ 4) }
    ensures { result ≡ ltb (tracks * d) (ones (bit_and r (at ends.now (t + d)))) }
{
    tracks * (d as u32) < u64::count_ones(r & ends[t + d])
}

// Whether for some slot from t on more of the trains r that remain after t end by it than the slots up to it have tracks for.
pub fn is_discarded(ends: &[u64], r: u64, t: usize, slots: usize, tracks: u32) -> bool
    requires { (t ≤ slots) × (slots ≤ 12) × (slots < length ends.now) × (tracks ≤ 4) }
    ensures { result ≡ Fold.some (suc (slots - t)) (λ d. ltb (tracks * d) (ones (bit_and r (at ends.now (t + d))))) }
{
    (0..slots - t + 1).any(|d| is_crowded(ends, r, t, d, tracks))
}

// ---- the walk through sets

// The largest set up to s, of its trains, that has no more than `tracks` of them.
pub fn trimmed(s: u64, tracks: u32) -> u64
    ensures { Trimmed tracks s result × (ones result ≤ tracks) }
{
    let mut w = s;
    let mut count = u64::count_ones(s);
    while tracks < count {
        w = w & (w - 1);
        count -= 1;
    }
    w
}
