// The procedures that planning is measured against: first come, first served, and the myopic start procedure of source 000, section 4.2.
//
// Proved: each leaves the row that specs/Procedures.antt gives, with slot 0 for a train that gets none. A day comes as lent columns, a width
// and numbers, so that records of other sizes use them too. Assumes nothing.
#![tactic(auto)]

ghost use Rattle.std.specs.Prelude.{◌≡◌, ◌^◌, ◌≤◌, ◌<◌, pos, ◌-ℤ◌, MatchOption, length, replicate};
ghost use Rattle.fold.specs.Fold.{some};
ghost use Rattle.counting.specs.Given.{GivenPair};
ghost use Rattle.procedures.specs.Procedures.{track_free, left_over, waiting_supplier};
ghost use Rattle.procedures.specs.Lent.{HasWindows, IsLent, boxes_of, earliest_of, open_to, come, priority_of, select_of, filled_of, served};

// A day as a caller lends it: its numbers, the windows of its trains, and the table of their boxes.
#[derive(Clone, Copy)]
pub struct LentDay<'a> {
    pub trains: usize,
    pub tracks: u32,
    pub slots: u8,
    pub revisit: u32,
    pub split: u32,
    pub first: &'a [u8],
    pub last: &'a [u8],
    pub width: usize,
    pub boxes: &'a [u8],
}

// ---- first come

impl<'a> LentDay<'a> {
    // Whether slot t has a track free.
    fn is_track_free(&self, row: &[u8], t: u8) -> bool
        requires { (self.now.trains ≤ 64) × (self.now.trains ≤ length row.now) }
        ensures { result ≡ track_free self.now.trains self.now.tracks row.now t }
    {
        u64::count_ones(counting::slot_mask(row, self.trains, t)) < self.tracks
    }

    // Whether slot t is one for train i: its window holds it, and a track is free.
    fn is_open_to(&self, row: &[u8], i: usize, t: u8) -> bool
        requires { HasWindows self.now × (i < self.now.trains) × (self.now.trains ≤ length row.now) }
        ensures { result ≡ open_to self.now row.now i t }
    {
        day::is_in_time(self.first, self.last, i, t) & self.is_track_free(row, t)
    }

    // The earliest slot for train i, counted from 0.
    fn earliest_slot(&self, row: &[u8], i: usize) -> Option<u8>
        requires { HasWindows self.now × (i < self.now.trains) × (self.now.trains ≤ length row.now) }
        ensures { MatchOption result (self.now.slots ≤ earliest_of self.now row.now i) (λ t. (t ≡ earliest_of self.now row.now i) × (t < self.now.slots)) }
    {
        (0..self.slots).find(|&t| self.is_open_to(row, i, t + 1))
    }
}

// The trains take their slots in file order. The row holds zeros before.
pub fn come_first(day: &LentDay, row: &mut [u8])
    requires { HasWindows day.now × (row.old ≡ replicate day.now.trains 0) }
    ensures { row.new ≡ come day.now }
{
    for i in 0..day.trains {
        if let Some(t) = day.earliest_slot(row, i) {
            row[i] = t + 1;
        }
    }
}

// ---- myopic

impl<'a> LentDay<'a> {
    // Whether train j supplies train i and has no slot yet.
    #[tactic(auto, unfolding(crate::specs::Procedures::waiting_supplier, crate::specs::Procedures::waits))]
    fn is_waiting_supplier(&self, row: &[u8], i: usize, j: usize) -> bool
        requires { GivenPair self.now.width self.now.boxes.now row.now i j }
        ensures { result ≡ waiting_supplier (boxes_of self.now) row.now i j }
    {
        (0 < day::cell_at(self.boxes, self.width, i, j)) & (row[j] == 0)
    }

    // Whether some supplier of train i has no slot yet.
    fn has_waiting_supplier(&self, row: &[u8], i: usize) -> bool
        requires { IsLent self.now row.now × (i < self.now.trains) }
        ensures { result ≡ some self.now.trains (waiting_supplier (boxes_of self.now) row.now i) }
    {
        (0..self.trains).any(|j| self.is_waiting_supplier(row, i, j))
    }

    // What train i would add in slot t, equation (11).
    fn priority_of(&self, row: &[u8], t: u8, i: usize) -> u64
        requires { IsLent self.now row.now × (i < self.now.trains) }
        ensures { result ≡ priority_of self.now row.now t i }
    {
        let outside = counting::boxes_outside(self.boxes, self.width, row, self.trains, t, i);
        let splits = u64::from(self.split) * outside;
        if self.has_waiting_supplier(row, i) {
            u64::from(self.revisit) + splits
        } else {
            splits
        }
    }

    // The train to serve next in slot t: of those that wait and whose window holds the slot the lowest one of least priority, or the number
    // of trains.
    fn select_train(&self, row: &[u8], t: u8) -> usize
        requires { IsLent self.now row.now }
        ensures { result ≡ select_of self.now row.now t self.now.trains }
    {
        let mut chosen = self.trains;
        let mut least: u64 = 0;
        for k in 0..self.trains {
            if (row[k] == 0) & day::is_in_time(self.first, self.last, k, t) {
                let p = self.priority_of(row, t, k);
                if (self.trains <= chosen) | (p < least) {
                    chosen = k;
                    least = p;
                }
            }
        }
        chosen
    }

    // Fills the tracks of slot t.
    fn fill_tracks(&self, row: &mut [u8], t: u8)
        requires { IsLent self.now row.old }
        ensures { row.new ≡ filled_of self.now t row.old self.now.tracks }
    {
        for _track in 0..self.tracks {
            let i = self.select_train(row, t);
            if i < self.trains {
                row[i] = t;
            }
        }
    }
}

// Slot after slot the trains that raise the objective least. The row holds zeros before.
pub fn serve_myopic(day: &LentDay, row: &mut [u8])
    requires { IsLent day.now row.old × (row.old ≡ replicate day.now.trains 0) }
    ensures { row.new ≡ served day.now }
{
    for t in 0..day.slots {
        day.fill_tracks(row, t + 1);
    }
}

// ---- what is said of a row

// The lowest position without a slot, counted from 0, or n.
pub fn left_over(row: &[u8], n: usize) -> usize
    requires { n ≤ length row.now }
    ensures { (result ≡ left_over n row.now) × (result ≤ n) }
{
    row[..n].iter().position(|&slot| slot == 0).unwrap_or(n)
}

// One cost less another, which may be the greater.
pub fn saving_of(cost: u64, planned: u64) -> i64
    requires { (cost < 2 ^ 63) × (planned < 2 ^ 63) }
    ensures { result ≡ pos cost -ℤ pos planned }
{
    (cost as i64) - (planned as i64)
}
