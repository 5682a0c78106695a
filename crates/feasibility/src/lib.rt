// The first overbooked interval of a day's windows (01: stretch).
//
// Proved: `first_overbooked` answers what `first_overbooked` of the model's Overbooked.antt names, with the number of trains bound
// inside. Over slices of windows, for any number of trains, tracks and slots. Assumes nothing.
#![tactic(auto)]

ghost use Rattle.std.specs.Prelude.{◌≡◌, ◌+◌, ◌-◌, ◌*◌, ◌≤◌, length};
ghost use Rattle.model.specs.Model.{bound};
ghost use Rattle.feasibility.specs.Search.{Finds, windows_only};

// An overbooked interval as refusal 9 names it, with the trains bound inside.
#[derive(Clone, Copy)]
pub struct Overbooked {
    pub first: u8,
    pub last: u8,
    pub trains: usize,
}

// How many of the first n trains are bound inside a..b: they can stand nowhere else.
fn bound_inside(first: &[u8], last: &[u8], n: usize, a: u8, b: u8) -> usize
    requires { (n ≤ length first.now) × (n ≤ length last.now) }
    ensures { result ≡ bound n first.now last.now a b }
{
    let mut count: usize = 0;
    for i in 0..n {
        if (a <= first[i]) & (last[i] <= b) {
            count += 1;
        }
    }
    count
}

// How many trains the slots a..b hold. A u64, so that it fits for any number of tracks and slots.
fn places(tracks: u32, a: u8, b: u8) -> u64
    requires { a ≤ b }
    ensures { result ≡ tracks * (b - a + 1) }
{
    u64::from(tracks) * (u64::from(b - a) + 1)
}

// Of the intervals with more trains bound inside than places, the one with the smallest first slot, and for it the smallest last
// slot: the loops pass the intervals in this order, so the first one found is the one to name. On a day whose windows lie in its slots
// a row fits exactly where none is found (specs/RowOrNone.antt).
pub fn first_overbooked(
    first: &[u8],
    last: &[u8],
    n: usize,
    tracks: u32,
    slots: u8,
) -> Option<Overbooked>
    requires { (n ≤ length first.now) × (n ≤ length last.now) }
    ensures { Finds (windows_only n tracks slots first.now last.now) result }
{
    let mut answer = None;
    'search: for a in 1..=slots {
        for b in a..=slots {
            let trains = bound_inside(first, last, n, a, b);
            if places(tracks, a, b) < trains as u64 {
                answer = Some(Overbooked {
                    first: a,
                    last: b,
                    trains,
                });
                break 'search;
            }
        }
    }
    answer
}
