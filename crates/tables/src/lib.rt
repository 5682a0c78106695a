// The tables over sets of trains that planning reads, but for what split moves cost (crate `prices`). A set is a number: train i, counted
// from 0, is in it where its binary digit i is 1.
//
// Proved: each call fills the first words of the lent slice with the entries of specs/Entries.antt and of `staging`, and leaves the
// words behind them as they were. The tables have an entry for each set, so n is at most 12. Assumes nothing.
#![tactic(auto)]

ghost use Rattle.std.specs.Prelude.{◌≡◌, ℕ, suc, ◌+◌, ◌*◌, ◌^◌, ◌≤◌, ◌<◌, length, slice_index_or};
ghost use Rattle.std.specs.Int.Count.{ones};
ghost use Rattle.model.specs.Cells.{InTable};
ghost use Rattle.optimum.specs.Workspace.{at};
ghost use Rattle.staging.specs.Tables.{needing, open_in};
ghost use Rattle.tables.specs.Given.{Given, boxes_of};
ghost use Rattle.tables.specs.Entries.{receivers};
ghost use Rattle.tables.specs.Filled.{Filled};
ghost use Rattle.tables.specs.Doubled.{Doubled};

// The boxes that the trains of a day move to each other: those that train i receives from train j stand at i * width + j.
#[derive(Clone, Copy)]
pub struct Supplies<'a> {
    pub boxes: &'a [u8],
    pub width: usize,
    pub trains: usize,
}

impl Supplies<'_> {
    // The boxes that train i receives from train j.
    pub fn received(&self, i: usize, j: usize) -> u8
        requires { InTable self.now.width self.now.boxes.now i j }
        ensures { result ≡ boxes_of self.now i j }
    {
        day::cell_at(self.boxes, self.width, i, j)
    }
}

// ---- tables that grow by a train: the sets with train k highest come from those below

// To the entries of the sets below `size` adds those of the same sets with one train more, each by `with_train` from that of its set.
fn add_train<T: Copy, F: Fn(T) -> T>(table: &mut [T], size: usize, with_train: F)
    requires room { size + size ≤ length table.old }
    requires callable { (m : ℕ) (d : T) → m < size → F.pre with_train (slice_index_or table.old m d) }
    ensures { Doubled (F.post with_train) size size table.old table.new }
{
    for m in 0..size {
        table[size + m] = with_train(table[m]);
    }
}

// The trains that receive from train k.
fn receivers_of(supplies: &Supplies, k: usize) -> u16
    requires { Given supplies.now × (k < supplies.now.trains) }
    ensures { result ≡ receivers supplies.now.trains (boxes_of supplies.now) k }
{
    let mut mask: u16 = 0;
    for i in 0..supplies.trains {
        if 0 < supplies.received(i, k) {
            mask = mask | (1u16 << i);
        }
    }
    mask
}

// The trains with a supplier in m, for each set m of the trains.
pub fn fill_needing(need: &mut [u16], supplies: &Supplies)
    requires { Given supplies.now × (2 ^ supplies.now.trains ≤ length need.old) }
    ensures { Filled (needing supplies.now.trains (boxes_of supplies.now)) (2 ^ supplies.now.trains) need.old need.new }
{
    need[0] = 0;
    for k in 0..supplies.trains {
        let more = receivers_of(supplies, k);
        add_train(need, 1usize << k, |suppliers| suppliers | more);
    }
}

// How many trains each set has.
pub fn fill_count(count: &mut [u8], n: usize)
    requires { (n ≤ 12) × (2 ^ n ≤ length count.old) }
    ensures { Filled ones (2 ^ n) count.old count.new }
{
    count[0] = 0;
    for k in 0..n {
        add_train(count, 1usize << k, |trains| trains + 1);
    }
}

// ---- what the revisits of each set cost

// Each train of a set weighed by what a revisit costs.
pub fn fill_late(late: &mut [u32], count: &[u8], revisit: u32, size: usize)
    requires { (revisit ≤ 65535) × (size ≤ 4096) × (size ≤ length late.old) × (size ≤ length count.now) }
    ensures { Filled (λ m. revisit * at count.now m) size late.old late.new }
{
    for m in 0..size {
        late[m] = revisit * u32::from(count[m]);
    }
}

// ---- the trains that may be served in each slot

// The trains whose windows hold slot t.
pub fn open_in(first: &[u8], last: &[u8], n: usize, t: u8) -> usize
    requires { (n ≤ 64) × (n ≤ length first.now) × (n ≤ length last.now) }
    ensures { result ≡ open_in n first.now last.now t }
{
    let mut mask: usize = 0;
    for i in 0..n {
        if day::is_in_time(first, last, i, t) {
            mask = mask | (1usize << i);
        }
    }
    mask
}

// Slot t stands at t - 1.
pub fn fill_open(opens: &mut [usize], first: &[u8], last: &[u8], n: usize, slots: usize)
    requires { (n ≤ 12) × (n ≤ length first.now) × (n ≤ length last.now) × (slots ≤ 255) × (slots ≤ length opens.old) }
    ensures { Filled (λ j. open_in n first.now last.now (suc j)) slots opens.old opens.new }
{
    for (j, open) in opens[..slots].iter_mut().enumerate() {
        *open = open_in(first, last, n, (j + 1) as u8);
    }
}
