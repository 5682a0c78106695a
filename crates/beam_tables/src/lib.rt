// The tables that the beam search of long days reads: for each train its suppliers and the boxes that it receives, for each slot the
// trains whose windows hold it and those whose last slot has come. A set is a number: train i, counted from 0, is in it where its
// binary digit i is 1.
//
// Proved: each call gives its set or fills the first words of the lent slice with the entries of specs/Entries.antt, `beam` and `staging`,
// and leaves the words behind them as they were. Over slices, for up to 36 trains. Assumes nothing.
#![tactic(auto)]

ghost use Rattle.std.specs.Prelude.{◌≡◌, ℕ, ◌+◌, ◌≤◌, ◌<◌, length};
ghost use Rattle.fold.specs.Fold.{sum};
ghost use Rattle.sets.specs.Rest.{full};
ghost use Rattle.optimum.specs.Workspace.{at, Kept};
ghost use Rattle.tables.specs.Filled.{Filled};
ghost use Rattle.beam.specs.SlotCosts.{suppliers_of};
ghost use Rattle.beam_tables.specs.Given.{AreGiven, received};
ghost use Rattle.beam_tables.specs.Entries.{ending_by};

// The boxes between a day's trains: in row i of the square table train i has in its first `trains` columns what it receives from each.
#[derive(Clone, Copy)]
pub struct Boxes<'a> {
    pub table: &'a [u8],
    pub width: usize,
    pub trains: usize,
}

// The windows of a day's trains, and the boxes between them.
#[derive(Clone, Copy)]
pub struct DayTrains<'a> {
    pub first: &'a [u8],
    pub last: &'a [u8],
    pub boxes: Boxes<'a>,
}

impl<'a> Boxes<'a> {
    // What train i receives from train j.
    pub fn received(&self, i: usize, j: usize) -> u8
        requires { AreGiven self.now × (i < self.now.trains) × (j < self.now.trains) }
        ensures { result ≡ received self.now i j }
    {
        day::cell_at(self.table, self.width, i, j)
    }
}

// Fills the first n words of a table, each from its index.
fn fill<F: Fn(usize) -> u64>(table: &mut [u64], n: usize, entry: F)
    requires { (n ≤ length table.old) × ((i : ℕ) → i < n → F.pre entry i) }
    ensures { Kept n table.old table.new × ((i : ℕ) → i < n → F.post entry i (at table.new i)) }
{
    for i in 0..n {
        table[i] = entry(i);
    }
}

// ---- by train

// The suppliers of train i.
fn suppliers_of(boxes: &Boxes, i: usize) -> u64
    requires { AreGiven boxes.now × (i < boxes.now.trains) }
    ensures { result ≡ suppliers_of boxes.now.trains (received boxes.now) i }
{
    let mut mask: u64 = 0;
    for j in 0..boxes.trains {
        if 0 < boxes.received(i, j) {
            mask = mask | (1u64 << j);
        }
    }
    mask
}

pub fn fill_suppliers(suppliers: &mut [u64], boxes: &Boxes)
    requires { AreGiven boxes.now × (boxes.now.trains ≤ length suppliers.old) }
    ensures { Filled (suppliers_of boxes.now.trains (received boxes.now)) boxes.now.trains suppliers.old suppliers.new }
{
    fill(suppliers, boxes.trains, |i| suppliers_of(boxes, i));
}

// The boxes that train i receives: at most 255 from each of 36 trains.
pub fn incoming_to(boxes: &Boxes, i: usize) -> u64
    requires { AreGiven boxes.now × (i < boxes.now.trains) }
    ensures { (result ≡ sum boxes.now.trains (received boxes.now i)) × (result ≤ 9180) }
{
    let mut total: u64 = 0;
    for j in 0..boxes.trains {
        total += u64::from(boxes.received(i, j));
    }
    total
}

pub fn fill_incoming(incoming: &mut [u64], boxes: &Boxes)
    requires { AreGiven boxes.now × (boxes.now.trains ≤ length incoming.old) }
    ensures { Filled (λ i. sum boxes.now.trains (received boxes.now i)) boxes.now.trains incoming.old incoming.new × ((i : ℕ) → i < boxes.now.trains → sum boxes.now.trains (received boxes.now i) ≤ 9180) }
{
    fill(incoming, boxes.trains, |i| incoming_to(boxes, i));
}

// ---- by slot

// The trains whose last slot is at most b.
fn ending_by(last: &[u8], n: usize, b: u8) -> u64
    requires { (n ≤ 36) × (n ≤ length last.now) }
    ensures { result ≡ ending_by n last.now b }
{
    let mut mask: u64 = 0;
    for i in 0..n {
        if last[i] <= b {
            mask = mask | (1u64 << i);
        }
    }
    mask
}

// Slot b stands at b: from 0, before the first slot, to the last slot.
pub fn fill_ends(ends: &mut [u64], last: &[u8], n: usize, slots: usize)
    requires { (n ≤ 36) × (n ≤ length last.now) × (slots < 255) × (slots < length ends.old) }
    ensures { Filled (ending_by n last.now) (slots + 1) ends.old ends.new }
{
    fill(ends, slots + 1, |b| ending_by(last, n, b as u8));
}

// ---- all trains

// The set of all n trains.
pub fn all_trains(n: usize) -> u64
    requires { n ≤ 36 }
    ensures { result ≡ full n }
{
    (1u64 << n) - 1
}
