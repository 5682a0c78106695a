// What a row of slots comes to: the number of revisits, the number of split moves, their weighted sum, the number of direct moves, and a
// slot's trains as one mask.
//
// Proved: each function is its definition in Model.antt, over slices, a width and numbers, so that days of every size use it. Assumes
// nothing.
#![tactic(auto)]

ghost use Rattle.std.specs.Prelude.{◌≡◌, ◌≤◌, ◌<◌, ◌*◌, length};
ghost use Rattle.fold.specs.Fold.{sum};
ghost use Rattle.model.specs.Model.{cell, late_supplier, revisiting, revisits, outside_boxes, splits, direct_boxes, direct_to, direct, weighed, row_outcome, slot_mask};
ghost use Rattle.counting.specs.Given.{Given, GivenPair};
ghost use Rattle.counting.specs.Counting.{outcome_of, no_outcome};

// The model's two counts and order 6's, a number type each. Outside this crate a count is opened by its own opener alone; only `weigh` opens
// two, revisits and split moves. Direct moves are not weighed.
// Stays: number types by hand, as what may not change says (01, "Forms for each place": Revisits and Splits).
#[derive(Clone, Copy)]
pub struct Revisits(u64);

#[derive(Clone, Copy)]
pub struct Splits(u64);

#[derive(Clone, Copy)]
pub struct Direct(u64);

impl Revisits {
    pub fn count(self) -> u64
        ensures { result ≡ self.0 }
    {
        self.0
    }
}

impl Splits {
    pub fn count(self) -> u64
        ensures { result ≡ self.0 }
    {
        self.0
    }
}

impl Direct {
    pub fn count(self) -> u64
        ensures { result ≡ self.0 }
    {
        self.0
    }
}

#[derive(Clone, Copy)]
pub struct Value {
    pub revisits: Revisits,
    pub splits: Splits,
    pub direct: Direct,
    pub cost: u64,
}

// The numbers beside a refusal.
pub fn zero_value() -> Value
    ensures { outcome_of result ≡ no_outcome }
{
    Value {
        revisits: Revisits(0),
        splits: Splits(0),
        direct: Direct(0),
        cost: 0,
    }
}

// Stays: `boxes`, `width`, `row` and `n` are parameters of their own, since those of `count_revisits`, `count_splits`, `count_direct`,
// `boxes_outside` and `value_slots` may not change.

// Whether train j supplies train i and has a later slot.
#[tactic(auto, unfolding(model::specs::Model::late_supplier))]
fn is_late_supplier(boxes: &[u8], width: usize, row: &[u8], i: usize, j: usize) -> bool
    requires { GivenPair width boxes.now row.now i j }
    ensures { result ≡ late_supplier (cell width boxes.now) row.now i j }
{
    (0 < day::cell_at(boxes, width, i, j)) & (row[i] < row[j])
}

// Whether train i revisits: some supplier has a later slot.
fn is_revisiting(boxes: &[u8], width: usize, row: &[u8], n: usize, i: usize) -> bool
    requires { Given n width boxes.now row.now × (i < n) }
    ensures { result ≡ revisiting n (cell width boxes.now) row.now i }
{
    (0..n).any(|j| is_late_supplier(boxes, width, row, i, j))
}

pub fn count_revisits(boxes: &[u8], width: usize, row: &[u8], n: usize) -> Revisits
    requires { Given n width boxes.now row.now }
    ensures { (result.0 ≡ revisits n (cell width boxes.now) row.now) × (result.0 ≤ 64) }
{
    let revisiting = (0..n).filter(|&i| is_revisiting(boxes, width, row, n, i));
    Revisits(revisiting.count() as u64)
}

// The boxes that train i receives from train j, where j is not in slot t.
#[tactic(auto, unfolding(model::specs::Model::outside_boxes))]
fn outside_boxes(boxes: &[u8], width: usize, row: &[u8], t: u8, i: usize, j: usize) -> u64
    requires { GivenPair width boxes.now row.now i j }
    ensures { (result ≡ outside_boxes (cell width boxes.now) row.now t i j) × (result ≤ 255) }
{
    if t == row[j] {
        0
    } else {
        u64::from(day::cell_at(boxes, width, i, j))
    }
}

// The boxes that train i receives from outside slot t.
pub fn boxes_outside(boxes: &[u8], width: usize, row: &[u8], n: usize, t: u8, i: usize) -> u64
    requires { Given n width boxes.now row.now × (i < n) }
    ensures { (result ≡ sum n (outside_boxes (cell width boxes.now) row.now t i)) × (result ≤ 16320) }
{
    (0..n)
        .map(|j| outside_boxes(boxes, width, row, t, i, j))
        .sum()
}

pub fn count_splits(boxes: &[u8], width: usize, row: &[u8], n: usize) -> Splits
    requires { Given n width boxes.now row.now }
    ensures { (result.0 ≡ splits n (cell width boxes.now) row.now) × (result.0 ≤ 1044480) }
{
    Splits(
        (0..n)
            .map(|i| boxes_outside(boxes, width, row, n, row[i], i))
            .sum(),
    )
}

// The boxes that train i receives from train j, where they are in the same slot.
#[tactic(auto, unfolding(model::specs::Model::direct_boxes))]
fn direct_boxes(boxes: &[u8], width: usize, row: &[u8], i: usize, j: usize) -> u64
    requires { GivenPair width boxes.now row.now i j }
    ensures { (result ≡ direct_boxes (cell width boxes.now) row.now i j) × (result ≤ 255) }
{
    if row[i] == row[j] {
        u64::from(day::cell_at(boxes, width, i, j))
    } else {
        0
    }
}

// The boxes that train i receives from trains of its own slot.
fn direct_to(boxes: &[u8], width: usize, row: &[u8], n: usize, i: usize) -> u64
    requires { Given n width boxes.now row.now × (i < n) }
    ensures { (result ≡ direct_to n (cell width boxes.now) row.now i) × (result ≤ 16320) }
{
    (0..n).map(|j| direct_boxes(boxes, width, row, i, j)).sum()
}

pub fn count_direct(boxes: &[u8], width: usize, row: &[u8], n: usize) -> Direct
    requires { Given n width boxes.now row.now }
    ensures { result.0 ≡ direct n (cell width boxes.now) row.now }
{
    Direct((0..n).map(|i| direct_to(boxes, width, row, n, i)).sum())
}

// The cost, equation (1).
#[tactic(auto, unfolding(model::specs::Model::weighed))]
fn weigh(revisit: u32, split: u32, revisits: Revisits, splits: Splits) -> u64
    requires { (revisits.0 ≤ 64) × (splits.0 ≤ 1044480) }
    ensures { result ≡ weighed revisit split revisits.0 splits.0 }
{
    u64::from(revisit) * revisits.0 + u64::from(split) * splits.0
}

// The trains of slot t as one mask (01: the set number of the slot).
pub fn slot_mask(row: &[u8], n: usize, t: u8) -> u64
    requires { (n ≤ 64) × (n ≤ length row.now) }
    ensures { result ≡ slot_mask n row.now t }
{
    let mut mask: u64 = 0;
    for (i, &slot) in row[..n].iter().enumerate() {
        if slot == t {
            mask |= 1 << i;
        }
    }
    mask
}

// The four numbers of a row.
pub fn value_slots(
    boxes: &[u8],
    width: usize,
    row: &[u8],
    n: usize,
    revisit: u32,
    split: u32,
) -> Value
    requires { Given n width boxes.now row.now }
    ensures { outcome_of result ≡ row_outcome revisit split n (cell width boxes.now) row.now }
{
    let revisits = count_revisits(boxes, width, row, n);
    let splits = count_splits(boxes, width, row, n);
    Value {
        revisits,
        splits,
        direct: count_direct(boxes, width, row, n),
        cost: weigh(revisit, split, revisits, splits),
    }
}
