// Wagon sets (order 4 of document 02): trains of one group, which share one slot in a plan.
//
// Proved: `first_parted` is the lowest group that a row parts, as the model's Model.antt says. Over slices, so that records of other sizes
// use it too. Assumes nothing.
#![tactic(auto)]

ghost use Rattle.std.specs.Prelude.{◌≡◌, ◌≤◌, ◌<◌, length};
ghost use Rattle.fold.specs.Fold.{some, lowest};
ghost use Rattle.model.specs.Model.{apart, parted};
ghost use Rattle.wagon_sets.specs.Laws.{parts};

// Whether i and j are members of one group and have different slots.
fn is_apart(groups: &[u8], row: &[u8], i: usize, j: usize) -> bool
    requires { (i < length groups.now) × ((j < length groups.now) × ((i < length row.now) × (j < length row.now))) }
    ensures { result ≡ apart groups.now row.now i j }
{
    (0 < groups[i]) & (groups[i] == groups[j]) & (row[i] != row[j])
}

// Whether another member of the group of position i has another slot.
fn leaves_member(groups: &[u8], row: &[u8], n: usize, i: usize) -> bool
    requires { (i < n) × ((n ≤ length groups.now) × (n ≤ length row.now)) }
    ensures { result ≡ some n (apart groups.now row.now i) }
{
    (0..n).any(|j| is_apart(groups, row, i, j))
}

// Whether group g is parted.
fn is_parted(groups: &[u8], row: &[u8], n: usize, g: u8) -> bool
    requires { (n ≤ length groups.now) × (n ≤ length row.now) }
    ensures { result ≡ parted n groups.now row.now g }
{
    (0..n).any(|i| (groups[i] == g) & leaves_member(groups, row, n, i))
}

// The lowest of the groups 1 to `most` that the row parts, counted from 0, or `most`.
pub fn first_parted(groups: &[u8], row: &[u8], n: usize, most: u8) -> u8
    requires { (n ≤ length groups.now) × (n ≤ length row.now) }
    ensures { result ≡ lowest most (parts n groups.now row.now) }
{
    (0..most)
        .find(|&g| is_parted(groups, row, n, g + 1))
        .unwrap_or(most)
}
