// Wagon sets (order 4 of document 02) in the table of prices: a set of trains that parts a group is barred, as one with more trains than
// tracks is, so that the inner loop passes it over at one load.
//
// Proved: `bar_groups` bars just these sets and leaves the other prices, and the words behind them. A train in no group costs nothing.
// Assumes nothing.
#![tactic(auto)]

ghost use Rattle.std.specs.Prelude.{◌≡◌, cond, ◌^◌, ◌≤◌, ◌<◌, length};
ghost use Rattle.optimum.specs.Workspace.{at};
ghost use Rattle.staging.specs.Tables.{together, barred};
ghost use Rattle.tables.specs.Filled.{Filled};
ghost use Rattle.barring.specs.Laws.{members, undivided};

// The trains in the group of position i.
fn members_of(groups: &[u8], n: usize, i: usize) -> usize
    requires { (n ≤ 12) × ((n ≤ length groups.now) × (i < n)) }
    ensures { result ≡ members n groups.now i }
{
    let mut mask: usize = 0;
    for j in 0..n {
        if (0 < groups[i]) & (groups[i] == groups[j]) {
            mask = mask | (1usize << j);
        }
    }
    mask
}

// The price of s, or `staging::BARRED` where s has some members of a group and not all.
fn price_whole(price: u32, s: usize, members: usize) -> u32
    ensures { result ≡ cond (undivided members s) price barred }
{
    if (s & members == 0) | (s & members == members) {
        return price;
    }
    staging::BARRED
}

// Bars the sets that part a group, of which the members are given.
fn bar_parted(price: &mut [u32], size: usize, members: usize)
    requires { (size ≤ 4096) × (size ≤ length price.old) }
    ensures { Filled (λ s. cond (undivided members s) (at price.old s) barred) size price.old price.new }
{
    for (s, word) in price[..size].iter_mut().enumerate() {
        *word = price_whole(*word, s, members);
    }
}

// Bars the sets of the n trains that part a group.
pub fn bar_groups(price: &mut [u32], groups: &[u8], n: usize, size: usize)
    requires { (n ≤ 12) × ((n ≤ length groups.now) × ((size ≡ 2 ^ n) × ((size ≤ 4096) × (size ≤ length price.old)))) }
    ensures { Filled (λ s. cond (together n groups.now s) (at price.old s) barred) size price.old price.new }
{
    for (i, group) in groups[..n].iter().enumerate() {
        if *group != 0 {
            bar_parted(price, size, members_of(groups, n, i));
        }
    }
}
