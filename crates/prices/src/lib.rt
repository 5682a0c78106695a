// What the split moves of each set of trains cost: the boxes that its trains receive from outside it, weighed, or `staging::BARRED` where
// it has more trains than tracks.
//
// Proved: `fill_price` fills the first words of the lent slice with the entries of specs/Entries.antt, and leaves the words behind them as
// they were. The table has an entry for each set, so n is at most 12. Assumes nothing.
#![tactic(auto)]

ghost use Rattle.std.specs.Prelude.{◌≡◌, ℕ, ◌+◌, ◌*◌, ◌^◌, ◌≤◌, ◌<◌, length};
ghost use Rattle.model.specs.Cells.{InTable};
ghost use Rattle.optimum.specs.Workspace.{at};
ghost use Rattle.staging.specs.Tables.{from_outside};
ghost use Rattle.tables.specs.Given.{Given, boxes_of};
ghost use Rattle.tables.specs.Filled.{Filled, Added};
ghost use Rattle.prices.specs.Entries.{with_pair, price_of, split_cost};
ghost use Rattle.prices.specs.Filling.{Joinable, Bounded};

use tables::Supplies;

// The boxes that train k receives from other trains: the split moves of the set of k alone.
fn received_by(supplies: &Supplies, k: usize) -> u32
    requires { Given supplies.now × (k < supplies.now.trains) }
    ensures { (result ≡ from_outside supplies.now.trains (boxes_of supplies.now) (2 ^ k)) × (result ≤ 3060) }
{
    let mut total: u32 = 0;
    for j in 0..supplies.trains {
        total += u32::from(supplies.received(k, j));
    }
    total - u32::from(supplies.received(k, k))
}

// The boxes that the trains k and b receive from each other.
fn between(supplies: &Supplies, k: usize, b: usize) -> u32
    requires { InTable supplies.now.width supplies.now.boxes.now k b × InTable supplies.now.width supplies.now.boxes.now b k }
    ensures { result ≡ boxes_of supplies.now k b + boxes_of supplies.now b k }
{
    u32::from(supplies.received(k, b)) + u32::from(supplies.received(b, k))
}

// To the split moves of the sets with train k, the one of `size`, and no others but trains before b, the one of `below`, adds those of
// the same sets with b. The boxes that b and k receive from each other, `pair`, are split where one of the two is in the set, and not
// where both are.
fn join_pair(price: &mut [u32], size: usize, below: usize, pair: u32)
    requires { Joinable size below pair price.old }
    ensures { Added (with_pair price.old size below pair) (size + below) below price.old price.new }
{
    for m in 0..below {
        price[size + below + m] = (price[below + m] + price[size + m]) - (price[m] + pair);
    }
}

// To the split moves of the sets of the trains before k adds those of the same sets with train k: of k alone, then with each train before it.
fn add_train(price: &mut [u32], supplies: &Supplies, k: usize)
    requires { Given supplies.now × (k < supplies.now.trains) × (2 ^ (k + 1) ≤ length price.old) × Filled (from_outside supplies.now.trains (boxes_of supplies.now)) (2 ^ k) price.old price.old × Bounded supplies.now.trains (boxes_of supplies.now) k }
    ensures { Filled (from_outside supplies.now.trains (boxes_of supplies.now)) (2 ^ (k + 1)) price.old price.new × Bounded supplies.now.trains (boxes_of supplies.now) (k + 1) }
{
    let size = 1usize << k;
    price[size] = received_by(supplies, k);
    for b in 0..k {
        join_pair(price, size, 1usize << b, between(supplies, k, b));
    }
}

// The split moves of each set of the trains.
fn fill_outside(price: &mut [u32], supplies: &Supplies)
    requires { Given supplies.now × (2 ^ supplies.now.trains ≤ length price.old) }
    ensures { Filled (from_outside supplies.now.trains (boxes_of supplies.now)) (2 ^ supplies.now.trains) price.old price.new }
{
    price[0] = 0;
    for k in 0..supplies.trains {
        add_train(price, supplies, k);
    }
}

// What the split moves of s cost, or `staging::BARRED`.
fn price_of(moves: u32, s: usize, tracks: u32, split: u32) -> u32
    requires { split * moves < 2 ^ 32 }
    ensures { result ≡ price_of tracks split s moves }
{
    if usize::count_ones(s) <= tracks {
        return split * moves;
    }
    staging::BARRED
}

// Puts the price of each set for its split moves.
fn set_prices(price: &mut [u32], size: usize, tracks: u32, split: u32)
    requires { (size ≤ 4096) × (size ≤ length price.old) × ((s : ℕ) → s < size → split * at price.old s < 2 ^ 32) }
    ensures { Filled (λ s. price_of tracks split s (at price.old s)) size price.old price.new }
{
    for (s, word) in price[..size].iter_mut().enumerate() {
        *word = price_of(*word, s, tracks, split);
    }
}

pub fn fill_price(price: &mut [u32], supplies: &Supplies, size: usize, tracks: u32, split: u32)
    requires { Given supplies.now × (size ≡ 2 ^ supplies.now.trains) × (size ≤ length price.old) × ((s : ℕ) → s < size → split * from_outside supplies.now.trains (boxes_of supplies.now) s < 2 ^ 32) }
    ensures { Filled (split_cost supplies.now.trains (boxes_of supplies.now) tracks split) size price.old price.new }
{
    fill_outside(price, supplies);
    set_prices(price, size, tracks, split);
}
