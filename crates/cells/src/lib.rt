// One cell of the table of stages: the best set to serve where some trains remain, from the day's tables over sets (document 01: the plan
// of least cost; order 5 of document 02: of equal costs the one that comes before). A value is a key: the cost, then the revisits, then the
// sum of slot numbers, in one word.
//
// Proved: each cell is optimum's, of the test and the contribution that the tables give. What a slot costs is summed in 32 bits, the cells'
// keys in 64. Over slices, for up to 12 trains and 8 slots. Assumes nothing.
#![tactic(auto)]

ghost use Rattle.std.specs.Prelude.{◌≡◌, true, ◌+◌, ◌^◌, ◌<◌, length};
ghost use Rattle.optimum.specs.Offers.{offer};
ghost use Rattle.optimum.specs.Workspace.{at};
ghost use Rattle.staging.specs.Tables.{no_cost, late_set};
ghost use Rattle.cells.specs.Lent.{lent};
ghost use Rattle.cells.specs.Given.{Given, Rests, cell_from, last_from};

// A cell of the table: the least key, and the set that is served for it.
// Stays: no Option. `staging::NONE` is a word of the lent table itself, which is read in the inner loop; an Option would be taken apart and put
// together again at each cell, and says no more.
#[derive(Clone, Copy)]
pub struct Pick {
    pub value: u64,
    pub set: u16,
}

// The day's tables, lent. Of each set: the trains with a supplier in it; what its revisits cost; what its split moves cost, or
// `staging::BARRED` where it may not be served; how many trains it has. Of slot j + 1, at j: the trains whose windows hold it.
#[derive(Clone, Copy)]
pub struct SetTables<'a> {
    pub need: &'a [u16],
    pub late: &'a [u32],
    pub price: &'a [u32],
    pub count: &'a [u8],
    pub opens: &'a [usize],
}

impl SetTables<'_> {
    // The trains of s that revisit where `rest` remains: those with a supplier in it.
    fn late_set(&self, rest: usize, s: usize) -> usize
        requires { (rest < 4096) × (rest < length self.now.need.now) }
        ensures { result ≡ late_set self.now.need.now rest s }
    {
        s & (self.need[rest] as usize)
    }

    // What a slot costs in which the trains of `revisiting` revisit and the split moves cost `splits`: both weighed, summed in 32 bits (order 3
    // of document 02). On a sound day that fits: a slot costs no more than a row (`slot_in_row`, staging), and a row no more than
    // 2,206,694,520 (`cost-most`, day).
    fn slot_cost(&self, splits: u32, revisiting: usize) -> u32
        requires { (revisiting < 4096) × (revisiting < length self.now.late.now) × (at self.now.late.now revisiting + splits < 2 ^ 32) }
        ensures { result ≡ at self.now.late.now revisiting + splits }
    {
        self.late[revisiting] + splits
    }
}

// The least key with the trains that wait for the slot, which every set of the cell adds alike; none stays none.
fn with_waiting(least: u64, waiting: u8) -> u64
    requires { least < no_cost → least + waiting < no_cost }
    ensures { result ≡ offer no_cost true least waiting }
{
    if least < staging::NONE {
        return least + (waiting as u64);
    }
    staging::NONE
}

// The best set to serve in slot j + 1 where the set r of trains remains: its cost, its revisits, and the key of the rest after it, which
// `cost` holds. Only trains whose windows hold the slot are walked through, from the largest set down, so that of equal ones the largest
// stays. Revisits only add to a key, so they are counted only where the cost alone is less than what was found. No lent word changes.
pub fn cheapest(cost: &[u64], tables: &SetTables, j: usize, r: usize) -> Pick
    requires { Given (r + 1) (j + 1) (lent tables.now) × Rests (lent tables.now) cost.now j r }
    ensures { (result.value ≡ (cell_from (lent tables.now) cost.now j r).value) × (result.set ≡ (cell_from (lent tables.now) cost.now j r).set) }
{
    let ready = r & tables.opens[j];
    let mut least: u64 = staging::NONE;
    let mut chosen: u16 = 0;
    let mut s = ready;
    loop {
        let splits = tables.price[s];
        if splits < staging::BARRED {
            let rest = r - s;
            let after = cost[rest];
            if after < staging::NONE {
                let revisiting = tables.late_set(rest, s);
                let total = after
                    + (tables.slot_cost(splits, revisiting) as u64) * staging::COST_UNIT;
                if total < least {
                    let key = total + (tables.count[revisiting] as u64) * staging::REVISIT_UNIT;
                    if key < least {
                        least = key;
                        chosen = s as u16;
                    }
                }
            }
        }
        if s == 0 {
            return Pick {
                value: with_waiting(least, tables.count[r]),
                set: chosen,
            };
        }
        s = (s - 1) & ready;
    }
}

// The cell of the last slot, j + 1, where r remains: nothing may be left, so all of r is served, or nothing can be.
pub fn whole(tables: &SetTables, j: usize, r: usize) -> Pick
    requires { Given (r + 1) (j + 1) (lent tables.now) }
    ensures { (result.value ≡ (last_from (lent tables.now) j r).value) × (result.set ≡ (last_from (lent tables.now) j r).set) }
{
    let splits = tables.price[r];
    if (splits < staging::BARRED) & (r & tables.opens[j] == r) {
        let revisiting = tables.late_set(0, r);
        let total = (tables.slot_cost(splits, revisiting) as u64) * staging::COST_UNIT;
        let key = total + (tables.count[revisiting] as u64) * staging::REVISIT_UNIT;
        return Pick {
            value: key + (tables.count[r] as u64),
            set: r as u16,
        };
    }
    Pick {
        value: staging::NONE,
        set: 0,
    }
}
