// The row read back from the choices that solving leaves.
//
// Proved: `trace` writes the row that the choices give, as optimum's `row_in` says, and no byte behind it. Over slices, for up to 12 trains
// and 8 slots. Assumes nothing.
#![tactic(auto)]

ghost use Rattle.std.specs.Prelude.{◌≡◌, ◌*◌, ◌^◌, ◌≤◌, length, take, drop};
ghost use Rattle.optimum.specs.Chosen.{row_in, Leads};

// The row that the choices give, in the first n bytes of `row`: slot by slot, the trains of the set chosen for what remains. The bytes
// behind stay as they were.
pub fn trace(choice: &[u16], row: &mut [u8], n: usize, slots: usize, size: usize)
    requires { (size ≡ 2 ^ n) × (n ≤ 12) × (slots ≤ 8) × (n ≤ length row.old) × (slots * size ≤ length choice.now) × Leads choice.now n slots size (row_in choice.now n slots size) }
    ensures { (take n row.new ≡ row_in choice.now n slots size) × (drop n row.new ≡ drop n row.old) }
{
    let mut r = size - 1;
    for j in 0..slots {
        let s = choice[j * size + r] as usize;
        for p in 0..n {
            if (s >> p) & 1 == 1 {
                row[p] = (j + 1) as u8;
            }
        }
        r -= s;
    }
}
