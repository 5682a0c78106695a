// Values in decimal, read and written at a place of a text.
//
// Proved: `read_value` answers what `value` of specs/Decimal.antt reads there; `put_value` stores `digits` of the value and nothing
// else. Assumes nothing.
#![tactic(auto)]

ghost use Rattle.std.specs.Prelude.{◌≡◌, ◌+◌, ◌-◌, ◌≤◌, length, drop};
ghost use Rattle.decimal.specs.Decimal.{grows, value, digits};
ghost use Rattle.decimal.specs.Place.{Answers, Put};

// A value that was read, and the place after it.
#[derive(Clone, Copy, Debug, PartialEq, Eq)]
pub struct Field {
    pub value: u32,
    pub next: usize,
}

// The value of a digit.
fn digit_value(c: u8) -> u32
    requires { (48 ≤ c) × (c ≤ 57) }
    ensures { (result ≡ c - 48) × (result ≤ 9) }
{
    u32::from(c - b'0')
}

// Whether a value may take one more digit: it is not 0, and has at most four.
fn grows(value: u32) -> bool
    ensures { result ≡ grows value }
{
    (1..=9999).contains(&value)
}

// Reads the value at a place, or None where there is none.
#[tactic(auto, using(crate::specs::PlaceLaws::value_end, crate::specs::PlaceLaws::value_other))]
pub fn read_value(text: &[u8], at: usize) -> Option<Field>
    ensures { Answers text.now (value (drop at text.now)) result }
{
    let first = *text.get(at)?;
    if !first.is_ascii_digit() {
        return None;
    }
    let mut value = digit_value(first);
    let start = at + 1;
    for (i, &c) in text[start..].iter().enumerate() {
        if !c.is_ascii_digit() {
            return Some(Field {
                value,
                next: start + i,
            });
        }
        if !grows(value) {
            return None;
        }
        value = value * 10 + digit_value(c);
    }
    Some(Field {
        value,
        next: text.len(),
    })
}

// Writes v from a place on, and gives the place after it.
pub fn put_value(out: &mut [u8], at: usize, v: u64) -> usize
    requires { at + length (digits v) ≤ length out.old }
    ensures { Put out.old out.new at result (digits v) }
{
    if v < 10 {
        out[at] = b'0' + v as u8;
        return at + 1;
    }
    let p = put_value(out, at, v / 10);
    out[p] = b'0' + (v % 10) as u8;
    p + 1
}
