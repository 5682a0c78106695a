// Writing into lent output: names lines and rows of values at a place, and a whole text at the front of an output that is long enough.
//
// Proved: `put_bytes` and `put_row` store the text of their line and nothing else; `write_text` answers and leaves what specs/Output.antt says, for
// every text and every output. Assumes nothing.
#![tactic(auto)]

ghost use Rattle.std.specs.Prelude.{◌≡◌, [], ◌+◌, ◌≤◌, length};
ghost use Rattle.decimal.specs.Place.{Put};
ghost use Rattle.lines.specs.Lines.{field_text, row_text};
ghost use Rattle.output.specs.Output.{answer, writes, leaves};

use day::Refusal;

// Writes bytes from a place on, and gives the place after them.
pub fn put_bytes(out: &mut [u8], at: usize, word: &[u8]) -> usize
    requires { at + length word.now ≤ length out.old }
    ensures { Put out.old out.new at result word.now }
{
    let end = at + word.len();
    out[at..end].copy_from_slice(word);
    end
}

// Writes a value and the byte that ends it.
fn put_field(out: &mut [u8], at: usize, v: u64, end: u8) -> usize
    requires { at + length (field_text v end) ≤ length out.old }
    ensures { Put out.old out.new at result (field_text v end) }
{
    let p = decimal::put_value(out, at, v);
    out[p] = end;
    p + 1
}

// Writes a row of values, parted by spaces and ended by a line's end, and gives the place after it.
pub fn put_row(out: &mut [u8], at: usize, values: &[u64]) -> usize
    requires { at + length (row_text values.now) ≤ length out.old }
    ensures { Put out.old out.new at result (row_text values.now) }
{
    match values {
        [] => at,
        [last] => put_field(out, at, *last, b'\n'),
        [value, more @ ..] => {
            let next = put_field(out, at, *value, b' ');
            put_row(out, next, more)
        }
    }
}

// Writes a whole text to the front of the output, where it fits, and gives the count of its bytes; the bytes beyond stay. Else 10, and no
// byte changes.
pub fn write_text(text: &[u8], out: &mut [u8]) -> Result<usize, Refusal>
    ensures result_value { answer result ≡ writes [] text.now (length out.old) }
    ensures out_after { out.new ≡ leaves [] text.now out.old }
{
    if out.len() < text.len() {
        return Err(Refusal::TooShort);
    }
    put_bytes(out, 0, text);
    Ok(text.len())
}
