// The lines of a file: one reader for names lines, rows of values and the end of the text.
//
// Proved: `read_line` answers what `found` of specs/Reader.antt finds at the place. Assumes nothing.
#![tactic(auto)]

ghost use Rattle.std.specs.Prelude.{◌≡◌, ◌-◌, ◌≤◌, length, drop};
ghost use Rattle.decimal.specs.Place.{Answers as Read};
ghost use Rattle.lines.specs.Lines.{names, field, row};
ghost use Rattle.lines.specs.Reader.{found, NamesTo, RowTo, Answers};

use day::Refusal;
use decimal::Field;

// What the caller is due to find: a names line, a row of three or of five values, or where rows may end, a row of three or the end, the
// same or a names line, a row of two or the end.
#[derive(Clone, Copy, Debug, PartialEq, Eq)]
pub enum Due {
    NamesLine,
    RowOfThree,
    RowOfFive,
    RowOrEnd,
    RowNamesOrEnd,
    PairOrEnd,
}

// What was found: the kind of the line, its fields and the place after it. A row has two, three or five fields; the others are 0.
#[derive(Clone, Copy, Debug, PartialEq, Eq)]
pub enum Line {
    Names {
        next: usize,
    },
    Row {
        a: u32,
        b: u32,
        c: u32,
        d: u32,
        e: u32,
        next: usize,
    },
    End,
}

// The place after the names line `word`, where that stands at a place.
fn read_names(text: &[u8], at: usize, word: &[u8]) -> Option<usize>
    ensures { NamesTo text.now (names word.now (drop at text.now)) result }
{
    let at = at.min(text.len());
    text[at..].starts_with(word).then_some(at + word.len())
}

// Reads a value and the byte that ends it.
fn read_field(text: &[u8], at: usize, end: u8) -> Option<Field>
    ensures { Read text.now (field end (drop at text.now)) result }
{
    let Field { value, next } = decimal::read_value(text, at)?;
    if *text.get(next)? != end {
        return None;
    }
    Some(Field {
        value,
        next: next + 1,
    })
}

// Reads a row of N values, each ended by a space, the last by the end of the line.
fn read_row<const N: usize>(text: &[u8], at: usize) -> Option<Line>
    requires { (1 ≤ N) × (N ≤ 5) }
    ensures { RowTo text.now (row (N - 1) (drop at text.now)) result }
{
    let mut fields: [u32; 5] = [0; 5];
    let mut next = at;
    for i in 0..N {
        let end = if i + 1 == N { b'\n' } else { b' ' };
        let field = read_field(text, next, end)?;
        fields[i] = field.value;
        next = field.next;
    }
    let [a, b, c, d, e] = fields;
    Some(Line::Row {
        a,
        b,
        c,
        d,
        e,
        next,
    })
}

// Reads the line at a place. `word` is the names line that is due or that may end the rows, `line` the number of the line. Where a
// names line may end the rows and none is there, a row is due: it is the row's form that is refused.
pub fn read_line(
    text: &[u8],
    at: usize,
    line: usize,
    due: Due,
    word: &[u8],
) -> Result<Line, Refusal>
    ensures { Answers text.now (found due word.now line (drop at text.now)) result }
{
    match due {
        Due::NamesLine => match read_names(text, at, word) {
            Some(next) => Ok(Line::Names { next }),
            None => Err(Refusal::NamesLine(line)),
        },
        Due::RowOfThree => read_row::<3>(text, at).ok_or(Refusal::RowForm(line)),
        Due::RowOfFive => read_row::<5>(text, at).ok_or(Refusal::RowForm(line)),
        _ if text.len() <= at => Ok(Line::End),
        Due::RowOrEnd => read_row::<3>(text, at).ok_or(Refusal::RowForm(line)),
        Due::RowNamesOrEnd => match read_names(text, at, word) {
            Some(next) => Ok(Line::Names { next }),
            None => read_row::<3>(text, at).ok_or(Refusal::RowForm(line)),
        },
        Due::PairOrEnd => read_row::<2>(text, at).ok_or(Refusal::RowForm(line)),
    }
}
