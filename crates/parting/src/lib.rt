// The parting of a text into days (document 02, order 10): where the next empty line is, and whether a text has more days than so many.
//
// Proved: what lies up to the next empty line is the first day of the rest of the text, for every text and place; `has_at_most` compares the
// number of days of specs/Parting.antt. proofs/Laws.antt and Accepted.antt: the number of days, and that joined day files come back.
// Assumes nothing.
#![tactic(auto)]

ghost use Rattle.std.specs.Prelude.{◌≡◌, ◌≤◌, leb, length};
ghost use Rattle.parting.specs.Parting.{days};
ghost use Rattle.parting.specs.Walk.{NextEmpty};

// The place of the next empty line from `at`, where a line begins; the length of the text where there is none.
pub fn next_empty(text: &[u8], at: usize) -> usize
    requires { at ≤ length text.now }
    ensures { NextEmpty text.now at result }
{
    let mut start = true;
    for (i, &byte) in text[at..].iter().enumerate() {
        let ends = byte == b'\n';
        if start & ends {
            return at + i;
        }
        start = ends;
    }
    text.len()
}

// Whether a text has at most `most` days. It stops at the first day too many.
pub fn has_at_most(text: &[u8], most: usize) -> bool
    ensures { result ≡ leb (length (days text.now)) most }
{
    if text.is_empty() {
        return true;
    }
    let mut at = 0;
    for _day in 0..most {
        let end = next_empty(text, at);
        if text.len() <= end {
            return true;
        }
        at = end + 1;
    }
    false
}
