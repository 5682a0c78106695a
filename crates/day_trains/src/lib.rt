// The first two sections of a day file (document 01), the row of the first and the trains, read into columns that the caller lends.
//
// Proved: each function answers and leaves what dayfile's Reading.antt says of the section at its place, for any limits. Each takes the
// good answer of a line apart, else hands the refusal up. Assumes nothing.
#![tactic(auto)]

ghost use Rattle.std.specs.Prelude.{◌≤◌, ◌+◌, length, drop};
ghost use Rattle.dayfile.specs.Reading.{read_trains, head_section, train_section};
ghost use Rattle.day_rows.specs.Steps.{ReadsHead};
ghost use Rattle.day_trains.specs.Trains.{TrainsTo};

use day::{Limits, Refusal};
use day_rows::{HeadRow, Place};

// Reads the first section.
pub fn read_head(l: Limits, text: &[u8]) -> Result<HeadRow, Refusal>
    ensures { ReadsHead text.now (head_section l text.now) result }
{
    let next = day_rows::read_names(text, 0, 1, &dayfile::HEAD_NAMES)?;
    day_rows::read_head_row(l, text, next)
}

// Reads the rows of n trains into three columns, and gives the place after them.
fn read_train_rows(
    l: Limits,
    text: &[u8],
    at: usize,
    slots: u32,
    n: usize,
    numbers: &mut [u32],
    first: &mut [u8],
    last: &mut [u8],
) -> Result<usize, Refusal>
    requires { (at ≤ length text.now) × ((slots ≤ 255) × ((n ≤ length numbers.old) × ((n ≤ length first.old) × (n ≤ length last.old)))) }
    ensures { TrainsTo l slots n text.now (read_trains l slots n 0 4 (drop at text.now)) numbers.old first.old last.old numbers.new first.new last.new result }
{
    let mut p = at;
    let mut before = 0;
    for i in 0..n {
        let place = Place { at: p, line: 4 + i };
        let row = day_rows::read_train(l, text, place, slots, before)?;
        numbers[i] = row.number;
        first[i] = row.first as u8;
        last[i] = row.last as u8;
        before = row.number;
        p = row.next;
    }
    Ok(p)
}

// Reads the section of n trains, and gives the place after it.
pub fn read_trains(
    l: Limits,
    text: &[u8],
    at: usize,
    slots: u32,
    n: usize,
    numbers: &mut [u32],
    first: &mut [u8],
    last: &mut [u8],
) -> Result<usize, Refusal>
    requires { (slots ≤ 255) × ((n ≤ length numbers.old) × ((n ≤ length first.old) × (n ≤ length last.old))) }
    ensures { TrainsTo l slots n text.now (train_section l slots n (drop at text.now)) numbers.old first.old last.old numbers.new first.new last.new result }
{
    let next = day_rows::read_names(text, at, 3, &dayfile::TRAIN_NAMES)?;
    read_train_rows(l, text, next, slots, n, numbers, first, last)
}
