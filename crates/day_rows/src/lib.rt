// The lines of a day file (documents 01 and 02), one at a time: a names line, and each kind of row with its conditions.
//
// Proved: each function answers what dayfile's Reading.antt says of the line at its place. Each takes the good answer of the line reader
// apart, asks the conditions of the row in their order, and else hands the refusal up. Assumes nothing.
#![tactic(auto)]

ghost use Rattle.std.specs.Prelude.{◌≡◌, ◌==◌, [], ◌∷◌, ◌≤◌, length, drop, position};
ghost use Rattle.dayfile.specs.Reading.{head_checks, train_checks, move_checks, moves_end, read_names, read_row};
ghost use Rattle.day_rows.specs.Steps.{BothLocated, ReadsHead, ReadsTrain, ReadsMove, move_due, NamesTo};
ghost use Rattle.day_rows.specs.Members.{ReadsGroup};

use day::{Head, Limits, Refusal};
use lines::{Due, Line};

// A place of a text, and the number of the line that begins there.
#[derive(Clone, Copy, Debug, PartialEq, Eq)]
pub struct Place {
    pub at: usize,
    pub line: usize,
}

// The row of the first section, and the place after it.
#[derive(Clone, Copy, Debug, PartialEq, Eq)]
pub struct HeadRow {
    pub head: Head,
    pub next: usize,
}

// A train's row: its number, the first and the last slot of its window, and the place after it.
#[derive(Clone, Copy, Debug, PartialEq, Eq)]
pub struct TrainRow {
    pub number: u32,
    pub first: u32,
    pub last: u32,
    pub next: usize,
}

// A move's row: its boxes go to one train from another, which stand at the positions i and j; and the place after it.
#[derive(Clone, Copy, Debug, PartialEq, Eq)]
pub struct MoveRow {
    pub to: u32,
    pub from: u32,
    pub boxes: u32,
    pub i: usize,
    pub j: usize,
    pub next: usize,
}

// A row of a group: the group and its train, which stands at the position i, and the place after it.
#[derive(Clone, Copy, Debug, PartialEq, Eq)]
pub struct GroupRow {
    pub group: u32,
    pub train: u32,
    pub i: usize,
    pub next: usize,
}

// The position, counted from 0, of a train number among those listed, or None where it is not there.
pub fn position_of(numbers: &[u32], x: u32) -> Option<usize>
    ensures { result ≡ position (λ number. number == x) numbers.now }
{
    numbers.iter().position(|&number| number == x)
}

// The positions of the two trains of a move, or None where one is not listed, or they are one.
fn positions_of(numbers: &[u32], to: u32, from: u32) -> Option<(usize, usize)>
    ensures { BothLocated numbers.now to from result }
{
    let i = position_of(numbers, to)?;
    let j = position_of(numbers, from)?;
    if to == from {
        return None;
    }
    Some((i, j))
}

// Reads the row of the first section: its form, then its limits (3).
// Stays: limits and text are two parameters, here, below and in the sections above, and no struct that lends the text: a contract would
// name each by `file.entry.limits` and `file.entry.text.now`.
pub fn read_head_row(l: Limits, text: &[u8], at: usize) -> Result<HeadRow, Refusal>
    ensures { ReadsHead text.now (read_row 4 2 (head_checks l) (drop at text.now)) result }
{
    let Line::Row {
        a: trains,
        b: tracks,
        c: slots,
        d: revisit,
        e: split,
        next,
    } = lines::read_line(text, at, 2, Due::RowOfFive, b"")?
    else {
        unreachable!()
    };
    if !day::head_within(
        l,
        trains as u64,
        tracks as u64,
        slots as u64,
        revisit as u64,
        split as u64,
    ) {
        return Err(Refusal::OutOfLimits(2));
    }
    let head = Head {
        trains: trains as usize,
        tracks,
        slots: slots as u8,
        revisit,
        split,
    };
    Ok(HeadRow { head, next })
}

// Reads a train's row: its form, then its limits (3), then 4 and 5. `before` is the train number of the row before, 0 at the first.
pub fn read_train(
    l: Limits,
    text: &[u8],
    place: Place,
    slots: u32,
    before: u32,
) -> Result<TrainRow, Refusal>
    ensures { ReadsTrain text.now (read_row 2 place.line (train_checks l slots before place.line) (drop place.at text.now)) result }
{
    let Line::Row {
        a: number,
        b: first,
        c: last,
        next,
        ..
    } = lines::read_line(text, place.at, place.line, Due::RowOfThree, b"")?
    else {
        unreachable!()
    };
    if !day::train_within(l, slots as u64, number as u64, first as u64, last as u64) {
        return Err(Refusal::OutOfLimits(place.line));
    }
    if number <= before {
        return Err(Refusal::NumberOrder(place.line));
    }
    if last < first {
        return Err(Refusal::WindowOrder(place.line));
    }
    Ok(TrainRow {
        number,
        first,
        last,
        next,
    })
}

// What is due where a move may stand: where the limits have groups, their names line ends the moves, as the end of the text does.
fn move_due(l: Limits) -> Due
    ensures { result ≡ move_due l }
{
    if 0 < l.groups {
        Due::RowNamesOrEnd
    } else {
        Due::RowOrEnd
    }
}

// Reads a move's row: its form, then its limits (3), then 6 and 7; None where the moves end. `numbers` has the trains listed, `before` the
// two trains of the row before, zeros at the first.
pub fn read_move(
    l: Limits,
    text: &[u8],
    place: Place,
    numbers: &[u32],
    before: (u32, u32),
) -> Result<Option<MoveRow>, Refusal>
    ensures { ReadsMove numbers.now (moves_end l (drop place.at text.now)) text.now (read_row 2 place.line (move_checks l numbers.now (before.0 ∷ before.1 ∷ 0 ∷ []) place.line) (drop place.at text.now)) result }
{
    let Line::Row {
        a: to,
        b: from,
        c: boxes,
        next,
        ..
    } = lines::read_line(
        text,
        place.at,
        place.line,
        move_due(l),
        &dayfile::GROUP_NAMES,
    )?
    else {
        return Ok(None);
    };
    if !day::move_within(l, to as u64, from as u64, boxes as u64) {
        return Err(Refusal::OutOfLimits(place.line));
    }
    let Some((i, j)) = positions_of(numbers, to, from) else {
        return Err(Refusal::UnknownTrain(place.line));
    };
    if !(before < (to, from)) {
        return Err(Refusal::PairOrder(place.line));
    }
    Ok(Some(MoveRow {
        to,
        from,
        boxes,
        i,
        j,
        next,
    }))
}

// Reads a row of a group: its form, then its limits (3), then 15, which the train gets that is unlisted or in a group already and a pair
// out of order; None where the text ends. `numbers` has the trains listed, `groups` their groups so far, 0 where there is none, `before`
// the group and the train of the row before, zeros at the first.
pub fn read_group(
    l: Limits,
    text: &[u8],
    place: Place,
    numbers: &[u32],
    groups: &[u8],
    before: (u32, u32),
) -> Result<Option<GroupRow>, Refusal>
    requires { length numbers.now ≤ length groups.now }
    ensures { ReadsGroup l numbers.now groups.now (before.0 ∷ before.1 ∷ []) place.line text.now (drop place.at text.now) result }
{
    let Line::Row {
        a: group,
        b: train,
        next,
        ..
    } = lines::read_line(text, place.at, place.line, Due::PairOrEnd, b"")?
    else {
        return Ok(None);
    };
    if !day::group_within(l, group as u64, train as u64) {
        return Err(Refusal::OutOfLimits(place.line));
    }
    let Some(i) = position_of(numbers, train) else {
        return Err(Refusal::GroupRow(place.line));
    };
    let is_free = groups[i] == 0;
    let is_later = before < (group, train);
    if !(is_free & is_later) {
        return Err(Refusal::GroupRow(place.line));
    }
    Ok(Some(GroupRow {
        group,
        train,
        i,
        next,
    }))
}

// Reads a names line: the place after it.
pub fn read_names(text: &[u8], at: usize, line: usize, word: &[u8]) -> Result<usize, Refusal>
    ensures { NamesTo text.now (read_names word.now line (drop at text.now)) result }
{
    let Line::Names { next } = lines::read_line(text, at, line, Due::NamesLine, word)? else {
        unreachable!()
    };
    Ok(next)
}
