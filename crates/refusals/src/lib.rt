// Refusals in the numbers of documents 01 and 02.
//
// Proved: `Numbered::from` gives a refusal's number and what it carries, as day's Answer.antt says, `number_of` the number of a verdict.
// Assumes nothing.
#![tactic(auto)]

ghost use Rattle.std.specs.Prelude.{◌≡◌, [], ◌∷◌};
ghost use Rattle.day.specs.Answer.{number, carried};
ghost use Rattle.refusals.specs.Numbers.{Tells, verdict_number};

use day::Refusal;

// A refusal in the numbers of documents 01 and 02: its own, and the values that it carries, 0 where there are fewer than three.
#[derive(Clone, Copy)]
pub struct Numbered {
    pub number: u64,
    pub first: u64,
    pub second: u64,
    pub third: u64,
}

// A refusal that carries one value.
fn carrying(number: u64, value: usize) -> Numbered
    ensures { Tells number (value ∷ []) result }
{
    Numbered {
        number,
        first: value as u64,
        second: 0,
        third: 0,
    }
}

// Refusal 9, which carries an interval and the trains bound inside.
fn interval(first: u8, last: u8, trains: usize) -> Numbered
    ensures { Tells 9 (first ∷ last ∷ trains ∷ []) result }
{
    Numbered {
        number: 9,
        first: first as u64,
        second: last as u64,
        third: trains as u64,
    }
}

// A refusal's number and the values that it carries.
impl From<Refusal> for Numbered {
    ghost from_gives = { λ refusal told. Tells (number refusal) (carried refusal) told };

    fn from(refusal: Refusal) -> Numbered {
        match refusal {
            Refusal::NamesLine(line) => carrying(1, line),
            Refusal::RowForm(line) => carrying(2, line),
            Refusal::OutOfLimits(line) => carrying(3, line),
            Refusal::NumberOrder(line) => carrying(4, line),
            Refusal::WindowOrder(line) => carrying(5, line),
            Refusal::UnknownTrain(line) => carrying(6, line),
            Refusal::PairOrder(line) => carrying(7, line),
            Refusal::Unsound => carrying(8, 0),
            Refusal::Overbooked {
                first,
                last,
                trains,
            } => interval(first, last, trains),
            Refusal::TooShort => carrying(10, 0),
            Refusal::RowLength => carrying(11, 0),
            Refusal::OutsideWindow(position) => carrying(12, position),
            Refusal::SlotOverfull(slot) => carrying(13, slot as usize),
            Refusal::WithoutSlot(position) => carrying(14, position),
            Refusal::GroupRow(line) => carrying(15, line),
            Refusal::NoAllowedRow => carrying(16, 0),
            Refusal::GroupParted(group) => carrying(17, group as usize),
            Refusal::TrainUnavailable => carrying(18, 0),
            Refusal::TrainNotAddable => carrying(19, 0),
            Refusal::NoOpenSlot => carrying(20, 0),
            Refusal::WidthOutOfRange => carrying(21, 0),
            Refusal::TooManyDays => carrying(22, 0),
            Refusal::CalendarOutOfRange => carrying(23, 0),
            Refusal::NoWindow => carrying(24, 0),
        }
    }
}

// The number of a verdict, 0 where it is accepted.
pub fn number_of(verdict: Result<(), Refusal>) -> u64
    ensures { result ≡ verdict_number verdict }
{
    match verdict {
        Ok(()) => 0,
        Err(refusal) => Numbered::from(refusal).number,
    }
}
