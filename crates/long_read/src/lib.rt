// Reading the file of a long day (order 9 of document 02): the long day, or the refusal 1 to 7 with its line beside a record of zeros.
//
// Proved: for every text `read_long_day` answers what `read_day` of dayfile's Reading.antt says at the limits of long days, beside the day
// or zeros. It is dayread's `read_file`; the column of groups that this fills stays zeros. Assumes nothing.
#![tactic(auto)]

ghost use Rattle.std.specs.Prelude.{◌≡◌};
ghost use Rattle.day.specs.Answer.{answered, judged};
ghost use Rattle.dayfile.specs.Reading.{read_day};
ghost use Rattle.dayfile.specs.Calls.{day_or_zero};
ghost use Rattle.long_day.specs.LongDay.{long_limits, long_yard};

use day::Refusal;
use long_day::LongDay;

// What reading answers: the day, or a refusal 1 to 7 beside a record of zeros.
// Stays: a struct, for `read_long_day` promises a record of zeros beside a refusal (the second fact of its contract).
#[derive(Clone, Copy)]
pub struct LongReading {
    pub verdict: Result<(), Refusal>,
    pub day: LongDay,
}

// Reads the file of a long day into a record.
pub fn read_long_record(text: &[u8]) -> Result<LongDay, Refusal>
    ensures { answered long_yard result ≡ read_day long_limits text.now }
{
    let mut day = long_day::zero_long_day();
    let mut groups: [u8; 36] = [0; 36];
    let head = dayread::read_file(
        long_day::long_limits(),
        text,
        &mut day.numbers,
        &mut day.first,
        &mut day.last,
        &mut groups,
        &mut day.boxes,
    )?;
    Ok(LongDay {
        trains: head.trains,
        tracks: head.tracks,
        slots: head.slots,
        revisit: head.revisit,
        split: head.split,
        ..day
    })
}

// Reads the file of a long day.
pub fn read_long_day(text: &[u8]) -> LongReading
    ensures { (judged result.verdict (long_yard result.day) ≡ read_day long_limits text.now) × (long_yard result.day ≡ day_or_zero long_limits (read_day long_limits text.now)) }
{
    match read_long_record(text) {
        Ok(day) => LongReading {
            verdict: Ok(()),
            day,
        },
        Err(refusal) => LongReading {
            verdict: Err(refusal),
            day: long_day::zero_long_day(),
        },
    }
}
