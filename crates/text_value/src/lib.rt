// Checking a text, and valuing a row of slots for the day of a text, in numbers told to a caller.
//
// Proved: for every text, row and lent memory `check_text` and `value_text` return and leave what specs/TextValue.antt says. Assumes nothing.
#![tactic(auto)]

ghost use Rattle.std.specs.Prelude.{◌≡◌, length};
ghost use Rattle.day.specs.Answer.{code, answered, on_given};
ghost use Rattle.day.specs.Sound.{day_limits};
ghost use Rattle.counting.specs.Counting.{outcome_of};
ghost use Rattle.valuing.specs.Valuing.{valued};
ghost use Rattle.dayfile.specs.Reading.{read_day};
ghost use Rattle.telling.specs.Telling.{numbers_after};
ghost use Rattle.text_value.specs.TextValue.{line, value_text};

use counting::Value;
use day::Refusal;

// Whether a text is a day file: 0, or the number of the refusal and its line.
// Stays: it gives the number of a refusal, since it is the body of the C function `yard_check`.
#[tactic(auto, using(crate::specs::Laws::told_code, crate::specs::Laws::told_line))]
pub fn check_text(text: &[u8], at: &mut u64) -> u64
    ensures value { result ≡ code (read_day day_limits text.now) }
    ensures at_after { at.new ≡ line (read_day day_limits text.now) }
{
    telling::tell_line(at, dayread::read_day(text).verdict)
}

// The numbers of a row of slots on the day of a text.
fn value_on(text: &[u8], row: &[u8]) -> Result<Value, Refusal>
    ensures { answered outcome_of result ≡ on_given (read_day day_limits text.now) (λ y. valued day_limits y row.now) }
{
    let day = dayread::read_record(text)?;
    valuing::value_assignment(day, row)
}

// Values a row of slots on the day of a text: 0 with revisits, split moves, direct moves and cost in the first four numbers; or the number
// of the refusal with what it carries there, zeros behind it. 10 where there is no room for four numbers, and then none changes.
// Stays: it gives the number of a refusal, since it is the body of the C function `yard_value`.
pub fn value_text(text: &[u8], row: &[u8], numbers: &mut [u64]) -> u64
    ensures value { result ≡ code (value_text day_limits text.now row.now (length numbers.old)) }
    ensures numbers_after { numbers.new ≡ numbers_after (value_text day_limits text.now row.now (length numbers.old)) numbers.old }
{
    if !telling::is_room(numbers.len()) {
        return 10;
    }
    telling::tell_valued(numbers, value_on(text, row))
}
