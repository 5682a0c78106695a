// The two lines of a refusal as yard-plan prints them (document 01, "The program").
//
// Proved: `put_refusal` puts `refusal_text` of specs/RefusalText.antt at the front of an output that holds every refusal. Assumes nothing.
#![tactic(auto)]

ghost use Rattle.std.specs.Prelude.{◌≤◌, length};
ghost use Rattle.day.specs.Answer.{number, carried};
ghost use Rattle.decimal.specs.Place.{Put};
ghost use Rattle.refusal_text.specs.RefusalText.{refusal_text};
ghost use Rattle.refusal_text.specs.Laws.{refusal_bytes};

use day::Refusal;
use refusals::Numbered;

const LINE_NAMES: [u8; 13] = *b"refusal line\n";

const INTERVAL_NAMES: [u8; 26] = *b"refusal first last trains\n";

// Puts the two lines of a refusal at the front. Gives their length.
pub fn put_refusal(out: &mut [u8], refusal: Refusal) -> usize
    requires { refusal_bytes ≤ length out.old }
    ensures { Put out.old out.new 0 result (refusal_text (number refusal) (carried refusal)) × (result ≤ refusal_bytes) }
{
    let told = Numbered::from(refusal);
    if told.number == 9 {
        let next = output::put_bytes(out, 0, &INTERVAL_NAMES);
        return output::put_row(out, next, &[9, told.first, told.second, told.third]);
    }
    let next = output::put_bytes(out, 0, &LINE_NAMES);
    output::put_row(out, next, &[told.number, told.first])
}
