// Writing a day as a day file (document 01): checks 8, then 10; fills the first bytes of the output, returns their count and leaves
// the bytes beyond. A refusal changes no byte.
//
// Proved: for every record and every output `write_day` answers and leaves what `day_writes` and `day_leaves` of dayfile's Calls.antt say. It is
// `write_file`, which writes a lent day of any size. Assumes nothing.
#![tactic(auto)]

ghost use Rattle.std.specs.Prelude.{◌≡◌, ◌≤◌, T, length};
ghost use Rattle.day.specs.Parts.{part_yard, IsShaped};
ghost use Rattle.day.specs.Sound.{day_limits, yard, sound};
ghost use Rattle.decimal.specs.Place.{Put};
ghost use Rattle.dayfile.specs.Writing.{day_text};
ghost use Rattle.dayfile.specs.Calls.{day_writes, day_leaves};
ghost use Rattle.output.specs.Output.{answer};

use day::{Day, Parts, Refusal};

// Puts the text of a sound day at the front, and gives its length.
pub fn put_day(day: Day, out: &mut [u8]) -> usize
    requires { T (sound day_limits (yard day)) × (length (day_text day_limits (yard day)) ≤ length out.old) }
    ensures { Put out.old out.new 0 result (day_text day_limits (yard day)) }
{
    day_text::put_file(out, &day.parts())
}

// Writes a lent day by way of a buffer that holds its text, so that its length is known before the output changes.
pub fn write_file(p: &Parts, buffer: &mut [u8], out: &mut [u8]) -> Result<usize, Refusal>
    requires shape { IsShaped p.now }
    requires room { T (sound p.now.limits (part_yard p.now)) → length (day_text p.now.limits (part_yard p.now)) ≤ length buffer.old }
    ensures result_value { answer result ≡ day_writes p.now.limits (part_yard p.now) (length out.old) }
    ensures out_after { out.new ≡ day_leaves p.now.limits (part_yard p.now) out.old }
{
    if !day_sound::is_file_sound(p) {
        return Err(Refusal::Unsound);
    }
    let count = day_text::put_file(buffer, p);
    output::write_text(&buffer[..count], out)
}

// Writes a day. The output is lent: its first bytes become the day file, the others stay; a refusal changes none. The buffer holds the text
// of every sound day (dayfile's Size.antt).
pub fn write_day(day: Day, out: &mut [u8]) -> Result<usize, Refusal>
    ensures result_value { answer result ≡ day_writes day_limits (yard day) (length out.old) }
    ensures out_after { out.new ≡ day_leaves day_limits (yard day) out.old }
{
    let mut text = [0u8; dayfile::DAY_BYTES];
    write_file(&day.parts(), &mut text, out)
}
