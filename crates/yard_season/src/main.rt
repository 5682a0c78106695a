// yard-season: reads the day files of a season from standard input, joined with an empty line between, at most 1,048,576 bytes of them, and prints
// the report over their days, or the two lines of refusal 22 (order 10 of document 02; docs/FORMAT.md).
//
// Proved: that it runs without a fault. What is printed is `period_text` of the bytes read, by the contract of period_answering::answer_period;
// this file only moves bytes; a read or a write that fails ends it with that error. The run on the sample season (the files stdin and stdout) is
// part of the gate.
#![tactic(auto)]

ghost use Rattle.std.specs.Prelude.{◌≤◌};

use std::io::{self, Write};

// Reads standard input into lent memory and prints the answer.
fn answer_input(rt: &HostRuntime, text: &mut [u8]) -> io::Result<()> {
    let read = streams::read_full(&mut rt.stdin(), text)?;
    let mut reply = [0u8; period_answering::REPORT_BYTES];
    if let Ok(count) = period_answering::answer_period(&text[..read], &mut reply) {
        rt.stdout().write_all(&reply[..count])?;
    }
    Ok(())
}

// The same in memory of its own, whose size is a parameter: the check then computes with no list of a million zeros.
fn answer_in_memory<const SIZE: usize>(rt: &HostRuntime) -> io::Result<()>
    requires { SIZE ≤ 1048576 }
{
    let mut text = [0u8; SIZE];
    answer_input(rt, &mut text)
}

fn main(rt: HostRuntime) -> io::Result<()> {
    answer_in_memory::<1048576>(&rt)
}
