// yard-long: reads a long day's file from standard input, at most 32,768 bytes of it, and prints the answer: the plan file of the row that the
// beam search finds at width 30, or the two lines of a refusal (order 9 of document 02).
//
// Proved: that it runs without a fault. What is printed is `long_answer_text` of the bytes read, by the contract of
// long_answering::answer_long_text; this file only moves bytes; a read or a write that fails ends it with that error. The run on the sample
// day (the files stdin and stdout) is part of the gate.
#![tactic(auto)]

use std::io::{self, Write};

fn main(rt: HostRuntime) -> io::Result<()> {
    let mut text = [0u8; 32768];
    let read = streams::read_full(&mut rt.stdin(), &mut text)?;
    let mut reply = [0u8; long_planfile::LONG_PLAN_BYTES];
    if let Ok(count) = long_answering::answer_long_text(&text[..read], &mut reply) {
        rt.stdout().write_all(&reply[..count])?;
    }
    Ok(())
}
