// yard-plan: reads a day file from standard input, at most 4,096 bytes of it, and prints the answer: the plan file, or the two lines of a
// refusal (document 01, "The program").
//
// Proved: that it runs without a fault. What is printed is `answer_text` of the bytes read, by the contract of answering::answer_text; this
// file only moves bytes; a read or a write that fails ends it with that error. The run on the sample day (the files stdin and stdout) is part of
// the gate.
#![tactic(auto)]

use std::io::{self, Write};

fn main(rt: HostRuntime) -> io::Result<()> {
    let mut text = [0u8; 4096];
    let read = streams::read_full(&mut rt.stdin(), &mut text)?;
    let mut reply = [0u8; planfile::PLAN_BYTES];
    if let Ok(count) = answering::answer_text(&text[..read], &mut reply) {
        rt.stdout().write_all(&reply[..count])?;
    }
    Ok(())
}
