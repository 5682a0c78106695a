// Reading from a stream into lent memory, for the programs.
//
// Proved: `read_full` ends, and gives at most as many bytes as the memory has. What a stream gives is known of no stream of the system; where a
// reader's bytes are known, std's contract of `read` says which they are.
#![tactic(auto)]

ghost use Rattle.std.specs.Prelude.{◌≤◌, length, IfOk};

use std::io::{self, Read};

// Reads until the memory is full or the stream ends, and returns how many bytes it put at its front. An error of the stream is returned.
pub fn read_full<R: Read>(reader: &mut R, memory: &mut [u8]) -> io::Result<usize>
    ensures { IfOk result (λ n. n ≤ length memory.new) }
{
    let mut done = 0;
    while done < memory.len() {
        let n = reader.read(&mut memory[done..])?;
        if n == 0 {
            break;
        }
        done += n;
    }
    Ok(done)
}
