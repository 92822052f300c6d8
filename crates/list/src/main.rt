// The list program: reads a history from standard input and writes its list text. One byte more than a history may have is read, so
// that longer input is noticed and refused.
#![tactic(auto)]

ghost use Rattle.std.specs.Prelude.{◌≤◌, ◌<◌, take, length, IfOk};
ghost use Rattle.std.specs.Io.KnownBytes.{Consumes, IsAtEnd};

use std::io::{self, Read};

// Reads until the buffer is full or the input ends, and answers how many bytes now stand at its start. An error leaves in the buffer what
// was read before it, and ends the program.
// By hand: `read_exact` answers no count where the input ends early, `read_to_end` takes heap memory, and `copy` tells no slice's bytes.
fn read_full<R: Read>(from: &mut R, buffer: &mut [u8]) -> io::Result<usize>
    ensures within { IfOk result (λ n. n ≤ length buffer.new) }
    ensures bytes { IfOk result (λ n. Consumes (R.remaining from.old) (R.remaining from.new) (take n buffer.new)) }
    ensures end { IfOk result (λ n. n < length buffer.new → IsAtEnd (R.remaining from.new)) }
{
    let mut read = 0;
    while read < buffer.len() {
        let more = from.read(&mut buffer[read..])?;
        if more == 0 {
            break;
        }
        read += more;
    }
    Ok(read)
}

fn main(rt: HostRuntime) -> io::Result<()> {
    let mut history = [0u8; listing::LIST_LIMIT + 1];
    let read = read_full(&mut rt.reader(), &mut history)?;
    let mut text = [0u8; listing::LONGEST];
    let length = listing::list_program(&history[..read], &mut text);
    rt.write_all(&text[..length])
}
