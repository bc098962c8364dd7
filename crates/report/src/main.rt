// Reads a model's words from standard input, four bytes a word, and writes its report or why it is refused. Where the input cannot be read there is no
// answer, and where the answer cannot be written it is not whole: either is told on standard error.
#![tactic(auto)]

ghost use Rattle.std.specs.Prelude.{length, IfOk};
ghost use Rattle.io.specs.Counts.{IsPrefixLen};

use std::io;
use std::io::Read;

// Reads until the buffer is full or the input ends, and answers what was read.
// kept: (d) `vectors` has the same loop, but for a read that fails, and says why there are two.
fn read_input<'a, R: Read>(from: &mut R, buffer: &'a mut [u8]) -> io::Result<&'a [u8]>
    ensures { IfOk result (λ r. IsPrefixLen (length r.now) buffer.old) }
{
    let mut len = 0;
    // kept: (d) a read may give any number of bytes; what falls is the room that is left
    while len < buffer.len() {
        let more = from.read(&mut buffer[len..])?;
        if more == 0 {
            break;
        }
        len += more;
    }
    Ok(&buffer[..len])
}

fn main(rt: HostRuntime) {
    let mut buffer = text::program::input();
    let Ok(bytes) = read_input(&mut rt.stdin(), &mut buffer) else {
        // where standard error fails too, nobody can be told
        let _ = eprintln!(rt; "report: standard input could not be read");
        return;
    };
    let answer = text::program::report(bytes);
    if rt.write_all(answer.as_slice()).is_err() {
        let _ = eprintln!(rt; "report: the answer could not be written");
    }
}
