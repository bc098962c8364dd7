// Answers every model of its input, one after the other, and writes each answer under the model's name. README.md says how the input is laid
// out.
#![tactic(auto)]

ghost use Rattle.std.specs.Prelude.{length};
ghost use Rattle.io.specs.Counts.{IsPrefixLen};

use std::io::Read;
use text::bytes::BYTES_SIZE;

// Reads until the buffer is full, the input ends or a read fails, and answers what was read.
// kept: (d) `report` has the same loop, but for what becomes of a read that fails: here the answer goes on with what was read. The crate that both use, `text`,
// reads nothing, and a crate for one loop of eight lines is no plainer.
fn read_full<'a, R: Read>(from: &mut R, buffer: &'a mut [u8]) -> &'a [u8]
    ensures { IsPrefixLen (length result.now) buffer.old }
{
    let mut len = 0;
    // kept: (d) a read may give any number of bytes; what falls is the room that is left
    while len < buffer.len() {
        let more = from.read(&mut buffer[len..]).unwrap_or(0);
        if more == 0 {
            break;
        }
        len += more;
    }
    &buffer[..len]
}

// Reads the next n bytes, or those that are left, and answers them: none where the buffer has no room for n.
fn next_bytes<'a, R: Read>(from: &mut R, n: u32, buffer: &'a mut [u8]) -> &'a [u8]
    ensures { IsPrefixLen (length result.now) buffer.old }
{
    let n = n as usize;
    if buffer.len() < n {
        return &buffer[..0];
    }
    read_full(from, &mut buffer[..n])
}

// Writes the name of the next model and the answer to it, and says whether to go on.
fn next_model<R: Read, P: Print>(from: &mut R, rt: &P) -> bool {
    let mut header = [[0; 4]; 3];
    if read_full(from, header.as_flattened_mut()).len() < 12 {
        return false;
    }
    let [name_size, model_size, budget] = header.map(u32::from_le_bytes);
    let mut name = [0; 64];
    // where the name cannot be written, neither can the answer, and that is told
    let _ = rt.write_all(next_bytes(from, name_size, &mut name));
    let mut model = [0; BYTES_SIZE];
    let bytes = next_bytes(from, model_size, &mut model);
    let answer = text::answers::answered(bytes, u64::from(budget));
    rt.write_all(answer.as_slice()).is_ok()
}

fn main(rt: HostRuntime) {
    let mut from = rt.stdin();
    for _ in 0..u64::MAX {
        if !next_model(&mut from, &rt) {
            break;
        }
    }
}
