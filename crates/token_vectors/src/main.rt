// Runs cases on tokens, one a line of the input, and prints an answer line for each:
//
//     tokens LANGUAGE TEXT             how many tokens, then PLACE+LENGTH:TYPE:MODIFIERS of each, or `refused` and the number
//     code LANGUAGE ENCODING TEXT      0 and the coding, or the refusal's number
//     decode NUMBER,NUMBER,..          LINE:COLUMN+UNITS:TYPE:MODIFIERS of each token, or `none`
//
// Fields stand a space apart, and nothing follows the last. For any other line the answer is `no case`.
#![tactic(auto)]

mod cases;
mod codings;

use cases::answer;
use coding::coder::LIST_LIMIT;
use notation::lines;
use std::io;
use std::io::Read;

// A loop of this program's own: what an answer takes differs from program to program.
fn main(rt: HostRuntime) -> io::Result<()> {
    let heap = rt.alloc();
    let mut input = Vec::new(heap);
    rt.stdin().read_to_end(&mut input)?;
    let mut list = vec![in heap; 0; LIST_LIMIT]?;
    for line in lines(input.as_slice()) {
        let answer = answer(heap, line, &mut list)?;
        println!(rt; "{answer}")?;
    }
    Ok(())
}
