// Runs cases on texts, one a line of the input, and prints an answer line for each:
//
//     utf8 TEXT                               well-formed or ill-formed
//     lines TEXT                              how many lines, then the start and the content's length of each
//     place ENCODING LINE:CHARACTER TEXT      0 and the place, or the refusal's number
//     cut ENCODING LINE:CHARACTER TEXT        0 and the column, or the refusal's number
//     change ENCODING LENT START END OLD NEW  0 and the changed text, or the refusal's number
//
// Fields stand a space apart, and nothing follows the last. For any other line the answer is `no case`.
#![tactic(auto)]

mod cases;
mod fields;

use cases::answer;
use notation::lines;
use std::io;
use std::io::Read;

// A loop of this program's own: what an answer takes differs from program to program.
fn main(rt: HostRuntime) -> io::Result<()> {
    let heap = rt.alloc();
    let mut input = Vec::new(heap);
    rt.stdin().read_to_end(&mut input)?;
    for line in lines(input.as_slice()) {
        let answer = answer(heap, line)?;
        println!(rt; "{answer}")?;
    }
    Ok(())
}
