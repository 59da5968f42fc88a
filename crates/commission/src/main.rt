// Carries out a script, and prints what was done. One command a line; blank lines and lines that begin with `#` are
// passed over:
//
//     utf-8 | utf-16 | utf-32     the encoding of positions, before the first call, else it is out of place;
//                                 utf-16 if none is given
//     routes | settings           the language, before the first call, else it is out of place; routes if none is given
//     open TEXT                   a new text
//     replace TEXT                a whole new text for the one at hand
//     type START END TEXT         a change, from a position LINE:CHARACTER to another
//     lend N                      lends the library N bytes of memory from now on, at most 65,536; 8,192 if never said
//     new                         starts again with no text; the encoding may be chosen again, what is lent stays
//     state                       prints the text at hand
//     show                        prints the text at hand in colours, with a legend
//
// `open`, `replace` and `type` are calls: for each the line's number, the call's word, the number sent back (0 where
// the call was taken) and words that say it are printed. Any other line is reported as no call.
#![tactic(auto)]

mod calls;
mod command;
mod painting;
mod session;

use chosen::tongues::code_text;
use coding::coder::LIST_LIMIT;
use command::{Command, is_passed_over, read_command};
use examples::worked_examples;
use notation::{Unread, lines};
use painting::show;
use refusals::Refusal;
use session::Session;
use std::io;
use std::io::{Read, Write};

// How many calls were taken and refused.
#[derive(Clone, Copy)]
struct Tally {
    taken: u64,
    refused: u64,
}

impl Tally {
    fn count(&mut self, outcome: Result<(), Refusal>) {
        match outcome {
            Ok(()) => self.taken = self.taken.saturating_add(1),
            Err(_) => self.refused = self.refused.saturating_add(1),
        }
    }
}

// Prints what became of a call.
fn report(
    rt: &HostRuntime,
    number: u64,
    word: &str,
    outcome: Result<(), Refusal>,
) -> io::Result<()> {
    match outcome {
        Ok(()) => println!(rt; "{number}: {word} -> 0 taken"),
        Err(refusal) => { println!(rt; "{number}: {word} -> {} {refusal}", refusal.number()) }
    }
}

// Prints the text at hand in colours.
fn print_colours(rt: &HostRuntime, session: &Session, number: u64) -> io::Result<()> {
    let Some(text) = session.text() else {
        return println!(rt; "no text");
    };
    let heap = rt.alloc();
    let mut list = vec![in heap; 0; LIST_LIMIT]?;
    match code_text(session.tongue, session.encoding, text, &mut list) {
        Ok(size) => {
            let coded = &list[..size.min(LIST_LIMIT)];
            let painted = show(heap, session.tongue, session.encoding, text, coded)?;
            rt.stdout().write_all(painted.as_slice())
        }
        Err(refusal) => report(rt, number, "show", Err(refusal)),
    }
}

// Carries out one line of the script. The session and the count change, the others are lent: no two always go together.
fn carry_out(
    rt: &HostRuntime,
    session: &mut Session,
    tally: &mut Tally,
    number: u64,
    line: &[u8],
) -> io::Result<()> {
    let command = match read_command(rt.alloc(), line) {
        Ok(command) => command,
        Err(Unread::IllFormed) => return println!(rt; "{number}: no call"),
        Err(Unread::NoMemory(error)) => return Err(io::Error::from(error)),
    };
    // each step takes what its command brings
    match command {
        Command::Choose(choice) => {
            if !session.choose(choice) {
                println!(rt; "{number}: out of place")?;
            }
        }
        Command::Lend(bytes) => session.lend(bytes)?,
        Command::New => session.start_again(),
        Command::Show => print_colours(rt, session, number)?,
        Command::State => {
            let state = session.state(rt.alloc())?;
            println!(rt; "{state}")?;
        }
        Command::Call(call) => {
            let outcome = session.make(&call);
            tally.count(outcome);
            report(rt, number, call.word(), outcome)?;
        }
    }
    Ok(())
}

fn main(rt: HostRuntime) -> io::Result<()> {
    let heap = rt.alloc();
    let mut script = Vec::new(heap);
    rt.stdin().read_to_end(&mut script)?;
    let count = worked_examples();
    println!(rt; "{count} worked examples are proved")?;
    let mut session = Session::new(heap)?;
    let mut tally = Tally {
        taken: 0,
        refused: 0,
    };
    for (number, line) in (1..u64::MAX).zip(lines(script.as_slice())) {
        if !is_passed_over(line) {
            carry_out(&rt, &mut session, &mut tally, number, line)?;
        }
    }
    let Tally { taken, refused } = tally;
    println!(rt; "{taken} taken, {refused} refused")
}
