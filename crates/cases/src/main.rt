// Runs the worked cases of docs/RULES.md and docs/DECISIONS.md, which stand in the file `stdin`: prints each line that is
// answered otherwise, and how many were run.
#![tactic(auto)]

use std::io;
use std::io::{Cursor, Read};

mod choices; // choices.rt: the cases of selection
mod lines; // lines.rt: reading the table of cases
mod messages; // messages.rt: the cases of a message
mod steps; // steps.rt: the cases of a step
mod tables; // tables.rt: laying out the table of a case

// How many octets of the table are read, and how many numbers a line has at most.
const TEXT: usize = 65536;

const NUMBERS: usize = 48;

// Whether a case is answered as it says; what is tried is its first number.
fn right(case: &[u32]) -> bool {
    match case {
        [1, case @ ..] => steps::right(case),
        [2, case @ ..] => messages::read_right(case),
        [3, case @ ..] => messages::write_right(case),
        [4, case @ ..] => choices::right(case),
        _ => false,
    }
}

// Whether a line's case is answered as it says; `None` where the line has no case. A case with too many numbers counts as answered otherwise.
fn line_right(line: &[u8]) -> Option<bool> {
    let mut room = [0u32; NUMBERS];
    match lines::read(line, &mut room) {
        Some([]) => None,
        Some(case) => Some(right(case)),
        None => Some(false),
    }
}

// The cases run, and those that were answered otherwise.
#[derive(Clone, Copy, Debug, PartialEq, Eq, Default)]
struct Tally {
    cases: u64,
    wrong: u64,
}

// Runs the cases of whole lines.
fn run(rt: &impl Print, text: &[u8]) -> io::Result<Tally> {
    let mut tally = Tally::default();
    for (line, ordinal) in text.split_inclusive(|octet| *octet == b'\n').zip(1u64..) {
        let case = line.strip_suffix(b"\n").and_then(|line| line_right(line));
        let Some(is_right) = case else { continue };
        tally.cases = tally.cases.wrapping_add(1);
        if !is_right {
            println!(rt; "line {ordinal} is answered otherwise")?;
            tally.wrong = tally.wrong.wrapping_add(1);
        }
    }
    Ok(tally)
}

fn main(rt: HostRuntime) -> io::Result<()> {
    let mut text = Cursor::new([0u8; TEXT]);
    let read = io::copy(&mut rt.stdin().take(TEXT as u64), &mut text)?;
    let octets = text.into_inner();
    let Tally { cases, wrong } = run(&rt, &octets[..octets.len().min(read as usize)])?;
    println!(rt; "{cases} cases, {wrong} wrong")
}
