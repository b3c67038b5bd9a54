// Runs the replay of the library over small traces, each in parts of every size from one octet up, and counts the runs whose text is not
// the one that docs/RULES.md asks for ("The trace and its replay").
#![tactic(auto)]

ghost use Rattle.std.specs.Prelude.{◌≤◌};

use parts::Stage;
use std::io;

// The traces, each with the text that is wanted.
const CASES: [(&[u8], &[u8]); 18] = [
    // the whole case
    (
        b"\x00\x02\x00\x01\x00\x02\x00\x02\x01\x00\x01\x00\x01\x01\x00\x11\x00\x02\x01\x00\x03\x05\x01\x01\x00\x46\x00\x02\x01\x00\x02\x00",
        b"own 2 far 1 circuits 2\n1 1 0 1 0 0 11\n2 1 0 6 0 9 -\n3 1 0 8 0 0 14\n4 1 0 0 0 5 17\n5 1 5 0 0 0 -\nend 5\n",
    ),
    // no octet
    (b"", b"bad group\n"),
    // a short group
    (b"\x00\x02\x00\x01\x00\x02", b"bad group\n"),
    // another kind first
    (b"\x01\x01\x00\x46\x00\x01\x00\x46", b"bad group\n"),
    // equal codes
    (b"\x00\x02\x00\x02\x00\x02\x00", b"bad group\n"),
    // a code above 16383
    (b"\x00\x00\x40\x01\x00\x02\x00", b"bad group\n"),
    // no circuit
    (b"\x00\x02\x00\x01\x00\x00\x00", b"bad group\n"),
    // 4097 circuits
    (b"\x00\x02\x00\x01\x00\x01\x10", b"bad group\n"),
    // a group alone
    (
        b"\x00\x02\x00\x01\x00\x02\x00",
        b"own 2 far 1 circuits 2\nend 0\n",
    ),
    // a second group
    (
        b"\x00\x02\x00\x01\x00\x02\x00\x00\x02\x00\x01\x00\x02\x00",
        b"own 2 far 1 circuits 2\ncut 1\n",
    ),
    // kind 4
    (
        b"\x00\x02\x00\x01\x00\x02\x00\x02\x01\x00\x01\x00\x04",
        b"own 2 far 1 circuits 2\n1 1 0 1 0 0 11\ncut 2\n",
    ),
    // a line feed at the end
    (
        b"\x00\x02\x00\x01\x00\x02\x00\x02\x01\x00\x01\x00\x0a",
        b"own 2 far 1 circuits 2\n1 1 0 1 0 0 11\ncut 2\n",
    ),
    // a short signal
    (
        b"\x00\x02\x00\x01\x00\x02\x00\x01\x01\x00\x46",
        b"own 2 far 1 circuits 2\ncut 1\n",
    ),
    // a short command
    (
        b"\x00\x02\x00\x01\x00\x02\x00\x02",
        b"own 2 far 1 circuits 2\ncut 1\n",
    ),
    // a short timer
    (
        b"\x00\x02\x00\x01\x00\x02\x00\x03\x01\x00",
        b"own 2 far 1 circuits 2\ncut 1\n",
    ),
    // refusals 2, 3, 4, 5, 6
    (
        b"\x00\x02\x00\x01\x00\x02\x00\x01\xff\xff\x46\x00\x01\x05\x00\x99\x00\x01\x01\x00\x99\x00\x01\x01\x00\x46\x01\x01\x01\x00\x27\x00\x02\x01\x00\x01\x00\x02\x01\x00\x02\x00\x03\x01\x00\x01",
        b"own 2 far 1 circuits 2\n1 65535 2 - - 0 -\n2 5 2 - - 0 -\n3 1 3 0 0 0 -\n4 1 3 0 0 0 -\n5 1 0 0 2 0 37\n6 1 4 0 2 0 -\n7 1 5 0 2 0 -\n8 1 6 0 2 0 -\nend 8\n",
    ),
    // 4096 circuits
    (
        b"\x00\xff\x3f\x01\x00\x00\x10\x01\xff\x0f\x46\x00\x01\xff\x0f\x27\x00\x01\x00\x10\x27\x00",
        b"own 16383 far 1 circuits 4096\n1 4095 0 0 0 0 17\n2 4095 0 0 2 0 37\n3 4096 2 - - 0 -\nend 3\n",
    ),
    // two signals sent; then, on the other circuit, nonsense before address complete
    (
        b"\x00\x02\x00\x01\x00\x02\x00\x02\x00\x00\x01\x00\x01\x00\x00\x27\x00\x02\x01\x00\x01\x00\x01\x01\x00\x17\x00",
        b"own 2 far 1 circuits 2\n1 0 0 1 0 0 11\n2 0 0 5 2 6 37,46\n3 1 0 1 0 0 11\n4 1 0 5 0 6 46\nend 4\n",
    ),
];

// How many octets at a time a trace is shown by at most.
const MOST: usize = 12;

// As many turns as take any of the traces here to its end.
const TURNS: usize = 60;

// Writes the text of a trace, and answers how many octets that is; none where it goes beyond the room. At each turn the run is shown up to
// `size` octets more, behind what is not taken yet of those before.
fn replayed(size: usize, whole: &[u8], room: &mut [u8]) -> Option<usize> {
    let mut table = [0u8; trace::MOST_TABLE_OCTETS];
    let mut stage = Stage::Start;
    let mut at = 0;
    let mut shown = 0usize;
    let mut written = 0;
    for _ in 0..TURNS {
        shown = whole.len().min(shown.saturating_add(size));
        let part = whole.get(at..shown)?;
        let octets = trace::table_octets(stage);
        let fed = trace::feed(stage, &mut table[..octets], part, room.get_mut(written..)?);
        stage = fed.stage;
        at += fed.taken;
        written += fed.written;
    }
    let n = stage.finish(whole.get(at..)?, room.get_mut(written..)?);
    Some(written + n)
}

fn is_right(size: usize, whole: &[u8], want: &[u8]) -> bool {
    let mut room = [0u8; 1024];
    let written = replayed(size, whole, &mut room);
    written.is_some_and(|n| room.get(..n) == Some(want))
}

// How many of the runs of a trace, shown by 1, 2, .. octets at a time, go wrong.
fn wrong(whole: &[u8], want: &[u8]) -> usize
    ensures { result ≤ 12 }
{
    (1..=MOST)
        .filter(|size| !is_right(*size, whole, want))
        .count()
}

fn main(rt: HostRuntime) -> io::Result<()> {
    let runs = CASES.len() * MOST;
    let wrong: usize = CASES.iter().map(|(whole, want)| wrong(whole, want)).sum();
    println!(rt; "{runs} runs, {wrong} wrong")
}
