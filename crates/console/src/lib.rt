// What the programs share: what one was started with, and the way from a file of octets to lines on standard output. A program reads and
// writes in parts, so that the file may be of any length. Where reading or writing fails it says so on standard error, and prints no last line.
#![tactic(auto)]

ghost use Rattle.std.specs.Prelude.{◌≡◌, ◌+◌, ◌≤◌, length};
ghost use Rattle.parts.specs.Feed.{Within};

use arguments::{Source, Stop};
use parts::{Fed, Stage};
use said::Complaints;
use std::io;
use std::io::Read;
use vocabulary::Column;

mod arguments; // arguments.rt: what the program was started with
mod said; // said.rt: what is wrong, on standard error
mod vocabulary; // vocabulary.rt: the words for the numbers
mod wording; // wording.rt: the lines with those words

// What a program does: it replays a trace, or lists messages.
pub const REPLAY: u8 = 0;

pub const LISTING: u8 = 1;

// What one program does otherwise than another.
trait Program: Drop {
    // What the columns of its lines hold.
    const COLUMNS: &'static [Column];

    // What it is to be fed, as whoever feeds it text is told.
    const WANTS: &'static [u8];

    // The program before its file.
    fn new() -> Self;

    // Takes what can be taken of a part of the file, and writes its lines into the room.
    fn feed(&mut self, stage: Stage, part: &[u8], room: &mut [u8]) -> Fed
        ensures { Within result part.now room.old };
}

// The replay has the table of its group.
#[derive(Drop)]
struct Replay {
    table: [u8; trace::MOST_TABLE_OCTETS],
}

impl Program for Replay {
    // ordinal, circuit, refusal, state, flags, indication and headings
    const COLUMNS: &'static [Column] = &[
        Column::Plain,
        Column::Plain,
        Column::Refusal,
        Column::State,
        Column::Flags,
        Column::Indication,
        Column::Heading,
    ];

    const WANTS: &'static [u8] = b"a trace is";

    fn new() -> Replay {
        Replay {
            table: [0u8; trace::MOST_TABLE_OCTETS],
        }
    }

    fn feed(&mut self, stage: Stage, part: &[u8], room: &mut [u8]) -> Fed {
        let octets = trace::table_octets(stage);
        trace::feed(stage, &mut self.table[..octets], part, room)
    }
}

#[derive(Drop)]
struct Listing;

impl Program for Listing {
    // ordinal, refusal, place, circuit, heading and fields
    const COLUMNS: &'static [Column] = &[
        Column::Plain,
        Column::Refusal,
        Column::Plain,
        Column::Plain,
        Column::Heading,
        Column::Plain,
    ];

    const WANTS: &'static [u8] = b"messages are";

    fn new() -> Listing {
        Listing
    }

    fn feed(&mut self, stage: Stage, part: &[u8], room: &mut [u8]) -> Fed {
        messages::feed(stage, part, room)
    }
}

// What a program says on standard error when its work is over. `Text` comes behind the last line: the file is text, and here is what was wanted.
// With any other the work failed, and the last line is missing or not whole.
#[derive(Debug, Drop)]
enum Trouble {
    Read(io::Error),
    Write(io::Error),
    TooManyRecords,
    TooLong,
    Text(&'static [u8]),
}

impl Trouble {
    fn tell<E: Print>(&self, told: &Complaints<'_, E>) {
        match self {
            Trouble::Read(e) => told.failed(&[b": cannot read"], e),
            Trouble::Write(e) => told.failed(&[b": cannot write"], e),
            Trouble::TooManyRecords => told.say(&[b": too many records\n"]),
            Trouble::TooLong => told.say(&[b": too long\n"]),
            Trouble::Text(wanted) => tell_octets(told, wanted),
        }
    }
}

fn tell_octets<E: Print>(told: &Complaints<'_, E>, wanted: &[u8]) {
    told.say(&[
        b": this is text, and ",
        wanted,
        b" octets: make them with tup-octets FILE | ",
        told.name,
        b"\n",
    ]);
}

// The octets that are read and not yet taken: those of a buffer from `at` up to `have`.
#[derive(Drop)]
struct Unread {
    buffer: [u8; 65536],
    at: usize,
    have: usize,
    ghost inside: { (at ≤ have) × (have ≤ 65536) },
}

impl Unread {
    fn new() -> Unread {
        Unread {
            buffer: [0u8; 65536],
            at: 0,
            have: 0,
        }
    }

    fn octets(&self) -> &[u8]
        ensures { self.now.at + length result.now ≡ self.now.have }
    {
        &self.buffer[self.at..self.have]
    }

    fn take(&mut self, n: usize)
        requires { self.old.at + n ≤ self.old.have }
    {
        self.at += n;
    }

    // Reads more behind what is not taken yet, and answers whether there was more. Where nothing was taken of a full buffer, there is no further
    // ordinal: the buffer is longer than any record, so with an ordinal the first one would have been taken.
    fn read(&mut self, input: &mut impl Read) -> Result<bool, Trouble> {
        self.have = parts::keep(&mut self.buffer, self.at, self.have);
        self.at = 0;
        if self.have == self.buffer.len() {
            return Err(Trouble::TooManyRecords);
        }
        let more = input
            .read(&mut self.buffer[self.have..])
            .map_err(Trouble::Read)?;
        self.have += more;
        Ok(more > 0)
    }
}

// Where the lines go, and what their columns hold where they are written with words for numbers.
#[derive(Clone, Copy)]
struct Lines<'a, O> {
    out: &'a O,
    columns: Option<&'static [Column]>,
}

impl<O: Print> Lines<'_, O> {
    fn write(&self, lines: &[u8]) -> Result<(), Trouble> {
        match self.columns {
            Some(columns) => wording::write(self.out, columns, lines),
            None => self.out.write_all(lines),
        }
        .map_err(Trouble::Write)
    }
}

// Reads the file and writes its lines as far as it goes, and answers where its text stands then. A proved loop ends, and nothing says that a
// file does, so the turns are counted up to a number that no run reaches.
fn turns<P: Program, O: Print>(
    program: &mut P,
    lines: &Lines<'_, O>,
    input: &mut impl Read,
    unread: &mut Unread,
    room: &mut [u8],
) -> Result<Stage, Trouble> {
    let mut stage = Stage::Start;
    for _ in 0..u64::MAX {
        let fed = program.feed(stage, unread.octets(), room);
        lines.write(&room[..fed.written])?;
        unread.take(fed.taken);
        stage = fed.stage;
        if fed.taken == 0 && (stage.is_over() || !unread.read(input)?) {
            return Ok(stage);
        }
    }
    Err(Trouble::TooLong)
}

fn has_group(stage: Stage) -> bool {
    matches!(stage, Stage::Runs(_) | Stage::Cut(_))
}

fn is_text(octet: u8) -> bool {
    matches!(octet, b'\t' | b'\n' | b'\r' | b' '..=b'~')
}

// Writes the lines of a file, and its last line. A file in its readable form has no group where its octets should begin: whoever feeds it by
// mistake is told what is missing.
fn work<P: Program, O: Print>(lines: &Lines<'_, O>, input: &mut impl Read) -> Result<(), Trouble> {
    let mut program = P::new();
    let mut unread = Unread::new();
    let mut room = [0u8; 65536];
    let stage = turns(&mut program, lines, input, &mut unread, &mut room)?;
    let rest = unread.octets();
    let n = stage.finish(rest, &mut room);
    lines.out.write_all(&room[..n]).map_err(Trouble::Write)?;
    if !has_group(stage) && rest.first().is_some_and(|octet| is_text(*octet)) {
        return Err(Trouble::Text(P::WANTS));
    }
    Ok(())
}

// Does a program's work as its arguments ask, or prints its help.
fn run<P: Program, E: Print>(
    rt: &HostRuntime,
    told: &Complaints<'_, E>,
    help: &[u8],
) -> Result<(), Trouble> {
    let out = rt.stdout();
    let asked = match arguments::read(rt, told) {
        Ok(asked) => asked,
        Err(Stop::Help) => return out.write_all(help).map_err(Trouble::Write),
        Err(Stop::Refused) => return Ok(()),
    };
    let lines = Lines {
        out: &out,
        columns: asked.names.then_some(P::COLUMNS),
    };
    match asked.source {
        Some(Source::File(i)) => match arguments::open(rt, told, i) {
            Some(mut input) => work::<P, _>(&lines, &mut input),
            None => Ok(()),
        },
        Some(Source::Input) | None => work::<P, _>(&lines, &mut rt.stdin()),
    }
}

// Does a program's work, and says what went wrong. Any number may be given for what the program does: all but LISTING replay. The number is
// looked at here alone.
pub fn start(rt: &HostRuntime, what: u8, name: &[u8], help: &[u8]) {
    let told = Complaints {
        err: &rt.stderr(),
        name,
    };
    let done = match what {
        LISTING => run::<Listing, _>(rt, &told, help),
        _ => run::<Replay, _>(rt, &told, help),
    };
    if let Err(trouble) = done {
        trouble.tell(&told);
    }
}
