// The records of a trace (docs/RULES.md, "The trace and its replay"): how long one is, what it says, the group at the start, and a
// reader that holds a trace and its place there.
#![tactic(auto)]

ghost use Rattle.std.specs.Prelude.{◌≡◌, ◌≤◌, length, drop};
ghost use Rattle.records.specs.Records.{octets_of, two, detail_of, recorded, item, behind, refused_start, group_in};

use circuit::{Codes, PointCode};

// The kinds of record: the first octet of each. The group comes first, and the others are events.
pub const GROUP: u8 = 0;

pub const SIGNAL: u8 = 1;

pub const COMMAND: u8 = 2;

pub const TIMER: u8 = 3;

// What an event's record says: a signal and its heading, a command, or a timer, whose detail is 0. The kind is the octet of the file, since
// `octets_of` answers for any octet, and events are given by numbers (`codes::Numbers`).
#[derive(Clone, Copy, Debug, PartialEq, Eq)]
pub struct Recorded {
    pub kind: u8,
    pub circuit: u16,
    pub code: u8,
    pub detail: u8,
}

// What stands at a place of a trace, behind the group: an event's record; an octet that starts none; a record's start and then the
// end; nothing more.
#[derive(Clone, Copy, Debug, PartialEq, Eq)]
pub enum Item {
    Event(Recorded),
    NoEvent,
    Short,
    End,
}

// What the group's record says: the two codes, and how many circuits there are.
#[derive(Clone, Copy, Debug, PartialEq, Eq)]
pub struct Group {
    pub codes: Codes,
    pub circuits: u16,
}

// The octets of a record, its kind included, by its kind; 0 for what is no kind, as the definition `octets_of` has it. Callers ask it of kinds
// alone, and would have to unwrap an `Option`.
pub fn octets_of(kind: u8) -> usize
    ensures { result ≡ octets_of kind }
{
    match kind {
        GROUP => 7,
        SIGNAL | COMMAND => 5,
        TIMER => 4,
        _ => 0,
    }
}

// The number of two octets, lowest first.
fn two(s: &[u8], at: usize) -> u16
    ensures { result ≡ two s.now at }
{
    u16::from_le_bytes([words::octet(s, at, 0), words::octet(s, at, 1)])
}

fn detail(kind: u8, octet: u8) -> u8
    ensures { result ≡ detail_of kind octet }
{
    if kind == TIMER { 0 } else { octet }
}

fn recorded_at(s: &[u8], at: usize) -> Recorded
    requires { at ≤ length s.now }
    ensures { result ≡ recorded (drop at s.now) }
{
    let kind = words::octet(s, at, 0);
    Recorded {
        kind,
        circuit: two(s, at + 1),
        code: words::octet(s, at, 3),
        detail: detail(kind, words::octet(s, at, 4)),
    }
}

// What stands at a place of a trace, behind the group.
pub fn item_at(s: &[u8], at: usize) -> Item
    ensures { result ≡ item (drop at s.now) }
{
    let Some(&kind) = s.get(at) else {
        return Item::End;
    };
    if kind == GROUP || TIMER < kind {
        return Item::NoEvent;
    }
    if s.len() - at < octets_of(kind) {
        return Item::Short;
    }
    Item::Event(recorded_at(s, at))
}

// Whether the record at the start is of another kind than the group's, or its group is refused.
pub fn refused_start(s: &[u8]) -> bool
    ensures { result ≡ refused_start s.now }
{
    let Group { codes, circuits } = group_in(s);
    words::octet(s, 0, 0) != GROUP || codes.bad_group(usize::from(circuits))
}

pub fn group_in(s: &[u8]) -> Group
    ensures { result ≡ group_in s.now }
{
    Group {
        codes: Codes {
            own: PointCode(u32::from(two(s, 1))),
            far: PointCode(u32::from(two(s, 3))),
        },
        circuits: two(s, 5),
    }
}

// The place behind the event's record that stands at a place; where none does, the place itself.
pub fn behind_at(s: &[u8], at: usize) -> usize
    ensures { result ≡ behind s.now at }
{
    match item_at(s, at) {
        Item::Event(e) => at + octets_of(e.kind),
        _ => at,
    }
}

// A trace and the place of its next record. Its functions are thin: what stands at a place, and where the next record does, are for
// `item_at` and `behind_at` to say.
#[derive(Clone, Copy)]
pub struct Reader<'a> {
    pub src: &'a [u8],
    pub at: usize,
}

impl<'a> Reader<'a> {
    pub fn new(src: &'a [u8]) -> Reader<'a>
        ensures { (result.src ≡ src.entry) × (result.at ≡ 0) }
    {
        Reader { src, at: 0 }
    }

    // What stands at the reader's place.
    pub fn here(self) -> Item
        ensures { result ≡ item (drop self.entry.at self.entry.src.now) }
    {
        item_at(self.src, self.at)
    }

    // The reader behind the event's record at its place; where none stands there, it stays.
    pub fn next(self) -> Reader<'a>
        ensures { (result.src ≡ self.entry.src) × (result.at ≡ behind self.entry.src.now self.entry.at) }
    {
        let at = behind_at(self.src, self.at);
        Reader { at, ..self }
    }
}
