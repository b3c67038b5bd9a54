// The lines of a replay and of a list of messages, written into lent room. Each public function writes its line at the room's start and
// answers how many octets that took; where the room has fewer than `LINE` octets, it writes nothing and answers 0. That is `Printed` of
// `in_room`, the contract of all nine: the answer is the length of the text, which is then empty.
// Digits are made by hand: a line by `write!` takes more than twice the instructions.
#![tactic(auto)]

ghost use Rattle.std.specs.Prelude.{◌≡◌, [], ◌∷◌, ◌++◌, ◌+◌, ◌≤◌, ◌<◌, length, List, ℕ};
ghost use Rattle.std.specs.Borrow.{MutBor};
ghost use Rattle.std.proofs.lemmas.List.Edits.{sets};
ghost use Rattle.text.specs.declared.Pen.{Pen};
ghost use Rattle.text.specs.Numbers.{decimal, hex_digit, hex};
ghost use Rattle.text.specs.Writing.{Printed, in_room};
ghost use Rattle.text.specs.Way.{Wrote, Writes};
ghost use Rattle.text.specs.Lines.{field, state_and_flags, headings, line, group_line, end_line, cut_line, bad_group_line, read_start, signals, refused_line, plain_line, acm_line, iam_line};

use circuit::{Codes, Held};
use names::Refusal;

// Six numbers of 20 digits and a space each, two headings and a comma, and the line feed.
pub const LINE: usize = 132;

// The most address signals that a message can have.
const MOST_SIGNALS: usize = 15;

// What an event's line says. The refusal, the indication and the two headings, 0 for none, are octets and no enums: `event_line` has a line for
// any octets, also for those that name no refusal, indication or heading.
#[derive(Clone, Copy, Debug, PartialEq, Eq)]
pub struct Line {
    pub ordinal: u64,
    pub circuit: u16,
    pub refusal: u8,
    pub held: Held,
    pub ind: u8,
    pub first: u8,
    pub second: u8,
}

// A line that is being written, in the first octets of the lent room, and where its next octet goes.
#[derive(Drop)]
struct Pen<'a> {
    room: &'a mut [u8; LINE],
    at: usize,
}

// Each asks for the room of its own text, so no one bound serves all.
impl Pen<'_> {
    fn put(&mut self, octet: u8)
        requires { self.old.at + 1 ≤ LINE }
        ensures { Wrote self.old (octet ∷ []) 1 self.new }
    {
        self.room[self.at] = octet;
        self.at += 1;
    }

    fn word(&mut self, text: &[u8])
        requires { self.old.at + length text.now ≤ LINE }
        ensures { Wrote self.old text.now (length text.now) self.new }
    {
        let end = self.at + text.len();
        let room = &mut *self.room;
        room[self.at..end].copy_from_slice(text);
        self.at = end;
    }

    fn decimal(&mut self, n: u64)
        requires { self.old.at + 20 ≤ LINE }
        ensures { Wrote self.old (decimal n) 20 self.new }
    {
        if n < 10 {
            return self.put(b'0' + n as u8);
        }
        self.at = digits(self.room, self.at, n);
    }

    // A number and the octet behind it.
    fn number(&mut self, n: u64, behind: u8)
        requires { self.old.at + 21 ≤ LINE }
        ensures { Wrote self.old (decimal n ++ (behind ∷ [])) 21 self.new }
    {
        self.decimal(n);
        self.put(behind);
    }

    // A word, a number and the line feed.
    fn numbered(&mut self, text: &[u8], n: u64)
        requires { self.old.at + (length text.now + 21) ≤ LINE }
        ensures { Wrote self.old (text.now ++ (decimal n ++ (10 ∷ []))) (length text.now + 21) self.new }
    {
        self.word(text);
        self.number(n, b'\n');
    }

    fn field(&mut self, n: u64)
        requires { self.old.at + 21 ≤ LINE }
        ensures { Wrote self.old (field n) 21 self.new }
    {
        self.number(n, b' ');
    }

    fn hex(&mut self, octet: u8)
        requires { self.old.at + 2 ≤ LINE }
        ensures { Wrote self.old (hex octet) 2 self.new }
    {
        self.put(hex_digit(octet / 16));
        self.put(hex_digit(octet % 16));
    }

    fn headings(&mut self, first: u8, second: u8)
        requires { self.old.at + 5 ≤ LINE }
        ensures { Wrote self.old (headings first second) 5 self.new }
    {
        if first == names::NO_SIGNAL {
            return self.put(b'-');
        }
        self.hex(first);
        if second == names::NO_SIGNAL {
            return;
        }
        self.put(b',');
        self.hex(second);
    }

    fn state_and_flags(&mut self, l: Line)
        requires { self.old.at + 42 ≤ LINE }
        ensures { Wrote self.old (state_and_flags l) 42 self.new }
    {
        if l.refusal == u8::from(Refusal::NoSuchCircuit) {
            return self.word(b"- - ");
        }
        self.field(u64::from(l.held.state));
        self.field(u64::from(l.held.flags));
    }

    // The start of the line of a message that was read, up to its fields.
    fn read_start(&mut self, ordinal: u64, circuit: u32, heading: u8)
        requires { self.old.at ≡ 0 }
        ensures { Wrote self.old (read_start ordinal circuit heading) 49 self.new }
    {
        self.field(ordinal);
        self.word(b"0 0 ");
        self.field(u64::from(circuit));
        self.hex(heading);
        self.put(b' ');
    }

    // The address signals, a hexadecimal digit each.
    fn signals(&mut self, address: &[u8])
        requires { self.old.at + length address.now ≤ LINE }
        ensures { Wrote self.old (signals address.now) (length address.now) self.new }
    {
        signal_digits(self.room, self.at, address);
        self.at += address.len();
    }
}

// The digits of address signals. Room and place travel apart, as in `digits`.
fn signal_digits(room: &mut [u8; LINE], at: usize, address: &[u8])
    requires { at + length address.now ≤ LINE }
    ensures { room.new ≡ sets room.old at (signals address.now) }
{
    for (i, &signal) in address.iter().enumerate() {
        room[at + i] = hex_digit(signal % 16);
    }
}

// The digits of n: those of n / 10, and its last. Room and place travel apart: with a pen in their place, each octet of a line takes longer,
// since a pen that is lent to a call is kept in memory.
fn digits(room: &mut [u8; LINE], at: usize, n: u64) -> usize
    requires { at + length (decimal n) ≤ LINE }
    ensures place { result ≡ at + length (decimal n) }
    ensures room { room.new ≡ sets room.old at (decimal n) }
{
    if n < 10 {
        room[at] = b'0' + n as u8;
        return at + 1;
    }
    let next = digits(room, at, n / 10);
    room[next] = b'0' + (n % 10) as u8;
    next + 1
}

// By hand: `char::from_digit` answers an `Option` of a `char`.
fn hex_digit(d: u8) -> u8
    requires { d < 16 }
    ensures { result ≡ hex_digit d }
{
    if d < 10 { b'0' + d } else { b'a' - 10 + d }
}

// Lends `write` a pen at the room's start, and answers where it left the pen. Where the room has no line's octets, nothing is written.
fn written<F: FnOnce(&mut Pen<'_>)>(room: &mut [u8], write: F) -> usize
    requires { (pen : MutBor Pen) → pen.now.at ≡ 0 → F.pre write pen }
    ensures { (text : List ℕ) → Writes (λ p q. F.post write p tt q) text → Printed room.old (in_room room.old text) result room.new }
{
    let Some(room) = room.first_chunk_mut() else {
        return 0;
    };
    let mut pen = Pen { room, at: 0 };
    write(&mut pen);
    pen.at
}

// An event's line.
pub fn event_line(room: &mut [u8], l: Line) -> usize
    ensures { Printed room.old (in_room room.old (line l)) result room.new }
{
    written(
        room,
        |pen|
            requires { pen.old.at ≡ 0 }
            ensures { Wrote pen.old (line l) LINE pen.new }
        {
            pen.field(l.ordinal);
            pen.field(u64::from(l.circuit));
            pen.field(u64::from(l.refusal));
            pen.state_and_flags(l);
            pen.field(u64::from(l.ind));
            pen.headings(l.first, l.second);
            pen.put(b'\n');
        },
    )
}

// Line 1, the group.
pub fn group_line(room: &mut [u8], codes: Codes, circuits: u16) -> usize
    ensures { Printed room.old (in_room room.old (group_line codes.own.0 codes.far.0 circuits)) result room.new }
{
    written(
        room,
        |pen|
            requires { pen.old.at ≡ 0 }
            ensures { Wrote pen.old (group_line codes.own.0 codes.far.0 circuits) LINE pen.new }
        {
            pen.word(b"own ");
            pen.field(u64::from(codes.own.0));
            pen.word(b"far ");
            pen.field(u64::from(codes.far.0));
            pen.numbered(b"circuits ", u64::from(circuits));
        },
    )
}

// The last line: "end" and the number of events, "cut" and the next event's ordinal, or "bad group". These are three functions, one to each
// line that docs/RULES.md names, as the definitions `end_line`, `cut_line` and `bad_group_line` are three; each is public, and one line long.
pub fn end_line(room: &mut [u8], events: u64) -> usize
    ensures { Printed room.old (in_room room.old (end_line events)) result room.new }
{
    written(room, |pen| pen.numbered(b"end ", events))
}

pub fn cut_line(room: &mut [u8], next: u64) -> usize
    ensures { Printed room.old (in_room room.old (cut_line next)) result room.new }
{
    written(room, |pen| pen.numbered(b"cut ", next))
}

pub fn bad_group_line(room: &mut [u8]) -> usize
    ensures { Printed room.old (in_room room.old bad_group_line) result room.new }
{
    written(room, |pen| pen.word(b"bad group\n"))
}

// The line of a message that was refused. The refusal is an octet and no `Refusal`, as in `Line`: there is a line for any.
pub fn refused_line(room: &mut [u8], ordinal: u64, refusal: u8, place: u64) -> usize
    ensures { Printed room.old (in_room room.old (refused_line ordinal refusal place)) result room.new }
{
    written(
        room,
        |pen|
            requires { pen.old.at ≡ 0 }
            ensures { Wrote pen.old (refused_line ordinal refusal place) LINE pen.new }
        {
            pen.field(ordinal);
            pen.field(u64::from(refusal));
            pen.field(place);
            pen.word(b"- - -\n");
        },
    )
}

// The line of a message that was read and has no fields of its own. Ordinal, circuit and heading stand apart, here and in the two below: a
// caller has them apart, and the definitions `plain_line`, `acm_line` and `iam_line` take them so.
pub fn plain_line(room: &mut [u8], ordinal: u64, circuit: u32, heading: u8) -> usize
    ensures { Printed room.old (in_room room.old (plain_line ordinal circuit heading)) result room.new }
{
    written(
        room,
        |pen|
            requires { pen.old.at ≡ 0 }
            ensures { Wrote pen.old (plain_line ordinal circuit heading) LINE pen.new }
        {
            pen.read_start(ordinal, circuit, heading);
            pen.word(b"-\n");
        },
    )
}

// The line of an ACM, with its octet.
pub fn acm_line(room: &mut [u8], ordinal: u64, circuit: u32, heading: u8, acm: u8) -> usize
    ensures { Printed room.old (in_room room.old (acm_line ordinal circuit heading acm)) result room.new }
{
    written(
        room,
        |pen|
            requires { pen.old.at ≡ 0 }
            ensures { Wrote pen.old (acm_line ordinal circuit heading acm) LINE pen.new }
        {
            pen.read_start(ordinal, circuit, heading);
            pen.number(u64::from(acm), b'\n');
        },
    )
}

// The line of an IAM, with its category, indicators and address signals. No message has more than 15 of these: there is no line for more.
pub fn iam_line(
    room: &mut [u8],
    ordinal: u64,
    circuit: u32,
    heading: u8,
    category: u8,
    indicators: u32,
    address: &[u8],
) -> usize
    ensures { Printed room.old (in_room room.old (iam_line ordinal circuit heading category indicators address.now)) result room.new }
{
    if MOST_SIGNALS < address.len() {
        return 0;
    }
    written(
        room,
        |pen|
            requires { (pen.old.at ≡ 0) × (length address.now ≤ MOST_SIGNALS) }
            ensures { Wrote pen.old (iam_line ordinal circuit heading category indicators address.entry.now) LINE pen.new }
        {
            pen.read_start(ordinal, circuit, heading);
            pen.number(u64::from(category), b',');
            pen.number(u64::from(indicators), b',');
            pen.signals(address);
            pen.put(b'\n');
        },
    )
}
