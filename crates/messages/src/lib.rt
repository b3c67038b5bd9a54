// A file of messages as they arrived on a link (docs/RULES.md, "A file of messages"), made into lines: it is fed in parts, and a line
// for each message is written into lent room.
#![tactic(auto)]

ghost use Rattle.std.specs.Prelude.{◌≡◌, ◌+◌, ◌<◌, ◌≤◌, ◌↔◌, length, IsNone, IfSome, Ok};
ghost use Rattle.words.specs.Octets.{over};
ghost use Rattle.text.specs.Writing.{Printed, in_room};
ghost use Rattle.reader.specs.Told.{told};
ghost use Rattle.reader.specs.Reading.{fields_of};
ghost use Rattle.records.specs.Records.{octet};
ghost use Rattle.parts.specs.Whole.{Stateless, no_state};
ghost use Rattle.parts.specs.Feed.{answer_of, fed, Within};
ghost use Rattle.messages.specs.Listing.{iam_line_of, read_line, message_line, message_in, per_message};

use parts::{Fed, Kind, Running, Stage, Turn};
use reader::Fields;
use records::Group;

// A file of messages is one kind of file: its records are messages, and nothing goes along from one to the next.
pub struct Listing;

// The line of an IAM.
fn iam_line(room: &mut [u8], ordinal: u64, f: Fields) -> usize
    requires { f.count ≤ length f.address }
    ensures { Printed room.old (in_room room.old (iam_line_of ordinal (told (Ok f)))) result room.new }
{
    let count = usize::from(f.count);
    text::iam_line(
        room,
        ordinal,
        f.circuit.0,
        f.heading,
        f.category,
        f.indicators,
        &f.address[..count],
    )
}

// The line of a message that was read.
fn read_line(room: &mut [u8], ordinal: u64, f: Fields) -> usize
    requires { f.count ≤ length f.address }
    ensures { Printed room.old (in_room room.old (read_line ordinal (told (Ok f)))) result room.new }
{
    match f.heading {
        names::IAM => iam_line(room, ordinal, f),
        names::ACM => text::acm_line(room, ordinal, f.circuit.0, f.heading, f.acm),
        _ => text::plain_line(room, ordinal, f.circuit.0, f.heading),
    }
}

// The line of a message, by what the reader answers in the group of the file.
fn message_line(room: &mut [u8], ordinal: u64, g: Group, octets: &[u8]) -> usize
    ensures { Printed room.old (in_room room.old (message_line ordinal (fields_of g.codes.own.0 g.codes.far.0 g.circuits octets.now))) result room.new }
{
    match reader::read_fields(g.codes, usize::from(g.circuits), octets) {
        Ok(f) => read_line(room, ordinal, f),
        Err(e) => text::refused_line(room, ordinal, u8::from(e.refusal), e.place),
    }
}

// The message at the start, behind the octet that says how long it is, where it stands there whole.
fn whole_message(part: &[u8]) -> Option<&[u8]>
    ensures none { IsNone result ↔ (length part.now < 1 + octet part.now 0) }
    ensures message { IfSome result (λ octets. octets.now ≡ message_in part.now) }
{
    let (&n, rest) = part.split_first()?;
    rest.get(..usize::from(n))
}

impl Kind for Listing {
    ghost State = { Stateless };

    ghost state_in = { λ lent. no_state };

    ghost making = { per_message };

    fn is_lawful() {}

    fn turn(_lent: &mut [u8], r: Running, part: &[u8], room: &mut [u8]) -> Option<Turn> {
        if room.len() < text::LINE {
            return None;
        }
        let octets = whole_message(part)?;
        let written = message_line(room, r.next, r.group, octets);
        Some(Turn {
            taken: 1 + octets.len(),
            written,
        })
    }

    fn starts_none(_part: &[u8]) -> bool {
        false
    }
}

// The list goes on with the next part of its file, which starts at the first octet that was not taken yet.
pub fn feed(stage: Stage, part: &[u8], room: &mut [u8]) -> Fed
    ensures answers { result ≡ answer_of (fed per_message stage no_state part.now (length room.old)) }
    ensures writes { room.new ≡ over (fed per_message stage no_state part.now (length room.old)).text room.old }
    ensures within { Within result part.now room.old }
{
    parts::feed::<Listing>(&mut [], stage, part, room)
}
