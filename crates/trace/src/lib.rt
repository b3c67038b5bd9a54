// The replay of a trace (docs/RULES.md, "The trace and its replay"): it is fed the trace in parts, and writes its lines into lent room.
// The table is the group's, all zero before the first event.
#![tactic(auto)]

ghost use Rattle.std.specs.Prelude.{◌≡◌, ◌≤◌, List, ℕ, length};
ghost use Rattle.words.specs.Octets.{over};
ghost use Rattle.parts.specs.Feed.{answer_of, fed, Within};
ghost use Rattle.trace.specs.Replay.{replaying, table_octets};
ghost use Rattle.trace.specs.Way.{word_line, numbers_of};

use circuit::Cic;
use codes::Numbers;
use parts::{Fed, Kind, Running, Stage, Turn};
use records::{Item, Reader, Recorded};
use text::Line;

// The most circuits that a group has, and the octets of their table. For circuit and layout the definitions `bad_group` and `bad_length` hold the
// first, each in its own file.
const MOST_CIRCUITS: u16 = 4096;

pub const MOST_TABLE_OCTETS: usize = 40968;

// A trace is one kind of file: its records are events, and the group's table goes along from event to event.
pub struct Replay;

// An event's line, from the number that was answered.
fn line_of(ordinal: u64, circuit: u16, answer: u64) -> Line
    ensures { result ≡ word_line ordinal circuit answer }
{
    let answers::Fields {
        refusal,
        ind,
        held,
        first,
        second,
    } = answers::fields_of(answer);
    Line {
        ordinal,
        circuit,
        refusal,
        held,
        ind,
        first,
        second,
    }
}

// An event's numbers, as a host gives them.
fn numbers_of(e: Recorded) -> Numbers
    ensures { result ≡ numbers_of e }
{
    Numbers {
        kind: u32::from(e.kind),
        code: u32::from(e.code),
        detail: u32::from(e.detail),
    }
}

impl Kind for Replay {
    ghost State = { List ℕ };

    ghost state_in = { λ table. table };

    ghost making = { replaying };

    fn is_lawful() {}

    // An event happens in the group, and its line is written.
    fn turn(table: &mut [u8], r: Running, part: &[u8], room: &mut [u8]) -> Option<Turn> {
        if room.len() < text::LINE {
            return None;
        }
        let reader = Reader::new(part);
        let Item::Event(e) = reader.here() else {
            return None;
        };
        let taken = reader.next().at;
        let cic = Cic(u32::from(e.circuit));
        let answer = group::step(r.group.codes, table, cic, numbers_of(e));
        let written = text::event_line(room, line_of(r.next, e.circuit, answer));
        Some(Turn { taken, written })
    }

    fn starts_none(part: &[u8]) -> bool {
        matches!(Reader::new(part).here(), Item::NoEvent)
    }
}

// A replay goes on with the next part of its trace, which starts at the first octet that was not taken yet.
pub fn feed(stage: Stage, table: &mut [u8], part: &[u8], room: &mut [u8]) -> Fed
    ensures answers { result ≡ answer_of (fed replaying stage table.old part.now (length room.old)) }
    ensures leaves { table.new ≡ (fed replaying stage table.old part.now (length room.old)).state }
    ensures writes { room.new ≡ over (fed replaying stage table.old part.now (length room.old)).text room.old }
    ensures within { Within result part.now room.old }
{
    parts::feed::<Replay>(table, stage, part, room)
}

// The octets of the table that the group needs.
pub fn table_octets(stage: Stage) -> usize
    ensures value { result ≡ table_octets stage }
    ensures upper_bound { result ≤ MOST_TABLE_OCTETS }
{
    match stage {
        Stage::Runs(r) => layout::table_octets(u32::from(r.group.circuits.min(MOST_CIRCUITS))),
        _ => 0,
    }
}
