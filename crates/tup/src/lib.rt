// The entries for a host in C, on numbers and octets, which `tup_c` exports. Every number crosses as 32 bits and is tested inside, so that none is
// cut to fit. Parameters and answers are single numbers, as include/tup.h declares them; what travels together is put together inside.
// A refusal goes into them by `as`, since From would go by its octet and then by that octet's number.
#![tactic(auto)]

ghost use Rattle.std.specs.Prelude.{◌≡◌, ◌<◌, ◌≤◌, length, Ok};
ghost use Rattle.codes.specs.Numbers.{event_of};
ghost use Rattle.names.specs.Refusal.{number_of};
ghost use Rattle.words.specs.Octets.{over};
ghost use Rattle.answers.specs.Answers.{packed, Unpacked};
ghost use Rattle.group.specs.Table.{step_in};
ghost use Rattle.select.specs.Selection.{select_in, told as selected};
ghost use Rattle.reader.specs.Told.{told as read};
ghost use Rattle.writer.specs.Writing.{said};
ghost use Rattle.tup.specs.Packed.{packed_choice, ChoiceUnpacked};
ghost use Rattle.tup.specs.Entries.{codes_of, fields_octets, packed_refusal, read_into, write_from};

use circuit::{Cic, Codes, PointCode};
use codes::Numbers;
use names::Refusal;
use reader::{Fault, Fields};
use select::Choice;
use writer::Draft;

// The octets that the fields of a message take.
const FIELDS_OCTETS: usize = 23;

// The most that a place can be behind the eight bits of a refusal.
const MOST_PLACE: u64 = 0xffffffffffffff;

// The codes of a group, as a host gives them.
fn codes_of(own: u32, far: u32) -> Codes
    ensures { result ≡ codes_of own far }
{
    Codes {
        own: PointCode(own),
        far: PointCode(far),
    }
}

// An event on a circuit of a group: own and far point code, the group's table of records, the circuit; the event by its kind (1 signal,
// 2 command, 3 timer), its code and its detail. The answer is packed into one number.
pub fn tup_step(
    own: u32,
    far: u32,
    table: &mut [u8],
    cic: u32,
    kind: u32,
    code: u32,
    detail: u32,
) -> u64
    ensures answers { result ≡ packed (step_in own far table.old cic (event_of kind code detail)).answer }
    ensures unpacks { Unpacked result (step_in own far table.old cic (event_of kind code detail)).answer }
    ensures leaves { table.new ≡ (step_in own far table.old cic (event_of kind code detail)).table }
{
    let numbers = Numbers { kind, code, detail };
    group::step(codes_of(own, far), table, Cic(cic), numbers)
}

fn pack_choice(chosen: Result<Choice, Refusal>) -> u64
    requires { ((selected chosen).cic.0 < 4096) × ((selected chosen).looked ≤ 4096) }
    ensures packs { result ≡ packed_choice (selected chosen) }
    ensures unpacks { ChoiceUnpacked result (selected chosen) }
{
    match chosen {
        Ok(choice) => 0x10000 * (u64::from(choice.cic.0) + 0x10000 * u64::from(choice.looked)),
        Err(refusal) => refusal as u64,
    }
}

// Which circuit of a group to seize, and how many records were looked at, packed into one number. Nothing is seized.
pub fn tup_select(own: u32, far: u32, table: &[u8]) -> u64
    ensures answers { result ≡ packed_choice (select_in own far table.now) }
    ensures unpacks { ChoiceUnpacked result (select_in own far table.now) }
{
    pack_choice(select::select(codes_of(own, far), table))
}

// The fields of a message at the start of a buffer: circuit and indicators in two octets each, lowest first.
fn put_fields(f: Fields, out: &mut [u8])
    requires { 23 ≤ length out.old }
    ensures { out.new ≡ over (fields_octets (read (Ok f))) out.old }
{
    out[..2].copy_from_slice(&f.circuit.0.to_le_bytes()[..2]);
    out[2] = f.heading;
    out[3] = f.acm;
    out[4] = f.category;
    out[5..7].copy_from_slice(&f.indicators.to_le_bytes()[..2]);
    out[7] = f.count;
    out[8..FIELDS_OCTETS].copy_from_slice(&f.address);
}

// The refusal of a message and its place in one number.
fn pack_refusal(fault: Fault) -> u64
    ensures { result ≡ packed_refusal (number_of fault.refusal) fault.place }
{
    fault.refusal as u64 + 256 * fault.place.min(MOST_PLACE)
}

// Reads a message from its label on, in a group of `count` circuits. The answer is the refusal and 256 times its place; where it is 0 the fields
// go to the first 23 octets of `out`.
pub fn tup_read(own: u32, far: u32, count: u32, octets: &[u8], out: &mut [u8]) -> u64
    ensures answers { result ≡ (read_into own far count octets.now out.old).answer }
    ensures leaves { out.new ≡ (read_into own far count octets.now out.old).buffer }
{
    let fields = match reader::read_fields(codes_of(own, far), count as usize, octets) {
        Ok(fields) => fields,
        Err(fault) => return pack_refusal(fault),
    };
    if out.len() < FIELDS_OCTETS {
        return Refusal::OutputTooShort as u64;
    }
    put_fields(fields, out);
    0
}

// Writes a message. The answer is the refusal and 256 times the length.
pub fn tup_write(
    own: u32,
    far: u32,
    count: u32,
    cic: u32,
    heading: u32,
    acm: u32,
    category: u32,
    indicators: u32,
    address: &[u8],
    out: &mut [u8],
) -> u32
    ensures answers { result ≡ (write_from own far count (said cic heading acm category indicators address.now) out.old).answer }
    ensures leaves { out.new ≡ (write_from own far count (said cic heading acm category indicators address.now) out.old).buffer }
{
    let m = Draft {
        cic: Cic(cic),
        heading,
        acm,
        category,
        indicators,
        address,
    };
    match writer::write(codes_of(own, far), count as usize, m, out) {
        Ok(length) => 256 * u32::from(length),
        Err(refusal) => refusal as u32,
    }
}
