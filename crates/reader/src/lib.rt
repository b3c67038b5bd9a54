// The reader of messages on the link (docs/RULES.md, "Messages on the link"; Q.723): octets that arrived, as a message or as the refusal of one.
#![tactic(auto)]

ghost use Rattle.std.specs.Prelude.{◌≡◌, cond, eqb, ◌+◌, ◌/◌, ◌%◌, ◌≤◌, ◌^◌, length, get_or, drop, take, Some, None, Err};
ghost use Rattle.names.specs.Refusal.{number_of};
ghost use Rattle.words.specs.Octets.{over};
ghost use Rattle.formats.specs.Messages.{half, iam_heading};
ghost use Rattle.formats.specs.Way.{halves};
ghost use Rattle.reader.specs.Places.{cic_in};
ghost use Rattle.reader.specs.Told.{no_codes, refused, told, told_message};
ghost use Rattle.reader.specs.Reading.{fields_of, reading};
ghost use Rattle.reader.specs.Way.{body_of};

use circuit::{Cic, Codes, Signal};
use names::Refusal;

// The two octets of an IAM's indicators and count have a spare bit, and ACM's octet and IAM's category have two: what they say lies below.
const SPARE_INDICATOR: u64 = 2048;

const SPARE_BITS: u8 = 64;

// A message by numbers: circuit, heading, ACM's octet, IAM's category, indicators and count, and its address signals. A field that the heading does
// not have is 0, and so is each code from the count on: `fields_from`, their definition, has it so. A count and an array of fifteen, since there is
// no heap.
#[derive(Clone, Copy, Debug, PartialEq, Eq)]
pub struct Fields {
    pub circuit: Cic,
    pub heading: u8,
    pub acm: u8,
    pub category: u8,
    pub indicators: u32,
    pub count: u8,
    pub address: [u8; 15],
}

// What a message says. The address stands beside the signal and not in it (docs/DECISIONS.md, D102), and so do the other fields that only an
// IAM has, 0 in any other message, as in the definition `message_of`. Count and array are as in `Fields`.
#[derive(Clone, Copy, Debug, PartialEq, Eq)]
pub struct Message {
    pub circuit: Cic,
    pub signal: Signal,
    pub category: u8,
    pub indicators: u32,
    pub count: u8,
    pub address: [u8; 15],
}

// Why octets are no message, and where that shows: the position of an octet, of a wrong length the length itself, and where there is no group 0.
#[derive(Clone, Copy, Debug, PartialEq, Eq)]
pub struct Fault {
    pub refusal: Refusal,
    pub place: u64,
}

impl Fault {
    fn new(refusal: Refusal, place: u64) -> Fault
        ensures { told (Err result) ≡ refused (number_of refusal) place }
    {
        Fault { refusal, place }
    }
}

// The address signal at a place, of the octet that holds it.
fn half_of(octet: u8, place: usize) -> u8
    ensures { result ≡ cond (eqb (place % 2) 0) (octet % 16) (octet / 16) }
{
    if place % 2 == 0 {
        octet % 16
    } else {
        octet / 16
    }
}

// The address signals of an IAM, two of an octet. The loop goes by index: of what it wrote through an adapter of iter_mut a proof would know
// nothing. Signal by signal the compiler makes vectors of two, which take several times the instructions.
fn codes_in(octets: &[u8], count: usize) -> [u8; 15]
    requires { (count ≤ 15) × (9 + half count ≤ length octets.now) }
    ensures { result ≡ over (take count (halves (drop 9 octets.now))) no_codes }
{
    let mut codes = [0; 15];
    for i in (0..count).step_by(2) {
        let octet = octets[formats::IAM_OCTETS + i / 2];
        codes[i] = half_of(octet, i);
        if i + 1 < count {
            codes[i + 1] = half_of(octet, i + 1);
        }
    }
    codes
}

// A length refusal names the length that arrived.
fn wrong_length(octets: &[u8]) -> Fault
    ensures { told (Err result) ≡ refused 7 (length octets.now) }
{
    Fault::new(Refusal::WrongLength, octets.len() as u64)
}

// An IAM whose label is in order.
fn read_iam(records: usize, circuit: Cic, octets: &[u8]) -> Result<Fields, Fault>
    requires { circuit.0 ≡ cic_in octets.now }
    ensures { told result ≡ body_of records iam_heading octets.now }
{
    if octets.len() < formats::IAM_OCTETS {
        return Err(wrong_length(octets));
    }
    let word = u64::from(u16::from_le_bytes([octets[7], octets[8]]));
    let count = (word / formats::COUNT_PLACE) as usize;
    if count == 0 {
        return Err(Fault::new(Refusal::WrongAddress, formats::COUNT_OCTET));
    }
    if octets.len() != formats::IAM_OCTETS + (count + 1) / 2 {
        return Err(wrong_length(octets));
    }
    let address = codes_in(octets, count);
    if let Some(bad) = formats::first_bad(&address[..count]) {
        return Err(Fault::new(
            Refusal::WrongAddress,
            (formats::IAM_OCTETS + bad / 2) as u64,
        ));
    }
    let indicators = (word % SPARE_INDICATOR) as u32;
    if formats::short(indicators, &address[..count]) {
        return Err(Fault::new(Refusal::ShortNumber, formats::COUNT_OCTET));
    }
    if records <= circuit.0 as usize {
        return Err(Fault::new(Refusal::NoSuchCircuit, formats::CIC_OCTET));
    }
    Ok(Fields {
        circuit,
        heading: names::IAM,
        acm: 0,
        category: octets[6] % SPARE_BITS,
        indicators,
        count: count as u8,
        address,
    })
}

// A message whose label is in order.
fn read_body(records: usize, circuit: Cic, octets: &[u8]) -> Result<Fields, Fault>
    requires { (6 ≤ length octets.now) × (circuit.0 ≡ cic_in octets.now) }
    ensures { told result ≡ body_of records (get_or octets.now 5 0) octets.now }
{
    let heading = octets[5];
    if heading == names::IAM {
        return read_iam(records, circuit, octets);
    }
    let Some(fixed) = formats::fixed_length(u32::from(heading)) else {
        return Err(Fault::new(Refusal::NoSuchHeading, formats::HEADING_OCTET));
    };
    if octets.len() != fixed {
        return Err(wrong_length(octets));
    }
    if records <= circuit.0 as usize {
        return Err(Fault::new(Refusal::NoSuchCircuit, formats::CIC_OCTET));
    }
    let acm = if heading == names::ACM {
        octets[6] % SPARE_BITS
    } else {
        0
    };
    Ok(Fields {
        circuit,
        heading,
        acm,
        category: 0,
        indicators: 0,
        count: 0,
        address: [0; 15],
    })
}

// Where a label is wrong that is not for us from the far end: at DPC, and where that is right at OPC.
fn stray_octet(codes: Codes, label: u64) -> Option<u64>
    ensures { result ≡ cond (eqb (label % 2 ^ 14) codes.own.0) (cond (eqb (label / 2 ^ 14 % 2 ^ 14) codes.far.0) None (Some 1)) (Some 0) }
{
    if label % formats::OPC_PLACE != u64::from(codes.own.0) {
        Some(formats::DPC_OCTET)
    } else if label / formats::OPC_PLACE % formats::OPC_PLACE != u64::from(codes.far.0) {
        Some(formats::OPC_OCTET)
    } else {
        None
    }
}

// What the octets that arrived from the far end say by numbers, in a group with so many records.
pub fn read_fields(codes: Codes, records: usize, octets: &[u8]) -> Result<Fields, Fault>
    ensures { told result ≡ fields_of codes.own.0 codes.far.0 records octets.now }
{
    if codes.bad_group(records) {
        return Err(Fault::new(Refusal::NoSuchGroup, 0));
    }
    if octets.len() < formats::PLAIN_OCTETS {
        return Err(wrong_length(octets));
    }
    let label = words::number(
        octets[0], octets[1], octets[2], octets[3], octets[4], 0, 0, 0,
    );
    if let Some(octet) = stray_octet(codes, label) {
        return Err(Fault::new(Refusal::WrongLabel, octet));
    }
    read_body(records, Cic((label / formats::CIC_PLACE) as u32), octets)
}

// The same as a message that names its signal.
pub fn read(codes: Codes, records: usize, octets: &[u8]) -> Result<Message, Fault>
    ensures { told_message result ≡ reading codes.own.0 codes.far.0 records octets.now }
{
    let Fields {
        circuit,
        heading,
        acm,
        category,
        indicators,
        count,
        address,
    } = read_fields(codes, records, octets)?;
    let signal = codes::signal_of(u32::from(heading), acm).unwrap();
    Ok(Message {
        circuit,
        signal,
        category,
        indicators,
        count,
        address,
    })
}
