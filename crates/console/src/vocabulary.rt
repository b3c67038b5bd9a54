// The words of the named form: what a column of the lines holds, and the words for its numbers.
use std::io;
use std::io::Write;

// What a column of the lines holds: numbers that have no words, or those of refusals, states, flags, indications or headings. All are
// decimal but for headings, which are hexadecimal.
#[derive(Clone, Copy, Debug, PartialEq, Eq)]
pub(crate) enum Column {
    Plain,
    Refusal,
    State,
    Flags,
    Indication,
    Heading,
}

// The words of a column in the order of their numbers, 0 first; a number that is not in use has its digits there.
const REFUSALS: &[&str] = &[
    "accepted",
    "no-such-group",
    "no-such-circuit",
    "no-such-event",
    "far-blocked",
    "command-not-allowed",
    "timer-not-running",
    "wrong-length",
    "wrong-label",
    "no-such-heading",
    "wrong-address",
    "output-too-short",
    "bad-record",
    "counter-full",
    "no-circuit",
    "15",
    "16",
    "short-number",
];

const STATES: &[&str] = &[
    "idle",
    "outgoing-seized",
    "outgoing-proceeding",
    "outgoing-answered",
    "outgoing-hung-up",
    "awaiting-release-guard",
    "incoming-seized",
    "incoming-proceeding",
    "incoming-subscriber-free",
    "incoming-answered",
    "incoming-hung-up",
    "incoming-failed",
    "awaiting-reset",
];

const INDICATIONS: &[&str] = &[
    "nothing",
    "incoming-call",
    "address-complete",
    "answered",
    "hung-up",
    "circuit-freed",
    "try-elsewhere",
    "discarded",
    "alert-maintenance",
    "incoming-call-and-try-elsewhere",
    "call-failed",
];

// The words of the flags, each with what it is worth.
const FLAGS: [(u8, &str); 4] = [
    (names::OWN_BLOCK, "own-block"),
    (names::FAR_BLOCK, "far-block"),
    (names::AWAITING_BLA, "awaiting-BLA"),
    (names::AWAITING_UBA, "awaiting-UBA"),
];

// One more than the four flags together are worth.
const FLAGS_END: u8 = 16;

// A heading is H0 + 16 * H1: the headings of one H0 by their H1. No heading has an H1 of 0.
fn headings(h0: usize) -> &'static [&'static str] {
    match h0 {
        1 => &["-", "IAM"],
        4 => &["-", "ACM"],
        5 => &[
            "-", "SEC", "CGC", "NNC", "ADI", "CFL", "SSB", "UNN", "LOS", "SST",
        ],
        6 => &["-", "ANC", "ANN", "CBK", "CLF", "RAN"],
        7 => &["-", "RLG", "BLO", "BLA", "UBL", "UBA", "-", "RSC"],
        _ => &[],
    }
}

// The flags that are set, with a comma between two.
fn write_flags(flags: u8, room: &mut impl Write) -> io::Result<()> {
    if flags == 0 {
        return room.write_all(b"-");
    }
    let mut between: &[u8] = b"";
    for (flag, word) in FLAGS {
        if flags & flag != 0 {
            room.write_all(between)?;
            room.write_all(word.as_bytes())?;
            between = b",";
        }
    }
    Ok(())
}

// What a digit of the base is worth; `None` for any other octet.
fn value(octet: u8, base: u8) -> Option<u8> {
    let value = match octet {
        b'0'..=b'9' => octet - b'0',
        b'a'..=b'f' => octet - b'a' + 10,
        _ => return None,
    };
    (value < base).then_some(value)
}

impl Column {
    // The number that digits say; none where they are none, or say more than an octet holds. Digit by digit: `u8::from_str_radix` would have the
    // octets tested for text first.
    fn number(self, digits: &[u8]) -> Option<u8> {
        let base = if self == Column::Heading { 16 } else { 10 };
        let (&first, rest) = digits.split_first()?;
        rest.iter().try_fold(value(first, base)?, |n, &octet| {
            n.checked_mul(base)?.checked_add(value(octet, base)?)
        })
    }

    // The word for a number that has one of its own.
    fn word(self, number: u8) -> Option<&'static str> {
        let n = usize::from(number);
        match self {
            Column::Refusal => REFUSALS.get(n).copied(),
            Column::State => STATES.get(n).copied(),
            Column::Indication => INDICATIONS.get(n).copied(),
            Column::Heading => headings(n % 16).get(n / 16).copied(),
            Column::Plain | Column::Flags => None,
        }
    }

    // Writes the word for the number that digits say. A number that has no word keeps its digits.
    pub(crate) fn write(self, digits: &[u8], room: &mut impl Write) -> io::Result<()> {
        let Some(number) = self.number(digits) else {
            return room.write_all(digits);
        };
        if self == Column::Flags && number < FLAGS_END {
            return write_flags(number, room);
        }
        room.write_all(self.word(number).map_or(digits, |word| word.as_bytes()))
    }
}
