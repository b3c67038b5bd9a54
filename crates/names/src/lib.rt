// The numbers of docs/RULES.md by name, as tup.h has them: states, flags, indications, refusals and the headings that an event sends.
#![tactic(auto)]

ghost use Rattle.std.specs.Prelude.{◌≡◌};
ghost use Rattle.names.specs.Refusal.{number_of};

// A circuit's states. Numbers and no enum: a table's octet may hold any number, and a refusal shows it as it stands (`answers::refused`).
pub const IDLE: u8 = 0;

pub const OUT_SEIZED: u8 = 1;

pub const OUT_PROCEEDING: u8 = 2;

pub const OUT_ANSWERED: u8 = 3;

pub const OUT_HUNG_UP: u8 = 4;

pub const AWAITING_RELEASE_GUARD: u8 = 5;

pub const IN_SEIZED: u8 = 6;

pub const IN_PROCEEDING: u8 = 7;

pub const IN_SUBSCRIBER_FREE: u8 = 8;

pub const IN_ANSWERED: u8 = 9;

pub const IN_HUNG_UP: u8 = 10;

pub const IN_FAILED: u8 = 11;

pub const AWAITING_RESET: u8 = 12;

// What a flag is worth in the octet of flags, which a table holds and an answer shows: numbers, as states are.
pub const OWN_BLOCK: u8 = 1;

pub const FAR_BLOCK: u8 = 2;

pub const AWAITING_BLA: u8 = 4;

pub const AWAITING_UBA: u8 = 8;

// Indications. Numbers and no enum, as headings are: each goes as it is into its octet of the answer that a host in C is given.
pub const IND_NOTHING: u8 = 0;

pub const IND_CIRCUIT_FREED: u8 = 5;

pub const IND_TRY_ELSEWHERE: u8 = 6;

pub const IND_DISCARDED: u8 = 7;

pub const IND_ALERT_MAINTENANCE: u8 = 8;

pub const IND_CALL_FAILED: u8 = 10;

// Why an event, a choice or a message is refused. Its number is the paper's, and what a host in C is told.
#[derive(Clone, Copy, Debug, PartialEq, Eq)]
pub enum Refusal {
    NoSuchGroup = 1,
    NoSuchCircuit = 2,
    NoSuchEvent = 3,
    FarBlocked = 4,
    CommandNotAllowed = 5,
    TimerNotRunning = 6,
    WrongLength = 7,
    WrongLabel = 8,
    NoSuchHeading = 9,
    WrongAddress = 10,
    OutputTooShort = 11,
    BadRecord = 12,
    CounterFull = 13,
    NoCircuit = 14,
    ShortNumber = 17,
}

impl From<Refusal> for u8 {
    ghost from_gives = { λ r n. n ≡ number_of r };

    fn from(r: Refusal) -> u8 {
        r as u8
    }
}

// What an answer says where nothing is refused.
pub const ACCEPTED: u8 = 0;

// Headings; 0 stands for no signal.
pub const NO_SIGNAL: u8 = 0;

pub const IAM: u8 = 0x11;

pub const ACM: u8 = 0x14;

pub const ANC: u8 = 0x16;

pub const ANN: u8 = 0x26;

pub const CBK: u8 = 0x36;

pub const CLF: u8 = 0x46;

pub const RAN: u8 = 0x56;

pub const RLG: u8 = 0x17;

pub const BLO: u8 = 0x27;

pub const BLA: u8 = 0x37;

pub const UBL: u8 = 0x47;

pub const UBA: u8 = 0x57;

pub const RSC: u8 = 0x77;

pub const CFL: u8 = 0x55;
