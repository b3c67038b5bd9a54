// The words of docs/RULES.md: point code and circuit number, a circuit's record, signals, commands, timers and events, what an
// event answers, and a row of a printed table. No rule of the gateway stands here: those are in `signals`, `commands` and `step`.
#![tactic(auto)]

ghost use Rattle.std.specs.Prelude.{◌≡◌, ◌&&◌, ◌||◌};
ghost use Rattle.circuit.specs.Groups.{bad_code, bad_codes, bad_group, lowest, controls};

// A point code (0..16383) and a circuit number (CIC, 0..4095) are separate things: one never stands for the other. Each holds any 32-bit
// number, so that a number which is out of range arrives here as it is and is refused.
#[derive(Clone, Copy, Debug, PartialEq, Eq)]
pub struct PointCode(pub u32);

#[derive(Clone, Copy, Debug, PartialEq, Eq)]
pub struct Cic(pub u32);

// A circuit's record: the state by its number, and the flags 1 own block, 2 far block, 4 awaiting BLA, 8 awaiting UBA. This, what is sent, an
// outcome and a row are what the definitions speak of; the program holds a record as two octets.
#[derive(Clone, Copy, Debug, PartialEq, Eq)]
pub struct Record {
    pub state: u8,
    pub own: bool,
    pub far: bool,
    pub bla: bool,
    pub uba: bool,
}

// The signals of an unsuccessful call.
#[derive(Clone, Copy, Debug, PartialEq, Eq)]
pub enum Failure {
    Sec,
    Cgc,
    Nnc,
    Adi,
    Cfl,
    Ssb,
    Unn,
    Los,
    Sst,
}

// A signal with its particulars: ACM has an octet, and the failures share a case.
#[derive(Clone, Copy, Debug, PartialEq, Eq)]
pub enum Signal {
    Iam,
    Acm(u8),
    Anc,
    Ann,
    Cbk,
    Clf,
    Ran,
    Rlg,
    Blo,
    Bla,
    Ubl,
    Uba,
    Rsc,
    Fail(Failure),
}

// The type of address complete that the two lowest bits of its octet name, in their order (Q.723).
#[derive(Clone, Copy, Debug, PartialEq, Eq)]
pub enum AddressType {
    Plain,
    Charge,
    NoCharge,
    Payphone,
}

#[derive(Clone, Copy, Debug, PartialEq, Eq)]
pub enum Charging {
    Charged,
    Free,
}

// A command with its detail: address complete says its type and whether the subscriber is free, an answer whether it is charged.
#[derive(Clone, Copy, Debug, PartialEq, Eq)]
pub enum Command {
    Seize,
    Release,
    AddressComplete(AddressType, bool),
    Answer(Charging),
    ClearBack,
    ReAnswer,
    FailCall(Failure),
    Block,
    Unblock,
    Restart,
}

#[derive(Clone, Copy, Debug, PartialEq, Eq)]
pub enum Timer {
    AddressWait,
    AnswerWait,
    IncomingHangUp,
    Repeat,
    OneMinute,
    BlockRepeat,
}

// An event is a signal, a command or a timer, each with its own particulars.
#[derive(Clone, Copy, Debug, PartialEq, Eq)]
pub enum Event {
    Arrives(Signal),
    Ordered(Command),
    RunsOut(Timer),
}

// What an event sends: at most two signals, in order. The definitions of specs/ go by these three cases.
#[derive(Clone, Copy, Debug, PartialEq, Eq)]
pub enum Sends {
    Nothing,
    One(Signal),
    Two(Signal, Signal),
}

// What an event answers: the refusal's number, 0 where there is none; the record after it; the signals; the indication. A number and no Result, since
// the definitions alone speak of it, in the paper's numbers; the program answers one number (`answers`).
#[derive(Clone, Copy, Debug, PartialEq, Eq)]
pub struct Outcome {
    pub refusal: u8,
    pub after: Record,
    pub sends: Sends,
    pub ind: u8,
}

// A row of a printed table: its first and its last state, its further condition; what is sent, the new record, the indication. No field has
// a name, since the definitions alone speak of rows, and write them as the paper prints them.
#[derive(Clone, Copy, Debug, PartialEq, Eq)]
pub struct Row(pub u8, pub u8, pub bool, pub Sends, pub Record, pub u8);

// What is held of a circuit, as it lies in a table: the state and the flags, an octet each. Not every two octets are a record.
#[derive(Clone, Copy, Debug, PartialEq, Eq)]
pub struct Held {
    pub state: u8,
    pub flags: u8,
}

// The two point codes of a group: our own, and that of the far end.
#[derive(Clone, Copy, Debug, PartialEq, Eq)]
pub struct Codes {
    pub own: PointCode,
    pub far: PointCode,
}

fn bad_code(code: PointCode) -> bool
    ensures { result ≡ bad_code code.0 }
{
    16383 < code.0
}

impl Codes {
    // Whether the two are no group's: one is too large, or they are equal.
    pub fn are_bad(self) -> bool
        ensures { result ≡ bad_codes self.own.0 self.far.0 }
    {
        bad_code(self.own) || bad_code(self.far) || self.own == self.far
    }

    // Whether a group of so many records is refused 1: by its codes, or by that number.
    pub fn bad_group(self, records: usize) -> bool
        ensures { result ≡ bad_group self.own.0 self.far.0 records }
    {
        self.are_bad() || records == 0 || 4096 < records
    }

    // The lowest circuit that our end controls: it controls every second one from there on (Q.724, 2.5).
    pub fn lowest(self) -> u32
        ensures { result ≡ lowest self.own.0 self.far.0 }
    {
        if self.far.0 < self.own.0 { 0 } else { 1 }
    }

    // Whether our end controls the circuit.
    pub fn control(self, cic: Cic) -> bool
        ensures { result ≡ controls self.own.0 self.far.0 cic.0 }
    {
        cic.0 % 2 == self.lowest()
    }
}
