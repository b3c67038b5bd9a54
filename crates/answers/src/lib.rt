// What an event on a circuit answers, in one number: an octet to a field. It is made here, and its fields are read back here.
#![tactic(auto)]

ghost use Rattle.std.specs.Prelude.{◌≡◌, ◌/◌, ◌%◌};
ghost use Rattle.answers.specs.Answers.{word};

use circuit::Held;

// The fields of an answer. Numbers, since they are its octets as they were read back; a heading of 0 stands for no signal.
#[derive(Clone, Copy, Debug, PartialEq, Eq)]
pub struct Fields {
    pub refusal: u8,
    pub ind: u8,
    pub held: Held,
    pub first: u8,
    pub second: u8,
}

// An answer by its fields: all are numbers, since the answer is what `tup_step` gives a host in C, with 0 for no refusal and for no signal.
// Any numbers may be passed.
pub fn answer(refusal: u8, ind: u8, held: Held, first: u8, second: u8) -> u64
    ensures { result ≡ word refusal ind held.state held.flags first second }
{
    let Held { state, flags } = held;
    u64::from_le_bytes([refusal, ind, state, flags, first, second, 0, 0])
}

// A refusal sends nothing, gives indication 0 and shows the record as it stands.
pub fn refused(n: u8, held: Held) -> u64
    ensures { result ≡ word n 0 held.state held.flags 0 0 }
{
    answer(
        n,
        names::IND_NOTHING,
        held,
        names::NO_SIGNAL,
        names::NO_SIGNAL,
    )
}

// An event that is taken and sends one signal, or none.
pub fn sent(heading: u8, held: Held, ind: u8) -> u64
    ensures { result ≡ word 0 ind held.state held.flags heading 0 }
{
    answer(names::ACCEPTED, ind, held, heading, names::NO_SIGNAL)
}

// The fields that an answer was made of.
pub fn fields_of(answer: u64) -> Fields
    ensures refusal { result.refusal ≡ answer % 256 }
    ensures ind { result.ind ≡ answer / 0x100 % 256 }
    ensures state { result.held.state ≡ answer / 0x10000 % 256 }
    ensures flags { result.held.flags ≡ answer / 0x1000000 % 256 }
    ensures first { result.first ≡ answer / 0x100000000 % 256 }
    ensures second { result.second ≡ answer / 0x10000000000 % 256 }
{
    let [refusal, ind, state, flags, first, second, _, _] = answer.to_le_bytes();
    Fields {
        refusal,
        ind,
        held: Held { state, flags },
        first,
        second,
    }
}

// A number, 0 where nothing was refused, as in the answer.
pub fn refusal_of(answer: u64) -> u8
    ensures { result ≡ answer % 256 }
{
    fields_of(answer).refusal
}

// What is held of the circuit after the event.
pub fn held_of(answer: u64) -> Held
    ensures state { result.state ≡ answer / 0x10000 % 256 }
    ensures flags { result.flags ≡ answer / 0x1000000 % 256 }
{
    fields_of(answer).held
}
