// The call part of the rows for signals (docs/RULES.md, "Signals that arrive") as one constant table: state, role and signal to the new
// state, the signal sent and the indication. Block and unblock are in `marks`.
#![tactic(auto)]

ghost use Rattle.std.specs.Prelude.{◌≡◌, ◌≤◌};
ghost use Rattle.calls.specs.Calls.{meaning, on_call};
ghost use Rattle.calls.specs.Way.{column_of};

use circuit::Signal;

// What a signal does to the call: the new state, the heading of what is sent, 0 for nothing, and the indication.
// Numbers and no Option: each goes as it is into its octet of the answer, where a host in C reads 0 for no signal, and
// `call` of specs/Calls has 0 for none.
#[derive(Clone, Copy, Debug, PartialEq, Eq)]
pub struct Call {
    pub state: u8,
    pub sends: u8,
    pub ind: u8,
}

// A column a signal, in the order in which docs/RULES.md lists the headings; a line an entry: its signal, its state, and whether our end controls the
// circuit (c) or not (n). The first digit is the new state; the second is the indication where nothing is sent, and a is CLF with 10, b CLF with 6,
// c RLG with 0, d RLG with 5, e RLG with 6. An entry is no struct, since two digits on a line can be read beside the paper.
static CALLS: [[u8; 26]; 14] = [
    [
        0x61, // IAM in 0 c
        0x61, // IAM in 0 n
        0x17, // IAM in 1 c
        0x69, // IAM in 1 n
        0x27, // IAM in 2 c
        0x27, // IAM in 2 n
        0x37, // IAM in 3 c
        0x37, // IAM in 3 n
        0x47, // IAM in 4 c
        0x47, // IAM in 4 n
        0x57, // IAM in 5 c
        0x61, // IAM in 5 n
        0x67, // IAM in 6 c
        0x67, // IAM in 6 n
        0x77, // IAM in 7 c
        0x77, // IAM in 7 n
        0x87, // IAM in 8 c
        0x87, // IAM in 8 n
        0x97, // IAM in 9 c
        0x97, // IAM in 9 n
        0xa7, // IAM in 10 c
        0xa7, // IAM in 10 n
        0xb7, // IAM in 11 c
        0xb7, // IAM in 11 n
        0xc7, // IAM in 12 c
        0xc7, // IAM in 12 n
    ],
    [
        0x07, // ACM in 0 c
        0x07, // ACM in 0 n
        0x22, // ACM in 1 c
        0x22, // ACM in 1 n
        0x27, // ACM in 2 c
        0x27, // ACM in 2 n
        0x37, // ACM in 3 c
        0x37, // ACM in 3 n
        0x47, // ACM in 4 c
        0x47, // ACM in 4 n
        0x57, // ACM in 5 c
        0x57, // ACM in 5 n
        0x67, // ACM in 6 c
        0x67, // ACM in 6 n
        0x77, // ACM in 7 c
        0x77, // ACM in 7 n
        0x87, // ACM in 8 c
        0x87, // ACM in 8 n
        0x97, // ACM in 9 c
        0x97, // ACM in 9 n
        0xa7, // ACM in 10 c
        0xa7, // ACM in 10 n
        0xb7, // ACM in 11 c
        0xb7, // ACM in 11 n
        0xc7, // ACM in 12 c
        0xc7, // ACM in 12 n
    ],
    [
        0x07, // ANC in 0 c
        0x07, // ANC in 0 n
        0x5b, // ANC in 1 c
        0x5b, // ANC in 1 n
        0x33, // ANC in 2 c
        0x33, // ANC in 2 n
        0x37, // ANC in 3 c
        0x37, // ANC in 3 n
        0x47, // ANC in 4 c
        0x47, // ANC in 4 n
        0x57, // ANC in 5 c
        0x57, // ANC in 5 n
        0x67, // ANC in 6 c
        0x67, // ANC in 6 n
        0x77, // ANC in 7 c
        0x77, // ANC in 7 n
        0x87, // ANC in 8 c
        0x87, // ANC in 8 n
        0x97, // ANC in 9 c
        0x97, // ANC in 9 n
        0xa7, // ANC in 10 c
        0xa7, // ANC in 10 n
        0xb7, // ANC in 11 c
        0xb7, // ANC in 11 n
        0xc7, // ANC in 12 c
        0xc7, // ANC in 12 n
    ],
    [
        0x07, // ANN in 0 c
        0x07, // ANN in 0 n
        0x5b, // ANN in 1 c
        0x5b, // ANN in 1 n
        0x33, // ANN in 2 c
        0x33, // ANN in 2 n
        0x37, // ANN in 3 c
        0x37, // ANN in 3 n
        0x47, // ANN in 4 c
        0x47, // ANN in 4 n
        0x57, // ANN in 5 c
        0x57, // ANN in 5 n
        0x67, // ANN in 6 c
        0x67, // ANN in 6 n
        0x77, // ANN in 7 c
        0x77, // ANN in 7 n
        0x87, // ANN in 8 c
        0x87, // ANN in 8 n
        0x97, // ANN in 9 c
        0x97, // ANN in 9 n
        0xa7, // ANN in 10 c
        0xa7, // ANN in 10 n
        0xb7, // ANN in 11 c
        0xb7, // ANN in 11 n
        0xc7, // ANN in 12 c
        0xc7, // ANN in 12 n
    ],
    [
        0x07, // CBK in 0 c
        0x07, // CBK in 0 n
        0x5b, // CBK in 1 c
        0x5b, // CBK in 1 n
        0x27, // CBK in 2 c
        0x27, // CBK in 2 n
        0x44, // CBK in 3 c
        0x44, // CBK in 3 n
        0x47, // CBK in 4 c
        0x47, // CBK in 4 n
        0x57, // CBK in 5 c
        0x57, // CBK in 5 n
        0x67, // CBK in 6 c
        0x67, // CBK in 6 n
        0x77, // CBK in 7 c
        0x77, // CBK in 7 n
        0x87, // CBK in 8 c
        0x87, // CBK in 8 n
        0x97, // CBK in 9 c
        0x97, // CBK in 9 n
        0xa7, // CBK in 10 c
        0xa7, // CBK in 10 n
        0xb7, // CBK in 11 c
        0xb7, // CBK in 11 n
        0xc7, // CBK in 12 c
        0xc7, // CBK in 12 n
    ],
    [
        0x0c, // CLF in 0 c
        0x0c, // CLF in 0 n
        0x17, // CLF in 1 c
        0x0e, // CLF in 1 n
        0x27, // CLF in 2 c
        0x27, // CLF in 2 n
        0x37, // CLF in 3 c
        0x37, // CLF in 3 n
        0x47, // CLF in 4 c
        0x47, // CLF in 4 n
        0x57, // CLF in 5 c
        0x0d, // CLF in 5 n
        0x0d, // CLF in 6 c
        0x0d, // CLF in 6 n
        0x0d, // CLF in 7 c
        0x0d, // CLF in 7 n
        0x0d, // CLF in 8 c
        0x0d, // CLF in 8 n
        0x0d, // CLF in 9 c
        0x0d, // CLF in 9 n
        0x0d, // CLF in 10 c
        0x0d, // CLF in 10 n
        0x0d, // CLF in 11 c
        0x0d, // CLF in 11 n
        0x0d, // CLF in 12 c
        0x0d, // CLF in 12 n
    ],
    [
        0x07, // RAN in 0 c
        0x07, // RAN in 0 n
        0x5b, // RAN in 1 c
        0x5b, // RAN in 1 n
        0x27, // RAN in 2 c
        0x27, // RAN in 2 n
        0x37, // RAN in 3 c
        0x37, // RAN in 3 n
        0x33, // RAN in 4 c
        0x33, // RAN in 4 n
        0x57, // RAN in 5 c
        0x57, // RAN in 5 n
        0x67, // RAN in 6 c
        0x67, // RAN in 6 n
        0x77, // RAN in 7 c
        0x77, // RAN in 7 n
        0x87, // RAN in 8 c
        0x87, // RAN in 8 n
        0x97, // RAN in 9 c
        0x97, // RAN in 9 n
        0xa7, // RAN in 10 c
        0xa7, // RAN in 10 n
        0xb7, // RAN in 11 c
        0xb7, // RAN in 11 n
        0xc7, // RAN in 12 c
        0xc7, // RAN in 12 n
    ],
    [
        0x07, // RLG in 0 c
        0x07, // RLG in 0 n
        0x5b, // RLG in 1 c
        0x5b, // RLG in 1 n
        0x27, // RLG in 2 c
        0x27, // RLG in 2 n
        0x37, // RLG in 3 c
        0x37, // RLG in 3 n
        0x47, // RLG in 4 c
        0x47, // RLG in 4 n
        0x05, // RLG in 5 c
        0x05, // RLG in 5 n
        0x67, // RLG in 6 c
        0x67, // RLG in 6 n
        0x77, // RLG in 7 c
        0x77, // RLG in 7 n
        0x87, // RLG in 8 c
        0x87, // RLG in 8 n
        0x97, // RLG in 9 c
        0x97, // RLG in 9 n
        0xa7, // RLG in 10 c
        0xa7, // RLG in 10 n
        0xb7, // RLG in 11 c
        0xb7, // RLG in 11 n
        0x05, // RLG in 12 c
        0x05, // RLG in 12 n
    ],
    [
        0x00, // BLO in 0 c
        0x00, // BLO in 0 n
        0x5b, // BLO in 1 c
        0x5b, // BLO in 1 n
        0x20, // BLO in 2 c
        0x20, // BLO in 2 n
        0x30, // BLO in 3 c
        0x30, // BLO in 3 n
        0x40, // BLO in 4 c
        0x40, // BLO in 4 n
        0x50, // BLO in 5 c
        0x50, // BLO in 5 n
        0x60, // BLO in 6 c
        0x60, // BLO in 6 n
        0x70, // BLO in 7 c
        0x70, // BLO in 7 n
        0x80, // BLO in 8 c
        0x80, // BLO in 8 n
        0x90, // BLO in 9 c
        0x90, // BLO in 9 n
        0xa0, // BLO in 10 c
        0xa0, // BLO in 10 n
        0xb0, // BLO in 11 c
        0xb0, // BLO in 11 n
        0xc0, // BLO in 12 c
        0xc0, // BLO in 12 n
    ],
    [
        0x00, // BLA in 0 c
        0x00, // BLA in 0 n
        0x10, // BLA in 1 c
        0x10, // BLA in 1 n
        0x20, // BLA in 2 c
        0x20, // BLA in 2 n
        0x30, // BLA in 3 c
        0x30, // BLA in 3 n
        0x40, // BLA in 4 c
        0x40, // BLA in 4 n
        0x50, // BLA in 5 c
        0x50, // BLA in 5 n
        0x60, // BLA in 6 c
        0x60, // BLA in 6 n
        0x70, // BLA in 7 c
        0x70, // BLA in 7 n
        0x80, // BLA in 8 c
        0x80, // BLA in 8 n
        0x90, // BLA in 9 c
        0x90, // BLA in 9 n
        0xa0, // BLA in 10 c
        0xa0, // BLA in 10 n
        0xb0, // BLA in 11 c
        0xb0, // BLA in 11 n
        0xc0, // BLA in 12 c
        0xc0, // BLA in 12 n
    ],
    [
        0x00, // UBL in 0 c
        0x00, // UBL in 0 n
        0x10, // UBL in 1 c
        0x10, // UBL in 1 n
        0x20, // UBL in 2 c
        0x20, // UBL in 2 n
        0x30, // UBL in 3 c
        0x30, // UBL in 3 n
        0x40, // UBL in 4 c
        0x40, // UBL in 4 n
        0x50, // UBL in 5 c
        0x50, // UBL in 5 n
        0x60, // UBL in 6 c
        0x60, // UBL in 6 n
        0x70, // UBL in 7 c
        0x70, // UBL in 7 n
        0x80, // UBL in 8 c
        0x80, // UBL in 8 n
        0x90, // UBL in 9 c
        0x90, // UBL in 9 n
        0xa0, // UBL in 10 c
        0xa0, // UBL in 10 n
        0xb0, // UBL in 11 c
        0xb0, // UBL in 11 n
        0xc0, // UBL in 12 c
        0xc0, // UBL in 12 n
    ],
    [
        0x00, // UBA in 0 c
        0x00, // UBA in 0 n
        0x10, // UBA in 1 c
        0x10, // UBA in 1 n
        0x20, // UBA in 2 c
        0x20, // UBA in 2 n
        0x30, // UBA in 3 c
        0x30, // UBA in 3 n
        0x40, // UBA in 4 c
        0x40, // UBA in 4 n
        0x50, // UBA in 5 c
        0x50, // UBA in 5 n
        0x60, // UBA in 6 c
        0x60, // UBA in 6 n
        0x70, // UBA in 7 c
        0x70, // UBA in 7 n
        0x80, // UBA in 8 c
        0x80, // UBA in 8 n
        0x90, // UBA in 9 c
        0x90, // UBA in 9 n
        0xa0, // UBA in 10 c
        0xa0, // UBA in 10 n
        0xb0, // UBA in 11 c
        0xb0, // UBA in 11 n
        0xc0, // UBA in 12 c
        0xc0, // UBA in 12 n
    ],
    [
        0x0c, // RSC in 0 c
        0x0c, // RSC in 0 n
        0x5b, // RSC in 1 c
        0x5b, // RSC in 1 n
        0x5a, // RSC in 2 c
        0x5a, // RSC in 2 n
        0x5a, // RSC in 3 c
        0x5a, // RSC in 3 n
        0x5a, // RSC in 4 c
        0x5a, // RSC in 4 n
        0x57, // RSC in 5 c
        0x57, // RSC in 5 n
        0x0d, // RSC in 6 c
        0x0d, // RSC in 6 n
        0x0d, // RSC in 7 c
        0x0d, // RSC in 7 n
        0x0d, // RSC in 8 c
        0x0d, // RSC in 8 n
        0x0d, // RSC in 9 c
        0x0d, // RSC in 9 n
        0x0d, // RSC in 10 c
        0x0d, // RSC in 10 n
        0x0d, // RSC in 11 c
        0x0d, // RSC in 11 n
        0xcc, // RSC in 12 c
        0xcc, // RSC in 12 n
    ],
    [
        0x07, // a failure in 0 c
        0x07, // a failure in 0 n
        0x5a, // a failure in 1 c
        0x5a, // a failure in 1 n
        0x5a, // a failure in 2 c
        0x5a, // a failure in 2 n
        0x5a, // a failure in 3 c
        0x5a, // a failure in 3 n
        0x5a, // a failure in 4 c
        0x5a, // a failure in 4 n
        0x57, // a failure in 5 c
        0x57, // a failure in 5 n
        0x67, // a failure in 6 c
        0x67, // a failure in 6 n
        0x77, // a failure in 7 c
        0x77, // a failure in 7 n
        0x87, // a failure in 8 c
        0x87, // a failure in 8 n
        0x97, // a failure in 9 c
        0x97, // a failure in 9 n
        0xa7, // a failure in 10 c
        0xa7, // a failure in 10 n
        0xb7, // a failure in 11 c
        0xb7, // a failure in 11 n
        0xc7, // a failure in 12 c
        0xc7, // a failure in 12 n
    ],
];

// A signal's column.
fn column_of(s: Signal) -> usize
    ensures { result ≡ column_of s }
{
    match s {
        Signal::Iam => 0,
        Signal::Acm(_) => 1,
        Signal::Anc => 2,
        Signal::Ann => 3,
        Signal::Cbk => 4,
        Signal::Clf => 5,
        Signal::Ran => 6,
        Signal::Rlg => 7,
        Signal::Blo => 8,
        Signal::Bla => 9,
        Signal::Ubl => 10,
        Signal::Uba => 11,
        Signal::Rsc => 12,
        Signal::Fail(_) => 13,
    }
}

// The entry of a signal in a state, in our role: its number, by what it means.
fn entry(con: bool, state: u8, s: Signal) -> u8
    requires { state ≤ 12 }
    ensures { meaning result ≡ on_call con state s }
{
    CALLS[column_of(s)][usize::from(state) * 2 + usize::from(!con)]
}

#[tactic(auto, unfolding(crate::specs::Calls::meaning))]
fn meaning(n: u8) -> Call
    ensures { result ≡ meaning n }
{
    let (state, digit) = (n / 16, n % 16);
    if digit < 0xa {
        return Call {
            state,
            sends: names::NO_SIGNAL,
            ind: digit,
        };
    }
    let (sends, ind) = match digit {
        0xa => (names::CLF, names::IND_CALL_FAILED),
        0xb => (names::CLF, names::IND_TRY_ELSEWHERE),
        0xc => (names::RLG, names::IND_NOTHING),
        0xd => (names::RLG, names::IND_CIRCUIT_FREED),
        _ => (names::RLG, names::IND_TRY_ELSEWHERE),
    };
    Call { state, sends, ind }
}

// What a signal does to the call in a state, at the end that controls the circuit (con) or at the other.
#[tactic(auto, unfolding(crate::specs::Calls::on_call))]
pub fn on_signal(con: bool, state: u8, s: Signal) -> Call
    ensures { result ≡ on_call con state s }
{
    if names::AWAITING_RESET < state {
        return Call {
            state,
            sends: names::NO_SIGNAL,
            ind: names::IND_DISCARDED,
        };
    }
    meaning(entry(con, state, s))
}
