// A worked case of a step: the table is laid out, the entry for C is called, and its answer and every octet of the table are compared.
use super::tables;
use super::tables::{LONGEST, Record, octet};

// A table as a case has it: the counter of releases, a circuit's record from the place `at` on, and one octet everywhere beside these.
#[derive(Clone, Copy, Debug, PartialEq, Eq)]
struct Laid {
    counter: u64,
    at: usize,
    record: Record,
    beside: u8,
}

impl Laid {
    // The table before the step. The rank is like all that stands beside the circuit; the counter's octets are alike but for its lowest. These
    // three stand in one number, what is beside lowest and the counter's lowest octet highest.
    fn before(octets: u32, cic: u32, state: u32, flags: u32) -> Laid {
        let [beside, counter, lowest, _] = octets.to_le_bytes();
        let mut counter = [counter; 8];
        counter[0] = lowest;
        Laid {
            counter: u64::from_le_bytes(counter),
            at: tables::place(cic),
            record: Record {
                state: octet(state),
                flags: octet(flags),
                rank: u64::from_le_bytes([beside; 8]),
            },
            beside,
        }
    }

    // The table with other state and flags. Where the circuit is freed the counter goes up by one, and the circuit takes it as its rank.
    fn after(self, state: u32, flags: u32, freed: bool) -> Laid {
        let next = self.counter.wrapping_add(1);
        Laid {
            counter: if freed { next } else { self.counter },
            record: Record {
                state: octet(state),
                flags: octet(flags),
                rank: if freed { next } else { self.record.rank },
            },
            ..self
        }
    }

    fn lay_out(self, table: &mut [u8]) {
        table.fill(self.beside);
        tables::put(table, &self.counter.to_le_bytes());
        if let Some(record) = table.get_mut(self.at..) {
            self.record.put(record);
        }
    }
}

// Whether the answer has these numbers: refusal, state, flags, indication and two headings.
fn is_answer(got: u64, answer: &[u32]) -> bool {
    let [refusal, ind, state, flags, first, second, _, _] = got.to_le_bytes().map(u32::from);
    answer == [refusal, state, flags, ind, first, second].as_slice()
}

// A case says the two codes, the table's octets and what stands in them, the circuit, its state and flags; the event by kind, code and detail;
// and the answer, of which state and flags are those that the circuit is left in.
pub(crate) fn right(case: &[u32]) -> bool {
    let &[own, far, octets, beside, cic, state, flags, ref rest @ ..] = case else {
        return false;
    };
    let &[kind, code, detail, ref answer @ ..] = rest else {
        return false;
    };
    let &[refusal, left, left_flags, _, _, _] = answer else {
        return false;
    };
    let n = octets as usize;
    let mut space = [0u8; LONGEST];
    let mut other = [0u8; LONGEST];
    let (Some(table), Some(wanted)) = (space.get_mut(..n), other.get_mut(..n)) else {
        return false;
    };
    let before = Laid::before(beside, cic, state, flags);
    let after = if refusal == 0 {
        before.after(left, left_flags, state != 0 && left == 0)
    } else {
        before
    };
    before.lay_out(table);
    after.lay_out(wanted);
    let got = tup::tup_step(own, far, table, cic, kind, code, detail);
    is_answer(got, answer) && &*table == &*wanted
}
