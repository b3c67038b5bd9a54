// A worked case of selection: the table is laid out, the entry for C is called, and its answer is compared. The table is lent shared, so that
// no octet of it can have changed.
use super::tables;
use super::tables::{LONGEST, RECORD, Record, octet};

// Puts the records that a case gives, each by its state, flags and rank.
fn put_records(octets: &mut [u8], given: &[[u32; 3]]) {
    for (place, [state, flags, rank]) in octets.chunks_mut(RECORD).zip(given) {
        let record = Record {
            state: octet(*state),
            flags: octet(*flags),
            rank: u64::from(*rank),
        };
        record.put(place);
    }
}

// Whether the answer is this refusal, circuit and count, 16 bits each, with nothing above them.
fn is_choice(got: u64, refusal: u32, circuit: u32, looked: u32) -> bool {
    got % 0x10000 == u64::from(refusal)
        && got / 0x10000 % 0x10000 == u64::from(circuit)
        && got / 0x100000000 == u64::from(looked)
}

// A case says the two codes, the table's octets and what stands in each, the answer, and the first circuit whose record it gives, with three
// numbers for each record. Everywhere beside these stands the one octet, the counter included, which selection does not read.
pub(crate) fn right(case: &[u32]) -> bool {
    let &[own, far, octets, beside, ref rest @ ..] = case else {
        return false;
    };
    let &[refusal, circuit, looked, first, ref given @ ..] = rest else {
        return false;
    };
    let (given, []) = given.as_chunks::<3>() else {
        return false;
    };
    let mut space = [0u8; LONGEST];
    let Some(table) = space.get_mut(..octets as usize) else {
        return false;
    };
    table.fill(octet(beside));
    if let Some(records) = table.get_mut(tables::place(first)..) {
        put_records(records, given);
    }
    is_choice(tup::tup_select(own, far, table), refusal, circuit, looked)
}
