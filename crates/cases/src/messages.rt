// Worked cases of messages: the entries for C are called, and what they answer and every octet of the lent buffer are compared.
use super::tables::octet;
use std::iter;

// What stands in a buffer before a call.
const BEFORE: u8 = 0xee;

// Puts numbers into octets.
fn put(octets: &mut [u8], numbers: &[u32]) {
    for (place, number) in octets.iter_mut().zip(numbers) {
        *place = octet(*number);
    }
}

// The octets are these numbers; a case may leave zeros at its end out.
fn same(octets: &[u8], numbers: &[u32]) -> bool {
    let numbers = numbers.iter().map(|n| octet(*n)).chain(iter::repeat(0));
    octets.iter().zip(numbers).all(|(octet, n)| *octet == n)
}

fn untouched(octets: &[u8]) -> bool {
    octets.iter().all(|octet| *octet == BEFORE)
}

// The first octets are these numbers, and the others as before.
fn holds(octets: &[u8], n: usize, numbers: &[u32]) -> bool {
    octets.split_at_checked(n).is_some_and(|(written, rest)| same(written, numbers)
        && untouched(rest))
}

// A case of the reader: own code, far code, records, the refusal and its place; the message with its length before it; the fields as octets.
pub(crate) fn read_right(case: &[u32]) -> bool {
    let &[own, far, records, refusal, place, length, ref rest @ ..] = case else {
        return false;
    };
    let Some((octets, fields)) = rest.split_at_checked(length as usize) else {
        return false;
    };
    let mut space = [0u8; 32];
    let Some(message) = space.get_mut(..length as usize) else {
        return false;
    };
    put(message, octets);
    let mut out = [BEFORE; 24];
    let answer = tup::tup_read(own, far, records, message, &mut out);
    if answer % 256 != u64::from(refusal) || answer / 256 != u64::from(place) {
        return false;
    }
    if answer == 0 {
        holds(&out, 23, fields)
    } else {
        untouched(&out)
    }
}

// A case of the writer: own code, far code, records, circuit, heading, ACM's octet, category, indicators; the address with its length
// before it; the buffer's length, the refusal, the octets.
pub(crate) fn write_right(case: &[u32]) -> bool {
    let &[own, far, records, cic, heading, ref rest @ ..] = case else {
        return false;
    };
    let &[acm, category, indicators, length, ref rest @ ..] = rest else {
        return false;
    };
    let Some((signals, &[room, refusal, ref written @ ..])) = rest.split_at_checked(length as usize)
    else {
        return false;
    };
    let mut space = [0u8; 16];
    let Some(address) = space.get_mut(..length as usize) else {
        return false;
    };
    put(address, signals);
    let mut buffer = [BEFORE; 24];
    let Some(out) = buffer.get_mut(..room as usize) else {
        return false;
    };
    let answer = tup::tup_write(
        own, far, records, cic, heading, acm, category, indicators, address, out,
    );
    answer % 256 == refusal
        && (answer / 256) as usize == written.len()
        && holds(out, written.len(), written)
}
