// Laying out the table of a case: a counter of eight octets, and behind it ten octets to a record.

// A record more than a group may have is the longest table that is tried.
pub(crate) const LONGEST: usize = 40978;

pub(crate) const RECORD: usize = 10;

// A circuit's record as a case has it.
#[derive(Clone, Copy, Debug, PartialEq, Eq)]
pub(crate) struct Record {
    pub state: u8,
    pub flags: u8,
    pub rank: u64,
}

pub(crate) fn octet(n: u32) -> u8 {
    (n % 256) as u8
}

// Where a circuit's record begins.
pub(crate) fn place(cic: u32) -> usize {
    8 + RECORD * cic as usize
}

// Puts octets at the start of others, as far as these go.
pub(crate) fn put(octets: &mut [u8], from: &[u8]) {
    for (octet, new) in octets.iter_mut().zip(from) {
        *octet = *new;
    }
}

impl Record {
    // Puts the record at the start of octets, as far as these go.
    pub(crate) fn put(self, octets: &mut [u8]) {
        put(octets, &[self.state, self.flags]);
        if let Some(rank) = octets.get_mut(2..) {
            put(rank, &self.rank.to_le_bytes());
        }
    }
}
