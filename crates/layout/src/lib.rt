// Where things lie in a lent table of octets: first the counter of releases, eight octets; then a record to each circuit, ten octets each: the
// state, the flags and the release rank of eight. Record i is circuit i; counter and ranks have their lowest octet first.
// Octets and no array of structs: they are lent by a host in C.
#![tactic(auto)]

ghost use Rattle.std.specs.Prelude.{◌≡◌, ◌+◌, ◌≤◌, ltb};
ghost use Rattle.layout.specs.Way.{bad_length};
ghost use Rattle.layout.specs.Layout.{table_octets, records_in, counter_in, allowed, stored_at, put_octets, put_counter, put_rank};

use circuit::{Cic, Held};

const COUNTER_OCTETS: usize = 8;

const RECORD_OCTETS: usize = 10;

// The most circuits of a group.
const CIRCUITS: usize = 4096;

// All that stands at a circuit: what is held of it, and its release rank.
#[derive(Clone, Copy, Debug, PartialEq, Eq)]
pub struct Stored {
    pub held: Held,
    pub rank: u64,
}

// The octets of a table of so many circuits. A circuit's record begins where the table of those before it would end.
pub fn table_octets(circuits: u32) -> usize
    ensures octets { result ≡ table_octets circuits }
    ensures low { result ≤ 0xa00000000 }
{
    COUNTER_OCTETS + RECORD_OCTETS * (circuits as usize)
}

// How many records a table of this length holds; 0 if it is not a counter and whole records. 0 and no None: `Codes::bad_group` judges the number.
#[tactic(auto, using(crate::proofs::Laws::short_records), unfolding(crate::specs::Layout::records_in))]
pub fn records(octets: usize) -> usize
    ensures { result ≡ records_in octets }
{
    if octets < COUNTER_OCTETS {
        return 0;
    }
    let rest = octets - COUNTER_OCTETS;
    if rest % RECORD_OCTETS == 0 {
        rest / RECORD_OCTETS
    } else {
        0
    }
}

// Whether a table of this length holds no records or more than a group may have, or is not a counter and whole records.
#[tactic(auto, using(crate::proofs::Laws::too_short, crate::proofs::Laws::too_long, crate::proofs::Laws::by_rest))]
pub fn bad_length(octets: usize) -> bool
    ensures { result ≡ bad_length octets }
{
    octets < COUNTER_OCTETS + RECORD_OCTETS
        || COUNTER_OCTETS + RECORD_OCTETS * CIRCUITS < octets
        || (octets - COUNTER_OCTETS) % RECORD_OCTETS != 0
}

// Whether a table of this length ends before the circuit's record does.
pub fn ends_before(octets: usize, cic: Cic) -> bool
    ensures { result ≡ ltb octets (table_octets cic.0 + 10) }
{
    octets < table_octets(cic.0) + RECORD_OCTETS
}

#[tactic(auto, unfolding(crate::specs::Layout::counter_in))]
pub fn counter_in(table: &[u8]) -> u64
    ensures { result ≡ counter_in table.now }
{
    words::word(table, 0)
}

// All that stands at a circuit, by one look at the table's length; zeros and no None where the table has no such circuit, as the
// definition `stored_at` has it.
pub fn stored_at(table: &[u8], cic: Cic) -> Stored
    ensures { result ≡ stored_at table.now cic.0 }
{
    let at = table_octets(cic.0);
    let Some([state, flags, a, b, c, d, e, f, g, h]) = table.get(at..at + RECORD_OCTETS) else {
        return Stored {
            held: Held { state: 0, flags: 0 },
            rank: 0,
        };
    };
    Stored {
        held: Held {
            state: *state,
            flags: *flags,
        },
        rank: words::number(*a, *b, *c, *d, *e, *f, *g, *h),
    }
}

// Whether what is held is a legal record (docs/RULES.md, "Records"): refusal 12 is for the others. Whole tables are judged by this, and most circuits
// have no flag, so that is asked first.
#[tactic(auto, using(crate::proofs::Laws::allowed_bare, crate::proofs::Laws::allowed_below, crate::proofs::Laws::allowed_in_reset, crate::proofs::Laws::allowed_above))]
pub fn allowed(held: Held) -> bool
    ensures { result ≡ allowed held.state held.flags }
{
    if held.flags == marks::NONE {
        held.state <= names::AWAITING_RESET
    } else if held.state < names::AWAITING_RESET {
        marks::legal(held.flags)
    } else {
        held.state == names::AWAITING_RESET && marks::legal_in_reset(held.flags)
    }
}

// Puts what is held of a circuit, which keeps its rank.
#[tactic(auto, unfolding(crate::specs::Layout::put_octets))]
pub fn put(table: &mut [u8], cic: Cic, held: Held)
    ensures { table.new ≡ put_octets table.old cic.0 held.state held.flags }
{
    let at = table_octets(cic.0);
    words::put_octet(table, at, 0, held.state);
    words::put_octet(table, at, 1, held.flags);
}

#[tactic(auto, unfolding(crate::specs::Layout::put_counter))]
pub fn put_counter(table: &mut [u8], count: u64)
    ensures { table.new ≡ put_counter table.old count }
{
    words::put_word(table, 0, count);
}

#[tactic(auto, unfolding(crate::specs::Layout::put_rank))]
pub fn put_rank(table: &mut [u8], cic: Cic, rank: u64)
    ensures { table.new ≡ put_rank table.old cic.0 rank }
{
    words::put_word(table, table_octets(cic.0) + 2, rank);
}
