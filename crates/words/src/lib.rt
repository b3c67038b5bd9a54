// Octets and words of eight octets, lowest first, in a lent slice. Reads past the end give 0; writes past the end are ignored.
#![tactic(auto)]

ghost use Rattle.std.specs.Prelude.{◌≡◌, ◌+◌, ◌*◌, get_or, set};
ghost use Rattle.words.specs.Words.{word, put_word};

// The largest number that a word can hold.
pub const LARGEST: u64 = 0xffffffffffffffff;

// The octet k behind a place.
pub fn octet(xs: &[u8], at: usize, k: usize) -> u8
    ensures { result ≡ get_or xs.now (at + k) 0 }
{
    at.checked_add(k)
        .and_then(|i| xs.get(i))
        .copied()
        .unwrap_or(0)
}

// Puts the octet k behind a place. By index: of what is written through `get_mut` a proof would know nothing once that borrow is over.
pub fn put_octet(xs: &mut [u8], at: usize, k: usize, value: u8)
    ensures { xs.new ≡ set xs.old (at + k) value }
{
    if let Some(i) = at.checked_add(k)
        && i < xs.len()
    {
        xs[i] = value;
    }
}

// The number of eight octets, lowest first.
pub fn number(a: u8, b: u8, c: u8, d: u8, e: u8, f: u8, g: u8, h: u8) -> u64
    ensures { result ≡ a + 256 * (b + 256 * (c + 256 * (d + 256 * (e + 256 * (f + 256 * (g + 256 * h)))))) }
{
    u64::from_le_bytes([a, b, c, d, e, f, g, h])
}

// A word whose octets may not all be there, one by one: of an array that a closure fills, the proof of what it holds did not close.
fn short_word(xs: &[u8], at: usize) -> u64
    ensures { result ≡ word xs.now at }
{
    number(
        octet(xs, at, 0),
        octet(xs, at, 1),
        octet(xs, at, 2),
        octet(xs, at, 3),
        octet(xs, at, 4),
        octet(xs, at, 5),
        octet(xs, at, 6),
        octet(xs, at, 7),
    )
}

// The word at a place.
pub fn word(xs: &[u8], at: usize) -> u64
    ensures { result ≡ word xs.now at }
{
    if let Some(rest) = xs.get(at..)
        && let Some(octets) = rest.first_chunk()
    {
        u64::from_le_bytes(*octets)
    } else {
        short_word(xs, at)
    }
}

// Puts a word whose octets may not all be there.
fn put_short_word(xs: &mut [u8], at: usize, v: u64)
    ensures { xs.new ≡ put_word xs.old at v }
{
    for (k, &octet) in v.to_le_bytes().iter().enumerate() {
        put_octet(xs, at, k, octet);
    }
}

// Puts a word at a place. Where its octets are all there they are stored at once, which a read soon after does not wait for; not by `get_mut`, for the
// reason at `put_octet`.
pub fn put_word(xs: &mut [u8], at: usize, v: u64)
    ensures { xs.new ≡ put_word xs.old at v }
{
    if at <= xs.len() && 8 <= xs.len() - at {
        xs[at..at + 8].copy_from_slice(&v.to_le_bytes());
    } else {
        put_short_word(xs, at, v);
    }
}
