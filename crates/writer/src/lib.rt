// The writer of messages on the link (docs/RULES.md, "Messages on the link"; Q.723): a message by numbers, as octets in a lent buffer.
#![tactic(auto)]

ghost use Rattle.std.specs.Prelude.{◌≡◌, true, false, cond, ◌+◌, ◌≤◌, length};
ghost use Rattle.std.proofs.Math.Seq.{paste};
ghost use Rattle.formats.specs.Format.{ACM, most};
ghost use Rattle.formats.specs.Messages.{format_of, fixed_length, half, listed, is_iam};
ghost use Rattle.formats.specs.Octets.{above_fifteen};
ghost use Rattle.formats.specs.Way.{pairs};
ghost use Rattle.words.specs.Octets.{over};
ghost use Rattle.writer.specs.Writing.{said_by, writing, told};
ghost use Rattle.writer.specs.Way.{over_limits, label_of, plain_octets, acm_octets, iam_head, outcome, iam_writing, short_writing};

use circuit::{Cic, Codes};
use names::Refusal;

// The largest circuit number, and the most that a field may be: no spare bit is set.
const LAST_CIC: u32 = 4095;

const SIX_BITS: u32 = 63;

const INDICATORS: u32 = 2047;

// A message that is to be written, by numbers. A field that the heading does not have is 0, and the address of any message but an IAM is empty.
#[derive(Clone, Copy, Debug, PartialEq, Eq)]
pub struct Draft<'a> {
    pub cic: Cic,
    pub heading: u32,
    pub acm: u32,
    pub category: u32,
    pub indicators: u32,
    pub address: &'a [u8],
}

// The most that a field may be, 0 where the heading does not have it.
fn limit(has: bool, most: u32) -> u32
    ensures { result ≡ cond has most 0 }
{
    if has { most } else { 0 }
}

impl Draft<'_> {
    // Whether a field is refused 3.
    fn too_large(self) -> bool
        ensures { result ≡ over_limits (said_by self.entry) }
    {
        let iam = self.heading == formats::IAM;
        limit(self.heading == formats::ACM, SIX_BITS) < self.acm
            || limit(iam, SIX_BITS) < self.category
            || limit(iam, INDICATORS) < self.indicators
            || if iam {
                formats::above_fifteen(self.address)
            } else {
                !self.address.is_empty()
            }
    }
}

// Label and heading at the start of a buffer.
fn put_plain(label: u64, heading: u8, out: &mut [u8])
    requires { 6 ≤ length out.old }
    ensures { out.new ≡ over (plain_octets label heading) out.old }
{
    out[..5].copy_from_slice(&label.to_le_bytes()[..5]);
    out[5] = heading;
}

// A whole ACM.
fn put_acm(label: u64, acm: u8, out: &mut [u8])
    requires { 7 ≤ length out.old }
    ensures { out.new ≡ over (acm_octets label acm) out.old }
{
    put_plain(label, names::ACM, out);
    out[6] = acm;
}

// An IAM up to its address signals.
fn put_iam(label: u64, category: u8, word: u16, out: &mut [u8])
    requires { 9 ≤ length out.old }
    ensures { out.new ≡ over (iam_head label category word) out.old }
{
    put_plain(label, names::IAM, out);
    out[6] = category;
    out[7..9].copy_from_slice(&word.to_le_bytes());
}

// The address signals of an IAM, from octet 9 on. By index: of what is written through an adapter of iter_mut, as a zip with the address is, a proof
// would know nothing once the loop is over.
#[tactic(auto, using(crate::proofs::Pairs::at_most))]
fn put_pairs(address: &[u8], out: &mut [u8])
    requires { (above_fifteen address.now ≡ false) × (9 + half (length address.now) ≤ length out.old) }
    ensures { out.new ≡ paste out.old 9 (pairs address.now) (half (length address.now)) }
{
    let n = address.len();
    for j in 0..n / 2 {
        out[formats::IAM_OCTETS + j] = address[2 * j] + 16 * address[2 * j + 1];
    }
    if n % 2 == 1 {
        out[formats::IAM_OCTETS + n / 2] = address[n - 1];
    }
}

// The label of a message that we send.
fn label_to(codes: Codes, cic: Cic) -> u64
    ensures { result ≡ label_of codes.own.0 codes.far.0 cic.0 }
{
    u64::from(codes.far.0)
        + formats::OPC_PLACE * u64::from(codes.own.0)
        + formats::CIC_PLACE * u64::from(cic.0)
}

// An IAM whose fields are in order.
#[tactic(auto, using(crate::proofs::Tests::few))]
fn write_iam(label: u64, m: Draft, out: &mut [u8]) -> Result<u8, Refusal>
    requires { (m.category ≤ 63) × (m.indicators ≤ 2047) × (above_fifteen m.address.now ≡ false) }
    ensures { outcome (told result) out.new ≡ iam_writing label m.entry.category m.entry.indicators m.entry.address.now out.old }
{
    if formats::bad_address(m.address) {
        return Err(Refusal::WrongAddress);
    }
    if formats::short(m.indicators, m.address) {
        return Err(Refusal::ShortNumber);
    }
    let count = m.address.len();
    let need = formats::IAM_OCTETS + count.div_ceil(2);
    if out.len() < need {
        return Err(Refusal::OutputTooShort);
    }
    let word = u64::from(m.indicators) + formats::COUNT_PLACE * (count as u64);
    put_iam(label, m.category as u8, word as u16, out);
    put_pairs(m.address, out);
    Ok(need as u8)
}

// Any other message whose fields are in order.
fn write_short(label: u64, m: Draft, fixed: usize, out: &mut [u8]) -> Result<u8, Refusal>
    requires { (listed m.heading ≡ true) × (is_iam m.heading ≡ false) × (m.acm ≤ most (format_of m.heading).fields ACM) × (fixed ≡ fixed_length m.heading) }
    ensures { outcome (told result) out.new ≡ short_writing label m.entry.heading m.entry.acm out.old }
{
    if out.len() < fixed {
        return Err(Refusal::OutputTooShort);
    }
    if m.heading == formats::ACM {
        put_acm(label, m.acm as u8, out);
    } else {
        put_plain(label, m.heading as u8, out);
    }
    Ok(fixed as u8)
}

// Writes a message to the far end into `out`, whose octets beyond it keep their contents, and answers its length.
pub fn write(codes: Codes, records: usize, m: Draft, out: &mut [u8]) -> Result<u8, Refusal>
    ensures answers { told result ≡ (writing codes.own.0 codes.far.0 records (said_by m.entry) out.old).answer }
    ensures leaves { out.new ≡ (writing codes.own.0 codes.far.0 records (said_by m.entry) out.old).buffer }
{
    if codes.bad_group(records) {
        return Err(Refusal::NoSuchGroup);
    }
    if LAST_CIC < m.cic.0 {
        return Err(Refusal::NoSuchCircuit);
    }
    let fixed = formats::fixed_length(m.heading).ok_or(Refusal::NoSuchHeading)?;
    if m.too_large() {
        return Err(Refusal::NoSuchEvent);
    }
    let label = label_to(codes, m.cic);
    if m.heading == formats::IAM {
        return write_iam(label, m, out);
    }
    write_short(label, m, fixed, out)
}
