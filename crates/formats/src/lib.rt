// What the reader and the writer of messages share (Q.723, "Formats and codes"; docs/RULES.md, "Messages on the link"): how long a message is
// by its heading, which address signals are refused, and which numbers are short.
#![tactic(auto)]

ghost use Rattle.std.specs.Prelude.{◌≡◌, cond, ltb, Some, None};
ghost use Rattle.formats.specs.Octets.{bad_code, bad_codes, first_bad, above_fifteen, bad_address, besides_st, to_operator, short};
ghost use Rattle.formats.specs.Messages.{fixed_length, listed};
ghost use Rattle.formats.specs.Way.{group_of};

// The headings of the two messages that have fields of their own. They stand beside those of `names`, since a heading from C is any number of 32
// bits.
pub const IAM: u32 = 0x11;

pub const ACM: u32 = 0x14;

// A label is DPC and, so many times each, OPC and CIC.
pub const OPC_PLACE: u64 = 0x4000;

pub const CIC_PLACE: u64 = 0x10000000;

// An IAM's two octets are its indicators and, so many times, its count of address signals.
pub const COUNT_PLACE: u64 = 4096;

// The octets of a message before its address signals: of one that has no fields of its own, label and heading.
pub const PLAIN_OCTETS: usize = 6;

pub const ACM_OCTETS: usize = 7;

pub const IAM_OCTETS: usize = 9;

// The octets in which the fields begin that a refusal may name, the first of the message being 0.
pub const DPC_OCTET: u64 = 0;

pub const OPC_OCTET: u64 = 1;

pub const CIC_OCTET: u64 = 3;

pub const HEADING_OCTET: u64 = 5;

pub const COUNT_OCTET: u64 = 8;

// The largest address signal, and the most of them.
const LAST_CODE: u8 = 15;

const MOST_CODES: usize = 15;

// The address signal that ends the address.
const ST: u8 = 15;

// The address signals that call an operator.
const CODE_11: u8 = 11;

const CODE_12: u8 = 12;

// There are so many natures of address, told by the two lowest indicators; that of an international number; and how many signals besides ST make one
// long enough.
const NATURES: u32 = 4;

const INTERNATIONAL: u32 = 3;

const ENOUGH_SIGNALS: usize = 4;

// The headings that begin with H0, as Q.723 groups them, as a set: H1 is in it where the bit worth 2^H1 is set.
fn group_of(h0: u32) -> u32
    ensures { result ≡ group_of h0 }
{
    match h0 {
        1 | 4 => 0x002,
        5 => 0x3fe,
        6 => 0x03e,
        7 => 0x0be,
        _ => 0,
    }
}

// Whether a signal has the heading. A set is asked: which signal it is does not matter here.
fn listed(heading: u32) -> bool
    ensures { result ≡ listed heading }
{
    heading < 256 && (group_of(heading % 16) >> (heading / 16)) % 2 == 1
}

// The octets that a message with the heading has before its address signals, if a signal has it.
pub fn fixed_length(heading: u32) -> Option<usize>
    ensures { result ≡ cond (listed heading) (Some (fixed_length heading)) None }
{
    match heading {
        IAM => Some(IAM_OCTETS),
        ACM => Some(ACM_OCTETS),
        _ => listed(heading).then_some(PLAIN_OCTETS),
    }
}

// Whether a code is spare, or is ST where more signals follow. Digits are told first, since most signals are digits: by the match alone a whole
// address can take half as long again and more.
fn bad_code(code: u8, more: bool) -> bool
    ensures { result ≡ bad_code code more }
{
    if code < 10 {
        return false;
    }
    match code {
        ST => more,
        10 | 13 | 14 => true,
        _ => false,
    }
}

// How many address signals stand before the first that is refused, if one is.
pub fn first_bad(address: &[u8]) -> Option<usize>
    ensures { result ≡ cond (bad_codes address.now) (Some (first_bad address.now)) None }
{
    for (i, &code) in address.iter().enumerate() {
        if bad_code(code, i + 1 < address.len()) {
            return Some(i);
        }
    }
    None
}

// Whether some address signal is refused.
pub fn bad_codes(address: &[u8]) -> bool
    ensures { result ≡ bad_codes address.now }
{
    first_bad(address).is_some()
}

// Whether an address begins with an operator's code.
fn to_operator(address: &[u8]) -> bool
    ensures { result ≡ to_operator address.now }
{
    matches!(address.first(), Some(&(CODE_11 | CODE_12)))
}

// Whether an address has fewer than four signals besides ST. Those behind the fourth are not looked at.
fn few_signals(address: &[u8]) -> bool
    ensures { result ≡ ltb (besides_st address.now) 4 }
{
    address
        .iter()
        .filter(|&&code| code != ST)
        .take(ENOUGH_SIGNALS)
        .count()
        < ENOUGH_SIGNALS
}

// Whether an international number is short.
#[tactic(auto, unfolding(crate::specs::Octets::short))]
pub fn short(indicators: u32, address: &[u8]) -> bool
    ensures { result ≡ short indicators address.now }
{
    indicators % NATURES == INTERNATIONAL && !to_operator(address) && few_signals(address)
}

// Whether an address signal is above 15.
pub fn above_fifteen(address: &[u8]) -> bool
    ensures { result ≡ above_fifteen address.now }
{
    address.iter().any(|&code| LAST_CODE < code)
}

// Whether an address has no signal or more than 15, or one of them is refused.
#[tactic(auto, unfolding(crate::specs::Octets::bad_address))]
pub fn bad_address(address: &[u8]) -> bool
    ensures { result ≡ bad_address address.now }
{
    address.is_empty() || MOST_CODES < address.len() || bad_codes(address)
}
