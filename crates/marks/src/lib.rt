// The marks of a circuit: own block, far block, awaiting BLA, awaiting UBA, as the octet of flags. What signals and commands do to them and
// send, and which are legal. Nothing here knows of a call, or of a state but that a reset is awaited.
#![tactic(auto)]

ghost use Rattle.std.specs.Prelude.{◌≡◌, cond};
ghost use Rattle.marks.specs.Flags.{flags_in, octet_of};
ghost use Rattle.marks.specs.Way.{legal, legal_in_reset, marked, blocked, unblocked, kept_out, reset, on_marks};

use circuit::Signal;

// The four flags of an octet.
#[derive(Clone, Copy, Debug, PartialEq, Eq)]
pub struct Flags {
    pub own: bool,
    pub far: bool,
    pub bla: bool,
    pub uba: bool,
}

// What is done to the flags, the heading of what is sent for it, 0 for none, and whether the signal goes no further than the marks.
// Numbers and no Option: each goes as it is into its octet of the answer, where a host in C reads 0 for no signal, and
// `marked` of specs/Way has 0 for none.
#[derive(Clone, Copy, Debug, PartialEq, Eq)]
pub struct Marked {
    pub flags: u8,
    pub sends: u8,
    pub stops: bool,
}

// No flag: what a restart leaves.
pub const NONE: u8 = 0;

impl From<u8> for Flags {
    ghost from_gives = { λ octet f. f ≡ flags_in octet };

    // An octet's higher bits are no flag.
    fn from(octet: u8) -> Flags {
        Flags {
            own: octet & names::OWN_BLOCK != 0,
            far: octet & names::FAR_BLOCK != 0,
            bla: octet & names::AWAITING_BLA != 0,
            uba: octet & names::AWAITING_UBA != 0,
        }
    }
}

impl From<Flags> for u8 {
    ghost from_gives = { λ f octet. octet ≡ octet_of f };

    fn from(f: Flags) -> u8 {
        names::OWN_BLOCK * u8::from(f.own)
            + names::FAR_BLOCK * u8::from(f.far)
            + names::AWAITING_BLA * u8::from(f.bla)
            + names::AWAITING_UBA * u8::from(f.uba)
    }
}

// Whether the flags are legal.
pub fn legal(flags: u8) -> bool
    ensures { result ≡ legal flags }
{
    matches!(flags, 0 | 1 | 2 | 3 | 5 | 7 | 8 | 10)
}

// Whether they are while a reset is awaited: only far block may be set.
pub fn legal_in_reset(flags: u8) -> bool
    ensures { result ≡ legal_in_reset flags }
{
    matches!(flags, 0 | 2)
}

// The flags after the commands block and unblock. Two functions, since each is a public promise, and one expression.
pub fn blocked(flags: u8) -> u8
    ensures { result ≡ blocked flags }
{
    u8::from(Flags {
        own: true,
        bla: true,
        uba: false,
        ..Flags::from(flags)
    })
}

pub fn unblocked(flags: u8) -> u8
    ensures { result ≡ unblocked flags }
{
    u8::from(Flags {
        own: false,
        bla: false,
        uba: true,
        ..Flags::from(flags)
    })
}

fn outcome(after: Flags, sends: u8, stops: bool) -> Marked
    ensures { result ≡ marked (octet_of after) sends stops }
{
    Marked {
        flags: u8::from(after),
        sends,
        stops,
    }
}

// An IAM that own block keeps out of an idle circuit.
pub fn kept_out(flags: u8) -> Marked
    ensures { result ≡ kept_out flags }
{
    outcome(
        Flags {
            bla: true,
            ..Flags::from(flags)
        },
        names::BLO,
        true,
    )
}

// What RSC does to the marks, before its row.
pub fn reset(flags: u8) -> Marked
    ensures { result ≡ reset flags }
{
    let held = Flags::from(flags);
    let sends = if held.own {
        names::BLO
    } else {
        names::NO_SIGNAL
    };
    outcome(
        Flags {
            far: false,
            bla: held.own || held.bla,
            ..held
        },
        sends,
        false,
    )
}

// What a signal does to the marks. Most signals touch no flag, so the flags are taken apart only where one is touched.
pub fn on_signal(flags: u8, s: Signal) -> Marked
    ensures { result ≡ on_marks flags s }
{
    match s {
        Signal::Blo => outcome(
            Flags {
                far: true,
                ..Flags::from(flags)
            },
            names::BLA,
            false,
        ),
        Signal::Ubl => outcome(
            Flags {
                far: false,
                ..Flags::from(flags)
            },
            names::UBA,
            false,
        ),
        Signal::Bla => outcome(
            Flags {
                bla: false,
                ..Flags::from(flags)
            },
            names::NO_SIGNAL,
            !Flags::from(flags).bla,
        ),
        Signal::Uba => outcome(
            Flags {
                uba: false,
                ..Flags::from(flags)
            },
            names::NO_SIGNAL,
            !Flags::from(flags).uba,
        ),
        Signal::Rsc => reset(flags),
        _ => Marked {
            flags,
            sends: names::NO_SIGNAL,
            stops: false,
        },
    }
}
