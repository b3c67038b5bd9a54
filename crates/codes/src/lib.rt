// The numbers of docs/RULES.md for signals and events: a failure's heading and the signal of a heading; the event of a kind, a code and a detail.
#![tactic(auto)]

ghost use Rattle.std.specs.Prelude.{◌≡◌, ◌<◌};
ghost use Rattle.codes.specs.Headings.{failure_heading, failure_of, signal_of};
ghost use Rattle.codes.specs.Numbers.{signal_event, complete, answer, fail_with, command_event, timer_event, event_of};

use circuit::{AddressType, Charging, Command, Event, Failure, Signal, Timer};

// An event by numbers, as a host gives it: its kind (1 signal, 2 command, 3 timer), its code and its detail.
#[derive(Clone, Copy, Debug, PartialEq, Eq)]
pub struct Numbers {
    pub kind: u32,
    pub code: u32,
    pub detail: u32,
}

// A function and no From, and the next one no TryFrom: an impl would have to stand with the type, which is circuit's, and the
// numbers are this crate's.
pub fn failure_heading(f: Failure) -> u8
    ensures { result ≡ failure_heading f }
{
    match f {
        Failure::Sec => 0x15,
        Failure::Cgc => 0x25,
        Failure::Nnc => 0x35,
        Failure::Adi => 0x45,
        Failure::Cfl => 0x55,
        Failure::Ssb => 0x65,
        Failure::Unn => 0x75,
        Failure::Los => 0x85,
        Failure::Sst => 0x95,
    }
}

pub fn failure_of(heading: u32) -> Option<Failure>
    ensures { result ≡ failure_of heading }
{
    match heading {
        0x15 => Some(Failure::Sec),
        0x25 => Some(Failure::Cgc),
        0x35 => Some(Failure::Nnc),
        0x45 => Some(Failure::Adi),
        0x55 => Some(Failure::Cfl),
        0x65 => Some(Failure::Ssb),
        0x75 => Some(Failure::Unn),
        0x85 => Some(Failure::Los),
        0x95 => Some(Failure::Sst),
        _ => None,
    }
}

// The signal that has the heading, an ACM with the octet given. No TryFrom, since the octet comes beside the heading.
pub fn signal_of(heading: u32, octet: u8) -> Option<Signal>
    ensures { result ≡ signal_of heading octet }
{
    match heading {
        0x11 => Some(Signal::Iam),
        0x14 => Some(Signal::Acm(octet)),
        0x16 => Some(Signal::Anc),
        0x26 => Some(Signal::Ann),
        0x36 => Some(Signal::Cbk),
        0x46 => Some(Signal::Clf),
        0x56 => Some(Signal::Ran),
        0x17 => Some(Signal::Rlg),
        0x27 => Some(Signal::Blo),
        0x37 => Some(Signal::Bla),
        0x47 => Some(Signal::Ubl),
        0x57 => Some(Signal::Uba),
        0x77 => Some(Signal::Rsc),
        _ => failure_of(heading).map(Signal::Fail),
    }
}

// A signal with a detail that is not 0: an ACM with its octet.
fn with_octet(code: u32, detail: u32) -> Option<Event>
    requires { 0 < detail }
    ensures { result ≡ signal_event code detail }
{
    match (code, u8::try_from(detail)) {
        (0x14, Ok(octet)) => Some(Event::Arrives(Signal::Acm(octet))),
        _ => None,
    }
}

fn signal_event(code: u32, detail: u32) -> Option<Event>
    ensures { result ≡ signal_event code detail }
{
    if 0 < detail {
        return with_octet(code, detail);
    }
    Some(Event::Arrives(signal_of(code, 0)?))
}

fn complete(detail: u32) -> Option<Event>
    ensures { result ≡ complete detail }
{
    match detail {
        0 => Some(Event::Ordered(Command::AddressComplete(AddressType::Plain, false))),
        1 => Some(Event::Ordered(Command::AddressComplete(AddressType::Charge, false))),
        2 => Some(Event::Ordered(Command::AddressComplete(AddressType::NoCharge, false))),
        3 => Some(Event::Ordered(Command::AddressComplete(AddressType::Payphone, false))),
        4 => Some(Event::Ordered(Command::AddressComplete(AddressType::Plain, true))),
        5 => Some(Event::Ordered(Command::AddressComplete(AddressType::Charge, true))),
        6 => Some(Event::Ordered(Command::AddressComplete(AddressType::NoCharge, true))),
        7 => Some(Event::Ordered(Command::AddressComplete(AddressType::Payphone, true))),
        _ => None,
    }
}

fn answer(detail: u32) -> Option<Event>
    ensures { result ≡ answer detail }
{
    match detail {
        0 => Some(Event::Ordered(Command::Answer(Charging::Charged))),
        1 => Some(Event::Ordered(Command::Answer(Charging::Free))),
        _ => None,
    }
}

fn fail_with(heading: u32) -> Option<Event>
    ensures { result ≡ fail_with (failure_of heading) }
{
    Some(Event::Ordered(Command::FailCall(failure_of(heading)?)))
}

fn command_event(code: u32, detail: u32) -> Option<Event>
    ensures { result ≡ command_event code detail }
{
    match (code, detail) {
        (1, 0) => Some(Event::Ordered(Command::Seize)),
        (2, 0) => Some(Event::Ordered(Command::Release)),
        (3, _) => complete(detail),
        (4, _) => answer(detail),
        (5, 0) => Some(Event::Ordered(Command::ClearBack)),
        (6, 0) => Some(Event::Ordered(Command::ReAnswer)),
        (7, _) => fail_with(detail),
        (8, 0) => Some(Event::Ordered(Command::Block)),
        (9, 0) => Some(Event::Ordered(Command::Unblock)),
        (10, 0) => Some(Event::Ordered(Command::Restart)),
        _ => None,
    }
}

fn timer_event(code: u32, detail: u32) -> Option<Event>
    ensures { result ≡ timer_event code detail }
{
    match (code, detail) {
        (1, 0) => Some(Event::RunsOut(Timer::AddressWait)),
        (2, 0) => Some(Event::RunsOut(Timer::AnswerWait)),
        (3, 0) => Some(Event::RunsOut(Timer::IncomingHangUp)),
        (4, 0) => Some(Event::RunsOut(Timer::Repeat)),
        (5, 0) => Some(Event::RunsOut(Timer::OneMinute)),
        (6, 0) => Some(Event::RunsOut(Timer::BlockRepeat)),
        _ => None,
    }
}

// The event of these numbers; where there is none, that is refusal 3. No TryFrom: without an event there is nothing to say but None.
pub fn event_of(n: Numbers) -> Option<Event>
    ensures { result ≡ event_of n.kind n.code n.detail }
{
    match n.kind {
        1 => signal_event(n.code, n.detail),
        2 => command_event(n.code, n.detail),
        3 => timer_event(n.code, n.detail),
        _ => None,
    }
}
