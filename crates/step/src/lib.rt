// One event on one circuit, by value: what is held of it as two octets, behind refusal 12. Calls and marks are put together here.
#![tactic(auto)]

ghost use Rattle.std.specs.Prelude.{◌≡◌};
ghost use Rattle.codes.specs.Numbers.{event_of};
ghost use Rattle.answers.specs.Answers.{packed, Unpacked};
ghost use Rattle.step.specs.Way.{answer_to};
ghost use Rattle.step.specs.Way.{is_iam, marks_part, together, behind_marks, signal_way, event_way, found_way};

use calls::Call;
use circuit::{Event, Held, Signal};
use codes::Numbers;
use marks::{Flags, Marked};
use names::Refusal;

fn is_iam(s: Signal) -> bool
    ensures { result ≡ is_iam s }
{
    matches!(s, Signal::Iam)
}

// Own block keeps an IAM out of an idle circuit; every other signal does to the marks what it does in any state.
fn marks_part(held: Held, s: Signal) -> Marked
    ensures { result ≡ marks_part held.state held.flags s }
{
    if is_iam(s) && held.state == names::IDLE && Flags::from(held.flags).own {
        marks::kept_out(held.flags)
    } else {
        marks::on_signal(held.flags, s)
    }
}

// What the marks send goes out before what the call sends.
fn together(m: Marked, c: Call) -> u64
    ensures { result ≡ together m c }
{
    let held = Held {
        state: c.state,
        flags: m.flags,
    };
    if m.sends == names::NO_SIGNAL {
        answers::sent(c.sends, held, c.ind)
    } else {
        answers::answer(names::ACCEPTED, c.ind, held, m.sends, c.sends)
    }
}

// What comes behind the marks: a signal that goes no further than they do is discarded.
fn behind_marks(con: bool, state: u8, s: Signal, m: Marked) -> u64
    ensures { result ≡ behind_marks con state s m }
{
    if m.stops {
        return answers::sent(
            m.sends,
            Held {
                state,
                flags: m.flags,
            },
            names::IND_DISCARDED,
        );
    }
    together(m, calls::on_signal(con, state, s))
}

fn on_event(con: bool, held: Held, e: Event) -> u64
    ensures { result ≡ event_way con held.state held.flags e }
{
    match e {
        Event::Arrives(s) => behind_marks(con, held.state, s, marks_part(held, s)),
        Event::Ordered(k) => commands::on_command(held, k),
        Event::RunsOut(t) => commands::on_timer(held, t),
    }
}

fn on_found(con: bool, held: Held, event: Option<Event>) -> u64
    ensures { result ≡ found_way con held.state held.flags event }
{
    let Some(e) = event else {
        return answers::refused(u8::from(Refusal::NoSuchEvent), held);
    };
    on_event(con, held, e)
}

// What an event, given by its numbers, answers on a record, at the end that controls the circuit (con) or at the other. The event is read behind
// refusal 12, at the place where it is used.
pub fn step(con: bool, held: Held, n: Numbers) -> u64
    ensures packs { result ≡ packed (answer_to con held.state held.flags (event_of n.kind n.code n.detail)) }
    ensures unpacks { Unpacked result (answer_to con held.state held.flags (event_of n.kind n.code n.detail)) }
{
    if !layout::allowed(held) {
        return answers::refused(u8::from(Refusal::BadRecord), held);
    }
    on_found(con, held, codes::event_of(n))
}
