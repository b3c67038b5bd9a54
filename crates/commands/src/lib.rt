// What a command of the host and a timer do to a circuit: the rows of docs/RULES.md, "Commands" and "Timers". What is held of a circuit are two
// octets, its state and its flags; the answer is one number (`answers`).
#![tactic(auto)]

ghost use Rattle.std.specs.Prelude.{◌≡◌, cond};
ghost use Rattle.answers.specs.Answers.{word};
ghost use Rattle.commands.specs.Tables.{late};
ghost use Rattle.commands.specs.Way.{within, command_way, timer_way};
ghost use Rattle.codes.specs.Headings.{heading_of};
ghost use Rattle.commands.specs.Tables.{answer_signal};
ghost use Rattle.names.specs.Refusal.{number_of};

use circuit::{Charging, Command, Failure, Held, Timer};
use marks::Flags;
use names::Refusal;

// A row that keeps the flags: in the states from `low` to `high` a signal is sent, and the circuit goes to a new state; elsewhere the event is
// refused.
#[derive(Clone, Copy, Debug, PartialEq, Eq)]
struct Transition {
    low: u8,
    high: u8,
    heading: u8,
    new: u8,
    ind: u8,
    unmet: Refusal,
}

impl Transition {
    fn answer(self, held: Held) -> u64
        ensures { result ≡ within held.state held.flags self.low self.high self.heading self.new self.ind (number_of self.unmet) }
    {
        if self.low <= held.state && held.state <= self.high {
            answers::sent(
                self.heading,
                Held {
                    state: self.new,
                    ..held
                },
                self.ind,
            )
        } else {
            refused(self.unmet, held)
        }
    }
}

const SEIZE: Transition = Transition {
    low: names::IDLE,
    high: names::IDLE,
    heading: names::IAM,
    new: names::OUT_SEIZED,
    ind: names::IND_NOTHING,
    unmet: Refusal::CommandNotAllowed,
};

const RELEASE: Transition = Transition {
    low: names::OUT_SEIZED,
    high: names::OUT_HUNG_UP,
    heading: names::CLF,
    new: names::AWAITING_RELEASE_GUARD,
    ind: names::IND_NOTHING,
    unmet: Refusal::CommandNotAllowed,
};

// Where the subscriber is not free.
const ADDRESS_COMPLETE: Transition = Transition {
    low: names::IN_SEIZED,
    high: names::IN_SEIZED,
    heading: names::ACM,
    new: names::IN_PROCEEDING,
    ind: names::IND_NOTHING,
    unmet: Refusal::CommandNotAllowed,
};

// With charge.
const ANSWER: Transition = Transition {
    low: names::IN_PROCEEDING,
    high: names::IN_SUBSCRIBER_FREE,
    heading: names::ANC,
    new: names::IN_ANSWERED,
    ind: names::IND_NOTHING,
    unmet: Refusal::CommandNotAllowed,
};

const CLEAR_BACK: Transition = Transition {
    low: names::IN_ANSWERED,
    high: names::IN_ANSWERED,
    heading: names::CBK,
    new: names::IN_HUNG_UP,
    ind: names::IND_NOTHING,
    unmet: Refusal::CommandNotAllowed,
};

const RE_ANSWER: Transition = Transition {
    low: names::IN_HUNG_UP,
    high: names::IN_HUNG_UP,
    heading: names::RAN,
    new: names::IN_ANSWERED,
    ind: names::IND_NOTHING,
    unmet: Refusal::CommandNotAllowed,
};

// With CFL, which is late.
const FAIL_CALL: Transition = Transition {
    low: names::IN_SEIZED,
    high: names::IN_PROCEEDING,
    heading: names::CFL,
    new: names::IN_FAILED,
    ind: names::IND_NOTHING,
    unmet: Refusal::CommandNotAllowed,
};

const ADDRESS_WAIT: Transition = Transition {
    low: names::OUT_SEIZED,
    high: names::OUT_SEIZED,
    heading: names::CLF,
    new: names::AWAITING_RELEASE_GUARD,
    ind: names::IND_CALL_FAILED,
    unmet: Refusal::TimerNotRunning,
};

const INCOMING_HANG_UP: Transition = Transition {
    low: names::IN_HUNG_UP,
    high: names::IN_HUNG_UP,
    heading: names::CFL,
    new: names::IN_FAILED,
    ind: names::IND_NOTHING,
    unmet: Refusal::TimerNotRunning,
};

// What a restart leaves.
const RESTARTED: Held = Held {
    state: names::AWAITING_RESET,
    flags: marks::NONE,
};

fn refused(r: Refusal, held: Held) -> u64
    ensures { result ≡ word (number_of r) 0 held.state held.flags 0 0 }
{
    answers::refused(u8::from(r), held)
}

fn seize(held: Held) -> u64
    ensures { result ≡ command_way held.state held.flags Command.Seize }
{
    if held.state == names::IDLE && Flags::from(held.flags).far {
        return refused(Refusal::FarBlocked, held);
    }
    SEIZE.answer(held)
}

fn proceeding(free: bool) -> u8
    ensures { result ≡ cond free 8 7 }
{
    if free {
        names::IN_SUBSCRIBER_FREE
    } else {
        names::IN_PROCEEDING
    }
}

fn answer_heading(charging: Charging) -> u8
    ensures { result ≡ heading_of (answer_signal charging) }
{
    match charging {
        Charging::Charged => names::ANC,
        Charging::Free => names::ANN,
    }
}

fn late(f: Failure) -> bool
    ensures { result ≡ late f }
{
    matches!(f, Failure::Cgc | Failure::Nnc | Failure::Cfl)
}

// The last state in which a failure may be sent: 7 for the late ones, else 6.
fn last_state(f: Failure) -> u8
    ensures { result ≡ cond (late f) 7 6 }
{
    if late(f) {
        names::IN_PROCEEDING
    } else {
        names::IN_SEIZED
    }
}

fn block(held: Held) -> u64
    ensures { result ≡ command_way held.state held.flags Command.Block }
{
    if Flags::from(held.flags).own || held.state == names::AWAITING_RESET {
        return refused(Refusal::CommandNotAllowed, held);
    }
    answers::sent(
        names::BLO,
        Held {
            flags: marks::blocked(held.flags),
            ..held
        },
        names::IND_NOTHING,
    )
}

fn unblock(held: Held) -> u64
    ensures { result ≡ command_way held.state held.flags Command.Unblock }
{
    if Flags::from(held.flags).own {
        answers::sent(
            names::UBL,
            Held {
                flags: marks::unblocked(held.flags),
                ..held
            },
            names::IND_NOTHING,
        )
    } else {
        refused(Refusal::CommandNotAllowed, held)
    }
}

pub fn on_command(held: Held, k: Command) -> u64
    ensures { result ≡ command_way held.state held.flags k }
{
    match k {
        Command::Seize => seize(held),
        Command::Release => RELEASE.answer(held),
        Command::AddressComplete(_, free) => Transition {
            new: proceeding(free),
            ..ADDRESS_COMPLETE
        }
        .answer(held),
        Command::Answer(charging) => Transition {
            heading: answer_heading(charging),
            ..ANSWER
        }
        .answer(held),
        Command::ClearBack => CLEAR_BACK.answer(held),
        Command::ReAnswer => RE_ANSWER.answer(held),
        Command::FailCall(f) => Transition {
            high: last_state(f),
            heading: codes::failure_heading(f),
            ..FAIL_CALL
        }
        .answer(held),
        Command::Block => block(held),
        Command::Unblock => unblock(held),
        Command::Restart => answers::sent(names::RSC, RESTARTED, names::IND_NOTHING),
    }
}

// By its own test, since the two states are no range: ADDRESS_WAIT with these bounds would take the state between them too.
fn answer_wait(held: Held) -> u64
    ensures { result ≡ timer_way held.state held.flags Timer.AnswerWait }
{
    if matches!(held.state, names::OUT_PROCEEDING | names::OUT_HUNG_UP) {
        answers::sent(
            names::CLF,
            Held {
                state: names::AWAITING_RELEASE_GUARD,
                ..held
            },
            names::IND_CALL_FAILED,
        )
    } else {
        refused(Refusal::TimerNotRunning, held)
    }
}

fn repeat(held: Held) -> u64
    ensures { result ≡ timer_way held.state held.flags Timer.Repeat }
{
    match held.state {
        names::AWAITING_RELEASE_GUARD => answers::sent(names::CLF, held, names::IND_NOTHING),
        names::IN_FAILED => answers::sent(names::CFL, held, names::IND_NOTHING),
        names::AWAITING_RESET => answers::sent(names::RSC, held, names::IND_NOTHING),
        _ => refused(Refusal::TimerNotRunning, held),
    }
}

// In 5 and 11 what a restart does, in 12 RSC with the record unchanged.
fn one_minute(held: Held) -> u64
    ensures { result ≡ timer_way held.state held.flags Timer.OneMinute }
{
    match held.state {
        names::AWAITING_RELEASE_GUARD | names::IN_FAILED => {
            answers::sent(names::RSC, RESTARTED, names::IND_ALERT_MAINTENANCE)
        }
        names::AWAITING_RESET => answers::sent(names::RSC, held, names::IND_ALERT_MAINTENANCE),
        _ => refused(Refusal::TimerNotRunning, held),
    }
}

fn block_repeat(held: Held) -> u64
    ensures { result ≡ timer_way held.state held.flags Timer.BlockRepeat }
{
    let flags = Flags::from(held.flags);
    if flags.bla {
        answers::sent(names::BLO, held, names::IND_NOTHING)
    } else if flags.uba {
        answers::sent(names::UBL, held, names::IND_NOTHING)
    } else {
        refused(Refusal::TimerNotRunning, held)
    }
}

pub fn on_timer(held: Held, t: Timer) -> u64
    ensures { result ≡ timer_way held.state held.flags t }
{
    match t {
        Timer::AddressWait => ADDRESS_WAIT.answer(held),
        Timer::AnswerWait => answer_wait(held),
        Timer::IncomingHangUp => INCOMING_HANG_UP.answer(held),
        Timer::Repeat => repeat(held),
        Timer::OneMinute => one_minute(held),
        Timer::BlockRepeat => block_repeat(held),
    }
}
