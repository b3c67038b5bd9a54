// What every program shares that makes text of a file in parts: a file is a group's record and then one record after another, and its
// text a line for each and a last line. What a record is, and its line, is for the program to say.
#![tactic(auto)]

ghost use Rattle.std.specs.Prelude.{◌≡◌, cond, ◌-◌, ◌≤◌, eqb, List, ℕ, length};
ghost use Rattle.text.specs.Writing.{Printed, in_room};
ghost use Rattle.words.specs.Octets.{over};
ghost use Rattle.words.specs.Words.{largest};
ghost use Rattle.parts.specs.declared.Running.{Running};
ghost use Rattle.parts.specs.Whole.{Making, Lawful, no_state, onward};
ghost use Rattle.parts.specs.Feed.{may_go, starts_none, share_in_room, share, stays, begins, fed, answer_of, is_over, last_line, kept, Within};
ghost use Rattle.parts.specs.Way.{Lands, Ran};

use records::Group;

// The largest ordinal; a record that has it is not taken, since none could follow.
const LAST: u64 = words::LARGEST;

// A file behind its group: what the group's record says, and the next record's ordinal.
#[derive(Clone, Copy, Debug, PartialEq, Eq)]
pub struct Running {
    pub group: Group,
    pub next: u64,
}

// Where the text of a file stands: before its group, at a group that is refused, among the records, or where it was cut, with the next
// record's ordinal.
#[derive(Clone, Copy, Debug, PartialEq, Eq)]
pub enum Stage {
    Start,
    Bad,
    Runs(Running),
    Cut(u64),
}

// How many octets one record took and how many its line has.
#[derive(Clone, Copy, Debug, PartialEq, Eq)]
pub struct Turn {
    pub taken: usize,
    pub written: usize,
}

// How many octets of the part were taken and how many of the room written, and where the text stands then.
#[derive(Clone, Copy, Debug, PartialEq, Eq)]
pub struct Fed {
    pub taken: usize,
    pub written: usize,
    pub stage: Stage,
}

// A kind of file. What goes along from record to record lies in lent octets, which a kind that needs nothing leaves alone.
pub trait Kind {
    ghost State: { Type 0 };

    // What the lent octets hold, and what a record is and its line says.
    ghost state_in: { List ℕ → State };

    ghost making: { Making State };

    // The kind is `Lawful`, so that a run ends and stays within its part. This is the contract of a function that does nothing, and no law of the
    // trait, since what an impl gives for a law may not cite its crate's proofs.
    fn is_lawful()
        ensures { Lawful making };

    // The record at the start of the part, where one stands there whole and the room has a line's octets; its line is written.
    fn turn(lent: &mut [u8], r: Running, part: &[u8], room: &mut [u8]) -> Option<Turn>
        ensures { Lands (share_in_room (making.ahead r (state_in lent.old) part.now) (state_in lent.old) (length room.old)) room.old result (state_in lent.new) room.new };

    // Whether the part goes on with what is no record, so that the file is cut there.
    fn starts_none(part: &[u8]) -> bool
        ensures { (r : Running) (state : State) → result ≡ starts_none (making.ahead r state part.now) };
}

impl Running {
    // Whether a record may be taken: the room has a line's octets, and there is a further ordinal.
    pub fn may_go(self, room: usize) -> bool
        ensures { result ≡ may_go self room }
    {
        text::LINE <= room && self.next < LAST
    }

    // The next record has the next ordinal. There is none behind the largest, which stays.
    pub fn onward(self) -> Running
        ensures { result ≡ cond (eqb self.next largest) self (onward self) }
    {
        if self.next == LAST {
            return self;
        }
        Running {
            next: self.next + 1,
            ..self
        }
    }
}

impl Stage {
    // Nothing is taken here, and nothing written.
    pub fn stay(self) -> Fed
        ensures { result ≡ answer_of (stays self no_state) }
    {
        Fed {
            taken: 0,
            written: 0,
            stage: self,
        }
    }

    // Whether nothing more of the file is to be read.
    pub fn is_over(self) -> bool
        ensures { result ≡ is_over self }
    {
        matches!(self, Stage::Bad | Stage::Cut(_))
    }

    // The last line, where the file has ended and `rest` is what was not taken of it, or where its text is over.
    pub fn finish(self, rest: &[u8], room: &mut [u8]) -> usize
        ensures printed { Printed room.old (in_room room.old (last_line self rest.now)) result room.new }
        ensures upper_bound { result ≤ length room.old }
    {
        match self {
            Stage::Start | Stage::Bad => text::bad_group_line(room),
            Stage::Runs(r) => last_of(r, rest, room),
            Stage::Cut(next) => text::cut_line(room, next),
        }
    }
}

#[tactic(auto, unfolding(crate::specs::Feed::last_line))]
fn last_of(r: Running, rest: &[u8], room: &mut [u8]) -> usize
    ensures printed { Printed room.old (in_room room.old (last_line (Stage.Runs r) rest.now)) result room.new }
    ensures upper_bound { result ≤ length room.old }
{
    if rest.is_empty() {
        return text::end_line(room, r.next.saturating_sub(1));
    }
    text::cut_line(room, r.next)
}

// The group, once its record is there whole.
pub fn begin(part: &[u8], room: &mut [u8]) -> Fed
    ensures answers { result ≡ answer_of (begins no_state part.now (length room.old)) }
    ensures writes { room.new ≡ over (begins no_state part.now (length room.old)).text room.old }
    ensures within { Within result part.now room.old }
{
    let octets = records::octets_of(records::GROUP);
    if part.len() < octets {
        return Stage::Start.stay();
    }
    if records::refused_start(part) {
        return Stage::Bad.stay();
    }
    if room.len() < text::LINE {
        return Stage::Start.stay();
    }
    let group = records::group_in(part);
    let written = text::group_line(room, group.codes, group.circuits);
    Fed {
        taken: octets,
        written,
        stage: Stage::Runs(Running { group, next: 1 }),
    }
}

// The record at the start, where one stands there whole, the room has a line's octets and there is a further ordinal.
fn one<K: Kind>(lent: &mut [u8], r: Running, part: &[u8], room: &mut [u8]) -> Option<Turn>
    ensures { Lands (share K.making r (K.state_in lent.old) part.now (length room.old)) room.old result (K.state_in lent.new) room.new }
{
    if r.may_go(room.len()) {
        return K::turn(lent, r, part, room);
    }
    None
}

// Record after record, until none can be taken.
fn run<K: Kind>(lent: &mut [u8], r: Running, part: &[u8], room: &mut [u8]) -> Fed
    ensures { Ran K.making r (K.state_in lent.old) part.now room.old result (K.state_in lent.new) room.new }
{
    K::is_lawful();
    let mut here = r;
    let mut at = 0;
    let mut out = 0;
    while let Some(t) = one::<K>(lent, here, &part[at..], &mut room[out..]) {
        at += t.taken;
        out += t.written;
        here = here.onward();
    }
    let stage = if K::starts_none(&part[at..]) {
        Stage::Cut(here.next)
    } else {
        Stage::Runs(here)
    };
    Fed {
        taken: at,
        written: out,
        stage,
    }
}

// The text goes on with the next part of its file, which starts at the first octet that was not taken yet.
pub fn feed<K: Kind>(lent: &mut [u8], stage: Stage, part: &[u8], room: &mut [u8]) -> Fed
    ensures answers { result ≡ answer_of (fed K.making stage (K.state_in lent.old) part.now (length room.old)) }
    ensures leaves { K.state_in lent.new ≡ (fed K.making stage (K.state_in lent.old) part.now (length room.old)).state }
    ensures writes { room.new ≡ over (fed K.making stage (K.state_in lent.old) part.now (length room.old)).text room.old }
    ensures within { Within result part.now room.old }
{
    match stage {
        Stage::Start => begin(part, room),
        Stage::Runs(r) => run::<K>(lent, r, part, room),
        Stage::Bad | Stage::Cut(_) => stage.stay(),
    }
}

// Moves what lies from `at` up to `have` to the start of a buffer, and answers how many octets that is. Where the two are no places of the
// buffer, one behind the other, it moves nothing and answers 0.
pub fn keep(buffer: &mut [u8], at: usize, have: usize) -> usize
    ensures answers { result ≡ length (kept buffer.old at have) }
    ensures moves { buffer.new ≡ over (kept buffer.old at have) buffer.old }
    ensures within { result ≤ length buffer.old }
{
    if buffer.len() < have || have < at {
        return 0;
    }
    buffer.copy_within(at..have, 0);
    have - at
}
