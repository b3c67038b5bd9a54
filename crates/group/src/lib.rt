// A group of circuits whose records lie in a lent table: an event on one of its circuits, with every refusal of docs/RULES.md. The answer is one
// number (`answers`).
#![tactic(auto)]

ghost use Rattle.std.specs.Prelude.{◌≡◌, ◌<◌, length};
ghost use Rattle.codes.specs.Numbers.{event_of};
ghost use Rattle.answers.specs.Answers.{packed, Unpacked};
ghost use Rattle.layout.specs.Layout.{records_in};
ghost use Rattle.group.specs.Table.{step_in};
ghost use Rattle.group.specs.Way.{on_circuit};
ghost use Rattle.group.specs.Landing.{put_shown, freeing, accepted, landed};

use circuit::{Cic, Codes, Held};
use codes::Numbers;
use names::Refusal;

// What is shown where there is no circuit.
const NOTHING: Held = Held { state: 0, flags: 0 };

// What one circuit's step answered, with the circuit and what was held of it.
#[derive(Clone, Copy)]
struct Landing {
    cic: Cic,
    held: Held,
    answer: u64,
}

impl Landing {
    // The record that the answer shows is put at the circuit.
    fn store(self, table: &mut [u8]) -> u64
        ensures answers { result ≡ self.answer }
        ensures leaves { table.new ≡ put_shown table.old self.cic.0 self.answer }
    {
        layout::put(table, self.cic, answers::held_of(self.answer));
        self.answer
    }

    // An event that frees the circuit: the counter goes up by one and the record takes it.
    fn free(self, table: &mut [u8]) -> u64
        ensures answers { result ≡ (freeing table.old self.cic.0 self.held.state self.held.flags self.answer).answer }
        ensures leaves { table.new ≡ (freeing table.old self.cic.0 self.held.state self.held.flags self.answer).table }
    {
        let count = layout::counter_in(table);
        if words::LARGEST <= count {
            return answers::refused(u8::from(Refusal::CounterFull), self.held);
        }
        let taken = self.store(table);
        layout::put_counter(table, count + 1);
        layout::put_rank(table, self.cic, count + 1);
        taken
    }

    // An event that the circuit's step does not refuse: one that takes it from another state to idle frees the circuit.
    fn accept(self, table: &mut [u8]) -> u64
        ensures answers { result ≡ (accepted table.old self.cic.0 self.held.state self.held.flags self.answer).answer }
        ensures leaves { table.new ≡ (accepted table.old self.cic.0 self.held.state self.held.flags self.answer).table }
    {
        if self.held.state != names::IDLE && answers::held_of(self.answer).state == names::IDLE {
            self.free(table)
        } else {
            self.store(table)
        }
    }

    // What the step answered is put into the table.
    fn land(self, table: &mut [u8]) -> u64
        ensures answers { result ≡ (landed table.old self.cic.0 self.held.state self.held.flags self.answer).answer }
        ensures leaves { table.new ≡ (landed table.old self.cic.0 self.held.state self.held.flags self.answer).table }
    {
        if answers::refusal_of(self.answer) == names::ACCEPTED {
            self.accept(table)
        } else {
            self.answer
        }
    }
}

// A circuit of the group, which our end controls (con) or not: what is held of it is read once, and written once.
fn on_circuit(con: bool, table: &mut [u8], cic: Cic, numbers: Numbers) -> u64
    requires { cic.0 < records_in (length table.old) }
    ensures packs { result ≡ packed (on_circuit con table.old cic.0 (event_of numbers.kind numbers.code numbers.detail)).answer }
    ensures unpacks { Unpacked result (on_circuit con table.old cic.0 (event_of numbers.kind numbers.code numbers.detail)).answer }
    ensures leaves { table.new ≡ (on_circuit con table.old cic.0 (event_of numbers.kind numbers.code numbers.detail)).table }
{
    let held = layout::stored_at(table, cic).held;
    let answer = step::step(con, held, numbers);
    Landing { cic, held, answer }.land(table)
}

// An event, by its numbers, on a circuit of the group with these codes and this table. It takes the same time whatever the table's length.
pub fn step(codes: Codes, table: &mut [u8], cic: Cic, numbers: Numbers) -> u64
    ensures packs { result ≡ packed (step_in codes.own.0 codes.far.0 table.old cic.0 (event_of numbers.kind numbers.code numbers.detail)).answer }
    ensures unpacks { Unpacked result (step_in codes.own.0 codes.far.0 table.old cic.0 (event_of numbers.kind numbers.code numbers.detail)).answer }
    ensures leaves { table.new ≡ (step_in codes.own.0 codes.far.0 table.old cic.0 (event_of numbers.kind numbers.code numbers.detail)).table }
{
    if codes.are_bad() || layout::bad_length(table.len()) {
        return answers::refused(u8::from(Refusal::NoSuchGroup), NOTHING);
    }
    if layout::ends_before(table.len(), cic) {
        return answers::refused(u8::from(Refusal::NoSuchCircuit), NOTHING);
    }
    on_circuit(codes.control(cic), table, cic, numbers)
}
