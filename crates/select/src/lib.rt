// Which circuit to seize (docs/RULES.md, "Choice of a circuit"; Q.724, 2.4, method 2). Nothing is seized, and nothing lent is changed.
#![tactic(auto)]

ghost use Rattle.std.specs.Prelude.{◌≡◌, ◌-◌, ◌%◌, ◌<◌, ◌≤◌, length};
ghost use Rattle.std.specs.List.{list_all, range_with_len};
ghost use Rattle.layout.specs.Layout.{records_in};
ghost use Rattle.circuit.specs.Groups.{by_parity};
ghost use Rattle.select.specs.Selection.{choosing_of, told, free, select_in};
ghost use Rattle.select.specs.Way.{allowed_there, found, released_later, concluded, searched, Led, sought};

use circuit::{Cic, Codes};
use layout::Stored;
use names::Refusal;

// The circuit that is chosen, and how many records were looked at.
#[derive(Clone, Copy, Debug, PartialEq, Eq)]
pub struct Choice {
    pub cic: Cic,
    pub looked: u32,
}

// The circuit that goes before all of its kind so far, with its rank.
#[derive(Clone, Copy)]
struct Leader {
    cic: Cic,
    rank: u64,
}

// An idle circuit without far block.
fn free(at: Stored) -> bool
    ensures { result ≡ free at.held.state at.held.flags }
{
    at.held.state == names::IDLE && !marks::Flags::from(at.held.flags).far
}

// Whether all records from `from` on are allowed.
fn allowed_from(table: &[u8], from: u32, records: u32) -> bool
    ensures { result ≡ list_all (allowed_there table.now) (range_with_len from (records - from)) }
{
    (from..records).all(|i| layout::allowed(layout::stored_at(table, Cic(i)).held))
}

// Those of ours from `from` on, where `best` leads those before it. Every second circuit is ours. Table and number are no struct
// here and in `search`, though the number is the table's: they come apart where it ends a range.
fn ours_from(table: &[u8], from: u32, mut best: Leader, records: u32) -> Choice
    requires records_bound { (records ≤ records_in (length table.now)) × (records ≤ 4096) × (best.cic.0 < records) }
    requires led { Led (by_parity (from % 2)) table.now from best.cic.0 best.rank }
    ensures { choosing_of result ≡ sought (by_parity (from % 2)) table.now records }
{
    for i in (from..records).step_by(2) {
        let at = layout::stored_at(table, Cic(i));
        if !free(at) {
            continue;
        }
        if at.rank == 0 {
            return Choice {
                cic: Cic(i),
                looked: i + 1,
            };
        }
        if at.rank < best.rank {
            best = Leader {
                cic: Cic(i),
                rank: at.rank,
            };
        }
    }
    Choice {
        cic: best.cic,
        looked: records,
    }
}

// Whether one of theirs with this rank was released after the best of theirs so far. No circuit has the number `records`: it stands for none of theirs,
// since an Option of a leader makes the loop over a table slower.
fn released_later(theirs: Leader, records: u32, rank: u64) -> bool
    ensures { result ≡ released_later (found theirs records) rank }
{
    theirs.cic.0 == records || theirs.rank < rank
}

// None of ours qualified; `theirs` leads theirs, if there is one.
fn conclude(theirs: Leader, records: u32) -> Result<Choice, Refusal>
    ensures { told result ≡ concluded (found theirs records) records }
{
    if theirs.cic.0 == records {
        return Err(Refusal::NoCircuit);
    }
    Ok(Choice {
        cic: theirs.cic,
        looked: records,
    })
}

// Judges each record and looks at it, where ours are the circuits of one parity. Once one of ours is found, the other records are judged, and only
// ours among them are looked at. It stops at one of ours with rank 0: none can have been released before it.
fn search(first: u32, table: &[u8], records: u32) -> Result<Choice, Refusal>
    requires { (records ≤ records_in (length table.now)) × (records ≤ 4096) }
    ensures { told result ≡ searched (by_parity first) table.now records }
{
    let mut theirs = Leader {
        cic: Cic(records),
        rank: 0,
    };
    for i in 0..records {
        let at = layout::stored_at(table, Cic(i));
        if !layout::allowed(at.held) {
            return Err(Refusal::BadRecord);
        }
        if !free(at) {
            continue;
        }
        let here = Leader {
            cic: Cic(i),
            rank: at.rank,
        };
        if i % 2 == first {
            if !allowed_from(table, i + 1, records) {
                return Err(Refusal::BadRecord);
            }
            if at.rank == 0 {
                return Ok(Choice {
                    cic: Cic(i),
                    looked: i + 1,
                });
            }
            return Ok(ours_from(table, i + 2, here, records));
        }
        if released_later(theirs, records, at.rank) {
            theirs = here;
        }
    }
    conclude(theirs, records)
}

// The circuit to seize in the group with these codes and this table: each record is judged once, and looked at at most once.
pub fn select(codes: Codes, table: &[u8]) -> Result<Choice, Refusal>
    ensures { told result ≡ select_in codes.own.0 codes.far.0 table.now }
{
    let records = layout::records(table.len());
    if codes.bad_group(records) {
        return Err(Refusal::NoSuchGroup);
    }
    search(codes.lowest(), table, records as u32)
}
