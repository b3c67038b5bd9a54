// The static library that a host in C links: each entry calls the function of its name in `tup` and promises the same.
// Parameters are single numbers, as include/tup.h declares them. The clauses of `tup` are repeated word for word, since no crate can stand on a
// static library.
#![tactic(auto)]

ghost use Rattle.std.specs.Prelude.{◌≡◌};
ghost use Rattle.codes.specs.Numbers.{event_of};
ghost use Rattle.answers.specs.Answers.{packed, Unpacked};
ghost use Rattle.group.specs.Table.{step_in};
ghost use Rattle.select.specs.Selection.{select_in};
ghost use Rattle.writer.specs.Writing.{said};
ghost use Rattle.tup.specs.Packed.{packed_choice, ChoiceUnpacked};
ghost use Rattle.tup.specs.Entries.{read_into, write_from};

// An event on a circuit of a group.
#[unsafe(no_mangle)]
pub extern "C" fn tup_step(
    own: u32,
    far: u32,
    table: &mut [u8],
    cic: u32,
    kind: u32,
    code: u32,
    detail: u32,
) -> u64
    ensures answers { result ≡ packed (step_in own far table.old cic (event_of kind code detail)).answer }
    ensures unpacks { Unpacked result (step_in own far table.old cic (event_of kind code detail)).answer }
    ensures leaves { table.new ≡ (step_in own far table.old cic (event_of kind code detail)).table }
{
    tup::tup_step(own, far, table, cic, kind, code, detail)
}

// Which circuit of a group to seize.
#[unsafe(no_mangle)]
pub extern "C" fn tup_select(own: u32, far: u32, table: &[u8]) -> u64
    ensures answers { result ≡ packed_choice (select_in own far table.now) }
    ensures unpacks { ChoiceUnpacked result (select_in own far table.now) }
{
    tup::tup_select(own, far, table)
}

// Reads a message.
#[unsafe(no_mangle)]
pub extern "C" fn tup_read(own: u32, far: u32, count: u32, octets: &[u8], out: &mut [u8]) -> u64
    ensures answers { result ≡ (read_into own far count octets.now out.old).answer }
    ensures leaves { out.new ≡ (read_into own far count octets.now out.old).buffer }
{
    tup::tup_read(own, far, count, octets, out)
}

// Writes a message.
#[unsafe(no_mangle)]
pub extern "C" fn tup_write(
    own: u32,
    far: u32,
    count: u32,
    cic: u32,
    heading: u32,
    acm: u32,
    category: u32,
    indicators: u32,
    address: &[u8],
    out: &mut [u8],
) -> u32
    ensures answers { result ≡ (write_from own far count (said cic heading acm category indicators address.now) out.old).answer }
    ensures leaves { out.new ≡ (write_from own far count (said cic heading acm category indicators address.now) out.old).buffer }
{
    tup::tup_write(
        own, far, count, cic, heading, acm, category, indicators, address, out,
    )
}
