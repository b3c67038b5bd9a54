// The named form of lines, made from the numbered form: words are put for the numbers that have one, and all else stays as it is.
use super::vocabulary::Column;
use std::io;
use std::io::{Cursor, Write};

// How many octets of text are written at once, at most.
const ROOM: usize = 65536;

// A line has fewer octets than this in either form. One is begun only where the room has as many left.
const LINE: u64 = 256;

// Writes a column that has words, with the blank or the line feed that ends it. A comma stands between two numbers of a column.
fn write_column(column: Column, text: &[u8], room: &mut impl Write) -> io::Result<()> {
    let [numbers @ .., end] = text else {
        return Ok(());
    };
    for (i, digits) in numbers.split(|octet| *octet == b',').enumerate() {
        if i > 0 {
            room.write_all(b",")?;
        }
        column.write(digits, room)?;
    }
    room.write_all(&[*end])
}

// Writes a line in its named form, column by column. A line that begins with a letter has no columns, and is the same in both forms.
fn write_line(columns: &[Column], line: &[u8], room: &mut impl Write) -> io::Result<()> {
    if !line.first().is_some_and(|octet| octet.is_ascii_digit()) {
        return room.write_all(line);
    }
    for (i, text) in line.split_inclusive(|octet| *octet == b' ').enumerate() {
        match columns.get(i) {
            None | Some(Column::Plain) => room.write_all(text)?,
            Some(column) => write_column(*column, text, room)?,
        }
    }
    Ok(())
}

fn flush(out: &impl Print, room: &mut Cursor<[u8; ROOM]>) -> io::Result<()> {
    let octets = room.get_ref();
    let n = octets.len().min(room.position() as usize);
    out.write_all(&octets[..n])?;
    room.set_position(0);
    Ok(())
}

// Writes the named form of whole lines to standard output, much at a time.
pub(crate) fn write(out: &impl Print, columns: &[Column], lines: &[u8]) -> io::Result<()> {
    let mut room = Cursor::new([0u8; ROOM]);
    for line in lines.split_inclusive(|octet| *octet == b'\n') {
        if ROOM as u64 - LINE < room.position() {
            flush(out, &mut room)?;
        }
        write_line(columns, line, &mut room)?;
    }
    flush(out, &mut room)
}
