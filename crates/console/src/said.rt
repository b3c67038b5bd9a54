// What is wrong is said on standard error, behind the program's name; where that fails too, nothing is to be done about it.
use std::io::{Cursor, Error, Write};
use std::str;

// Where it is said, and the program's name.
#[derive(Clone, Copy)]
pub(crate) struct Complaints<'a, E> {
    pub err: &'a E,
    pub name: &'a [u8],
}

// The words for an error of the system without its number, which stands behind them in brackets.
fn words(text: &str) -> &str {
    text.split_once(" (os error ")
        .map_or(text, |(words, _)| words)
}

impl<E: Print> Complaints<'_, E> {
    fn put(&self, octets: &[u8]) {
        let _ = self.err.write_all(octets);
    }

    // Says what is wrong, in parts that follow each other.
    pub(crate) fn say(&self, parts: &[&[u8]]) {
        self.put(self.name);
        for part in parts {
            self.put(part);
        }
    }

    // What failed, as a line that ends with the reason.
    pub(crate) fn failed(&self, parts: &[&[u8]], e: &Error) {
        let mut why = Cursor::new([0u8; 256]);
        let _ = write!(why, "{e}");
        let octets = why.position() as usize;
        let text = why.into_inner();
        self.say(parts);
        self.put(b": ");
        if let Ok(text) = str::from_utf8(&text[..octets.min(text.len())]) {
            self.put(words(text).as_bytes());
        }
        self.put(b"\n");
    }
}
