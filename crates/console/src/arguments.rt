// What a program was started with. What is wrong with it is said on standard error, behind the program's name.
use super::said::Complaints;
use std::env::{Env, FillError};
use std::fs::{File, Files};
use std::io::{Error, ErrorKind};
use std::{io, str};

// How many octets the longest argument has that is taken, which the path of a file has not.
const LONGEST: usize = 4096;

// Where the octets are: on standard input, or in the file that an argument names, by the argument's number.
#[derive(Clone, Copy, Debug, PartialEq, Eq)]
pub(crate) enum Source {
    Input,
    File(usize),
}

// Why the program's own work is not done: the help is asked for, or nothing can be done, which is said by then.
#[derive(Clone, Copy, Debug, PartialEq, Eq)]
pub(crate) enum Stop {
    Help,
    Refused,
}

// What is asked for: lines in the named form, and where the octets are, if an argument says so.
#[derive(Clone, Copy, Debug, PartialEq, Eq, Default)]
pub(crate) struct Asked {
    pub names: bool,
    pub source: Option<Source>,
}

fn refused<E: Print>(told: &Complaints<'_, E>, why: &[u8], word: &[u8]) -> Stop {
    told.say(&[why, word, b"\nusage: ", told.name, b" [--names] [FILE]\n"]);
    Stop::Refused
}

impl Asked {
    // What is asked for by one argument more.
    fn with<E: Print>(
        self,
        told: &Complaints<'_, E>,
        i: usize,
        word: &[u8],
    ) -> Result<Asked, Stop> {
        let source = match word {
            b"--help" => return Err(Stop::Help),
            b"--names" => return Ok(Asked {
                names: true,
                ..self
            }),
            [b'-', _, ..] => return Err(refused(told, b": unknown option ", word)),
            b"-" => Source::Input,
            _ => Source::File(i),
        };
        if self.source.is_some() {
            return Err(refused(told, b": too many arguments: ", word));
        }
        Ok(Asked {
            source: Some(source),
            ..self
        })
    }
}

// What the arguments ask for. They end where there is none; the number is there since a proved loop has an end.
pub(crate) fn read<E: Print>(env: &impl Env, told: &Complaints<'_, E>) -> Result<Asked, Stop> {
    let mut asked = Asked::default();
    for i in 1..usize::MAX {
        let mut word = [0u8; LONGEST];
        match env.arg(i, &mut word) {
            Ok(octets) => asked = asked.with(told, i, &word[..octets])?,
            Err(FillError::NotPresent) => break,
            Err(FillError::TooLong) => {
                told.say(&[b": argument: File name too long\n"]);
                return Err(Stop::Refused);
            }
        }
    }
    Ok(asked)
}

fn open_path<R: Files>(files: &R, path: &[u8]) -> io::Result<R::File> {
    match str::from_utf8(path) {
        Ok(path) => File::open(files, path),
        Err(_) => Err(Error::new(ErrorKind::InvalidFilename, "The name is not UTF-8")),
    }
}

// Opens the file that an argument names for reading; where it cannot be opened, that is said.
pub(crate) fn open<R: Env + Files, E: Print>(
    system: &R,
    told: &Complaints<'_, E>,
    i: usize,
) -> Option<R::File> {
    let mut path = [0u8; LONGEST];
    let octets = system.arg(i, &mut path).unwrap_or(0);
    let path = &path[..octets];
    match open_path(system, path) {
        Ok(input) => Some(input),
        Err(e) => {
            told.failed(&[b": cannot open ", path], &e);
            None
        }
    }
}
