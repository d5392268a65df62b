//! The requests of command lines, and the refusals.
ghost use Rattle.std.specs.Prelude.{◌≡◌};
ghost use Rattle.std.specs.IoError.{error_kind};
ghost use Rattle.clap.specs.Words.{kind_of};
ghost use Rattle.command_line.specs.Asked.{status_of, refusal_by, unread_by};
ghost use Rattle.command_line.specs.declared.request.Refusal.TheVariants.{NoMemory};

use crate::program::SERVE_USAGE;
use clap::Error;
use clap::error::ErrorKind;
use std::alloc::AllocError;
use std::{fmt, io};

/// What a command line asks for.
#[derive(Debug, Drop)]
pub enum Request<'a> {
    /// No words: serve standard input to standard output, over an empty register in memory.
    Memory,
    /// `format SETTINGS DISK`: make a disk file for the settings in a file.
    Format {
        /// The settings file.
        settings: &'a str,
        /// The disk file that is made.
        disk: &'a str,
    },
    /// `run [--orders K]... DISK FILE...`: serve the files of stations on a disk file.
    Run {
        /// The disk file.
        disk: &'a str,
        /// The files in the order of their stations, one at least.
        files: Vec<&'a str>,
        /// The stations that may give orders. If it names none, each may.
        orders: Vec<u16>,
    },
    /// `serve [--orders K]... [--log] [--stop-at-fault] DISK [IN OUT]...`: serve stations on a disk file, and write each answer as it comes.
    Serve {
        /// The disk file.
        disk: &'a str,
        /// IN and OUT of station 1, of station 2 and so on. No pair means standard input and standard output.
        pairs: Vec<(&'a str, &'a str)>,
        /// The stations that may give orders. If it names none, each may.
        orders: Vec<u16>,
        /// Whether the starts and ends of stations are reported.
        log: bool,
        /// Whether the program ends when the device has failed.
        stop_at_fault: bool,
    },
    /// `show DISK WORD...`: answer one query of a disk file.
    Show {
        /// The disk file.
        disk: &'a str,
        /// The words of the query, one at least.
        words: Vec<&'a str>,
    },
    /// `dump DISK`: print the register of a disk file as text, a line for each entry.
    Dump {
        /// The disk file.
        disk: &'a str,
    },
    /// `load DUMP SETTINGS DISK`: make a disk file, for the settings in a file, with the register of a dump.
    Load {
        /// The dump.
        dump: &'a str,
        /// The settings file.
        settings: &'a str,
        /// The disk file that is made.
        disk: &'a str,
    },
    /// `check [--rest] DISK`: read both sides of a disk file, and print what is damaged.
    Check {
        /// The disk file.
        disk: &'a str,
        /// Whether the register is printed as text, as far as it can be read.
        rest: bool,
    },
}

/// Why no request is carried out. `Display` writes the text that is reported.
#[derive(Debug, Drop)]
pub enum Refusal {
    /// Help was asked for.
    Help(Error),
    /// The version was asked for.
    Version(Error),
    /// The command line is wrong.
    Wrong(Error),
    /// The OUT of the last IN is missing. clap accepts such a command line; it reports any other missing word itself, and each word
    /// of `--orders` that is no station.
    Missing,
    /// A word of the command line is no UTF-8.
    NoText,
    /// Memory ran out.
    NoMemory,
}

impl Refusal {
    /// The exit status: 0 for help and the version, which go to standard output; 2 for a wrong command line and 5 for
    /// out of memory, which go to standard error.
    pub fn status(&self) -> u8
        ensures { result ≡ status_of self.now }
    {
        match self {
            Refusal::Help(_) | Refusal::Version(_) => 0,
            Refusal::Wrong(_) | Refusal::Missing | Refusal::NoText => 2,
            Refusal::NoMemory => 5,
        }
    }
}

impl From<AllocError> for Refusal {
    ghost from_gives = { λ _ refusal. refusal ≡ NoMemory };

    fn from(_error: AllocError) -> Refusal {
        Refusal::NoMemory
    }
}

/// A failure of `std::env::args`: a word is no UTF-8, or memory ran out.
impl From<io::Error> for Refusal {
    ghost from_gives = { λ error refusal. refusal ≡ unread_by (error_kind error) };

    fn from(error: io::Error) -> Refusal {
        unread(error.kind())
    }
}

impl fmt::Display for Refusal {
    fn fmt<W: fmt::Write>(&self, f: &mut fmt::Formatter<W>) -> fmt::Result {
        match self {
            Refusal::Help(error) | Refusal::Version(error) | Refusal::Wrong(error) => error.fmt(f),
            Refusal::Missing => write_missing(f),
            Refusal::NoText => f.write_str("error: a word is no text\n"),
            Refusal::NoMemory => f.write_str("fault: memory\n"),
        }
    }
}

/// Writes that the last IN has no OUT, in the form of clap's errors.
fn write_missing<W: fmt::Write>(f: &mut fmt::Formatter<W>) -> fmt::Result {
    f.write_str("error: the last IN has no OUT\n\nUsage: ")?;
    f.write_str(SERVE_USAGE)?;
    f.write_str("\n\nFor more information, try '--help'.\n")
}

/// The refusal of an error of clap, by its kind.
pub(crate) fn refusal_of(error: Error) -> Refusal
    ensures { result ≡ refusal_by (kind_of error) error }
{
    match error.kind() {
        ErrorKind::DisplayHelp => Refusal::Help(error),
        ErrorKind::DisplayVersion => Refusal::Version(error),
        ErrorKind::OutOfMemory => Refusal::NoMemory,
        _ => Refusal::Wrong(error),
    }
}

/// The refusal where the words themselves can't be read, by the kind of error.
fn unread(kind: io::ErrorKind) -> Refusal
    ensures { result ≡ unread_by kind }
{
    match kind {
        io::ErrorKind::OutOfMemory => Refusal::NoMemory,
        _ => Refusal::NoText,
    }
}
