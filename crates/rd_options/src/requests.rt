//! What a command line asks for, or why it gives no options.

ghost use Rattle.std.specs.Prelude.{◌≡◌, ◌<◌, ◌≤◌, true, false};
ghost use Rattle.rd_desk.specs.declared.desks.TheConstants.{MOST_VIEWERS};
ghost use Rattle.rd_options.specs.declared.requests.OptionsFault.TheVariants.{NoMemory};
ghost use Rattle.rd_options.specs.Options.{SharesNoFile, file_count, options_fault};

use super::names::are_apart;
use clap::Error;
use clap::error::ErrorKind;
use rd_desk::MOST_VIEWERS;
use rd_marks::Ring;
use std::alloc::AllocError;

/// What the command line asks for.
#[derive(Debug, Drop, PartialEq, Eq)]
pub enum Options<'a> {
    /// `run FILE`: does the lines of one script.
    Run {
        /// The script's file; `-` is standard input.
        file: &'a str,
        /// The number of actors of the world, 1 to 16.
        actors: u8,
        /// The size of its rings: 2, 4 or 8 cells.
        ring: Ring,
        /// `--trace`: whether the trace of the run follows its report.
        trace: bool,
    },
    /// `view FILE..`: runs several scripts over one world, each by its own viewer.
    View {
        /// The viewers' files, 1 to 64, in the order of their viewers.
        files: Vec<&'a str>,
        /// The number of actors of the fresh world, 1 to 16; 4 if a trace is the start.
        actors: u8,
        /// The size of its rings: 2, 4 or 8 cells; 4 if a trace is the start.
        ring: Ring,
        /// `--start`: the trace's file whose session the viewers go on with, in place of a fresh
        /// world.
        start: Option<&'a str>,
        /// `--live`: whether the viewers are there at once, each reading its file as it comes.
        live: bool,
        /// `--history`: whether the recorded calls follow their number.
        history: bool,
        /// `--trace`: whether the trace of the session comes last.
        trace: bool,
    },
    /// `load TRACE`: does the lines of standard input over the book of a trace.
    Load {
        /// The trace's file.
        file: &'a str,
        /// `--trace`: whether the trace of the session follows the report.
        trace: bool,
    },
}

impl<'a> Options<'a> {
    /// Returns whether `view` names more files than there may be viewers, 64; false for `run` and
    /// `load`, which name one file.
    pub(crate) fn has_too_many_files(&self) -> bool
        ensures many { result ≡ true → MOST_VIEWERS < file_count self.now }
        ensures few { result ≡ false → file_count self.now ≤ MOST_VIEWERS }
    {
        match self {
            Options::View { files, .. } => files.len() as u64 > MOST_VIEWERS,
            _ => false,
        }
    }

    /// Returns whether viewers that are there at once would share a file; false if they are not.
    /// Files are told apart by their names.
    pub(crate) fn shares_a_file(&self) -> bool
        ensures yes { result ≡ true → SharesNoFile self.now → ⊥ }
        ensures no { result ≡ false → SharesNoFile self.now }
    {
        match self {
            Options::View {
                live: true,
                files,
                ..
            } => !are_apart(files.as_slice()),
            _ => false,
        }
    }
}

/// Why the command line gives no options.
#[derive(Debug, Drop)]
pub enum OptionsFault {
    /// The command line asks for help or for the version, whose text `clap`'s error has.
    Shown(Error),
    /// The program doesn't take the command line. `clap`'s error has the text on the mistake.
    Refused(Error),
    /// The command line names more files than there may be viewers.
    TooManyFiles,
    /// Two viewers that are there at once would share a file.
    SharedFile,
    /// Memory to read the command line was refused.
    NoMemory,
}

impl From<Error> for OptionsFault {
    ghost from_gives = { λ error fault. fault ≡ options_fault error };

    /// Returns the fault for an error of `clap`: `Shown` for help or the version, `NoMemory` for
    /// refused memory, and `Refused` for any other error.
    fn from(error: Error) -> OptionsFault {
        match error.kind() {
            ErrorKind::DisplayHelp | ErrorKind::DisplayVersion => OptionsFault::Shown(error),
            ErrorKind::OutOfMemory => OptionsFault::NoMemory,
            _ => OptionsFault::Refused(error),
        }
    }
}

impl From<AllocError> for OptionsFault {
    ghost from_gives = { λ _ fault. fault ≡ NoMemory };

    /// Returns `NoMemory`, the fault for refused memory.
    fn from(_error: AllocError) -> OptionsFault {
        OptionsFault::NoMemory
    }
}
