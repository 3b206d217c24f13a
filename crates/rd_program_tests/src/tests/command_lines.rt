//! Command lines, each with the options that it gives or with how it is refused.

use clap::Error;
use rd_command_line::{Options, OptionsFault, options};
use rd_marks::Ring;
use std::alloc::{AllocError, Global};
use std::process::Abort;

/// What a command line must come to.
enum Wanted {
    /// To run a script: the file, the actors, the ring, and whether the trace follows.
    Runs(&'static str, u8, Ring, bool),
    /// To view scripts over a fresh world: the files, the actors, and the ring.
    Views(&'static [&'static str], u8, Ring),
    /// To view scripts with what only `view` takes: the files, the trace to start with if there is
    /// one, and whether the history and the trace follow.
    Asks(&'static [&'static str], Option<&'static str>, bool, bool),
    /// To let viewers that read these files be there at once, in the form of `Asks`.
    Lives(&'static [&'static str], Option<&'static str>, bool, bool),
    /// To load a trace: the file, and whether the trace of the session follows.
    Loads(&'static str, bool),
    /// A text that begins and goes on so.
    Shown(&'static str, &'static str),
    /// A mistake, whose text begins with `error: `.
    Refused,
    /// More files than there may be viewers.
    TooMany,
    /// Viewers that are there at once would share a file.
    Shared,
}

/// The options of a view.
fn view<'a>(
    rt: &impl Abort,
    alloc: Global,
    files: &'static [&'static str],
    world: (u8, Ring),
    start: Option<&'static str>,
    asked: (bool, bool, bool),
) -> Options<'a> {
    Options::View {
        files: Vec::from_slice(alloc, files).expect(rt, "out of memory"),
        actors: world.0,
        ring: world.1,
        start,
        live: asked.0,
        history: asked.1,
        trace: asked.2,
    }
}

/// Whether the options are the wanted ones.
fn are_wanted(rt: &impl Abort, alloc: Global, read: &Options<'_>, wanted: &Wanted) -> bool {
    let options = match wanted {
        Wanted::Runs(file, actors, ring, trace) => Options::Run {
            file: *file,
            actors: *actors,
            ring: *ring,
            trace: *trace,
        },
        Wanted::Views(files, actors, ring) => {
            let asked = (false, false, false);
            view(rt, alloc, *files, (*actors, *ring), None, asked)
        }
        Wanted::Asks(files, start, history, trace) => {
            let asked = (false, *history, *trace);
            view(rt, alloc, *files, (4, Ring::Four), *start, asked)
        }
        Wanted::Lives(files, start, history, trace) => {
            let asked = (true, *history, *trace);
            view(rt, alloc, *files, (4, Ring::Four), *start, asked)
        }
        Wanted::Loads(file, trace) => Options::Load {
            file: *file,
            trace: *trace,
        },
        _ => return false,
    };
    *read == options
}

/// Whether the text of an error begins and goes on so.
fn is_shown(rt: &impl Abort, alloc: Global, error: &Error, beginning: &str, part: &str) -> bool {
    let text = format!(in alloc; "{error}").expect(rt, "out of memory");
    text.starts_with(beginning) && text.contains(part)
}

/// What the words come to, which must be the wanted.
fn compare(rt: &impl Abort, alloc: Global, words: &[&str], wanted: &Wanted) {
    let right = match (options(alloc, words), wanted) {
        (Ok(read), _) => are_wanted(rt, alloc, &read, wanted),
        (Err(OptionsFault::Shown(error)), Wanted::Shown(beginning, part)) => {
            is_shown(rt, alloc, &error, *beginning, *part)
        }
        (Err(OptionsFault::Refused(error)), Wanted::Refused) => {
            is_shown(rt, alloc, &error, "error: ", "")
        }
        (Err(OptionsFault::TooManyFiles), Wanted::TooMany) => true,
        (Err(OptionsFault::SharedFile), Wanted::Shared) => true,
        _ => false,
    };
    assert!(rt; right, "{words:?}");
}

/// How the text of the help of the program, of `run`, of `view` and of `load` begins.
const ABOUT: &str = "A causal reversible debugger for LCRQ\n";

const RUN: &str = "Does the lines of a script";

const VIEW: &str = "Does the lines of several scripts";

const LOAD: &str = "Does the lines of standard input";

/// Command lines, and what each must come to.
const ROWS: &[(&[&str], Wanted)] = &[
    // `run` takes a file and three options.
    (
        &["lcrqdb", "run", "a.txt"],
        Wanted::Runs("a.txt", 4, Ring::Four, false),
    ),
    (
        &["lcrqdb", "run", "-"],
        Wanted::Runs("-", 4, Ring::Four, false),
    ),
    (
        &["lcrqdb", "run", "--ring", "2", "a"],
        Wanted::Runs("a", 4, Ring::Two, false),
    ),
    (
        &["lcrqdb", "run", "--ring=4", "a"],
        Wanted::Runs("a", 4, Ring::Four, false),
    ),
    (
        &["lcrqdb", "run", "a", "--ring=8"],
        Wanted::Runs("a", 4, Ring::Eight, false),
    ),
    (
        &["lcrqdb", "run", "--actors", "1", "a"],
        Wanted::Runs("a", 1, Ring::Four, false),
    ),
    (
        &["lcrqdb", "run", "a", "--actors=16"],
        Wanted::Runs("a", 16, Ring::Four, false),
    ),
    (
        &["lcrqdb", "run", "--ring", "8", "a", "--actors", "2"],
        Wanted::Runs("a", 2, Ring::Eight, false),
    ),
    (
        &["lcrqdb", "run", "--", "--ring"],
        Wanted::Runs("--ring", 4, Ring::Four, false),
    ),
    (
        &["lcrqdb", "run", "a", "--trace"],
        Wanted::Runs("a", 4, Ring::Four, true),
    ),
    (
        &["lcrqdb", "run", "--trace", "a", "--ring=2"],
        Wanted::Runs("a", 4, Ring::Two, true),
    ),
    // `view` also takes a trace to start with, and two flags. With a trace, it takes no option of
    // the fresh world.
    (
        &["lcrqdb", "view", "a", "--history"],
        Wanted::Asks(&["a"], None, true, false),
    ),
    (
        &["lcrqdb", "view", "--trace", "a", "b"],
        Wanted::Asks(&["a", "b"], None, false, true),
    ),
    (
        &[
            "lcrqdb",
            "view",
            "a",
            "--start",
            "t",
            "--history",
            "--trace",
        ],
        Wanted::Asks(&["a"], Some("t"), true, true),
    ),
    (
        &["lcrqdb", "view", "--start=t", "a"],
        Wanted::Asks(&["a"], Some("t"), false, false),
    ),
    // With `--live`, no viewer has the file of another one, or of another one's replies.
    (
        &["lcrqdb", "view", "--live", "a"],
        Wanted::Lives(&["a"], None, false, false),
    ),
    (
        &["lcrqdb", "view", "a", "b", "--history", "--live", "--trace"],
        Wanted::Lives(&["a", "b"], None, true, true),
    ),
    (
        &["lcrqdb", "view", "a", "--live", "--start=t"],
        Wanted::Lives(&["a"], Some("t"), false, false),
    ),
    (
        &["lcrqdb", "view", "--live", "a", "b.replies", ".replies"],
        Wanted::Lives(&["a", "b.replies", ".replies"], None, false, false),
    ),
    (&["lcrqdb", "view", "--live", "a", "a"], Wanted::Shared),
    (
        &["lcrqdb", "view", "b", "a", "c", "a", "--live"],
        Wanted::Shared,
    ),
    (
        &["lcrqdb", "view", "--live", "a", "b", "a.replies"],
        Wanted::Shared,
    ),
    (
        &["lcrqdb", "view", "--live", "b.replies", "a", "b"],
        Wanted::Shared,
    ),
    // `load` takes a file and one option.
    (
        &["lcrqdb", "load", "a.json"],
        Wanted::Loads("a.json", false),
    ),
    (
        &["lcrqdb", "load", "--trace", "a"],
        Wanted::Loads("a", true),
    ),
    (
        &["lcrqdb", "load", "a", "--trace"],
        Wanted::Loads("a", true),
    ),
    (
        &["lcrqdb", "load", "--", "--trace"],
        Wanted::Loads("--trace", false),
    ),
    // `view` takes files and two options.
    (
        &["lcrqdb", "view", "a"],
        Wanted::Views(&["a"], 4, Ring::Four),
    ),
    (
        &["lcrqdb", "view", "b", "a", "b"],
        Wanted::Views(&["b", "a", "b"], 4, Ring::Four),
    ),
    (
        &["lcrqdb", "view", "--ring", "2", "a", "b"],
        Wanted::Views(&["a", "b"], 4, Ring::Two),
    ),
    (
        &["lcrqdb", "view", "a", "b", "--ring=8"],
        Wanted::Views(&["a", "b"], 4, Ring::Eight),
    ),
    (
        &["lcrqdb", "view", "a", "--actors", "16", "b"],
        Wanted::Views(&["a", "b"], 16, Ring::Four),
    ),
    (
        &["lcrqdb", "view", "--actors=1", "--ring=4", "a"],
        Wanted::Views(&["a"], 1, Ring::Four),
    ),
    (
        &["lcrqdb", "view", "--", "--ring", "2"],
        Wanted::Views(&["--ring", "2"], 4, Ring::Four),
    ),
    (
        &["lcrqdb", "view", "-", "a"],
        Wanted::Views(&["-", "a"], 4, Ring::Four),
    ),
    // Help and the version are shown.
    (
        &["lcrqdb", "--help"],
        Wanted::Shown(ABOUT, "Usage: lcrqdb <COMMAND>"),
    ),
    (
        &["lcrqdb", "-h"],
        Wanted::Shown(ABOUT, "Usage: lcrqdb <COMMAND>"),
    ),
    (
        &["lcrqdb", "help"],
        Wanted::Shown(ABOUT, "Usage: lcrqdb <COMMAND>"),
    ),
    (
        &["lcrqdb", "run", "--help"],
        Wanted::Shown(RUN, "[possible values: 2, 4, 8]"),
    ),
    (
        &["lcrqdb", "help", "run"],
        Wanted::Shown(RUN, "--actors <COUNT>"),
    ),
    (
        &["lcrqdb", "run", "-h"],
        Wanted::Shown(RUN, "\n  steps      go A, starve A yes, starve A no\n"),
    ),
    (
        &["lcrqdb", "help", "load"],
        Wanted::Shown(LOAD, "\n  calls      enq A X, deq A, aenq A X, adeq A\n"),
    ),
    (
        &["lcrqdb", "load", "--help"],
        Wanted::Shown(
            LOAD,
            "\n      --trace  Writes the trace of the run behind its report\n",
        ),
    ),
    (
        &["lcrqdb", "view", "--help"],
        Wanted::Shown(VIEW, "Usage: lcrqdb view [OPTIONS] <FILE>..."),
    ),
    (
        &["lcrqdb", "help", "view"],
        Wanted::Shown(VIEW, "[possible values: 2, 4, 8]"),
    ),
    (
        &["lcrqdb", "--version"],
        Wanted::Shown("lcrqdb 0.2.0\n", ""),
    ),
    (&["lcrqdb", "-V"], Wanted::Shown("lcrqdb 0.2.0\n", "")),
];

/// Command lines that are mistakes.
const MISTAKES: &[&[&str]] = &[
    &[],
    &["lcrqdb"],
    &["lcrqdb", "walk", "a"],
    &["lcrqdb", "--ring", "2", "run", "a"],
    &["lcrqdb", "run"],
    &["lcrqdb", "run", "--ring", "2"],
    &["lcrqdb", "run", "a", "b"],
    &["lcrqdb", "run", "--fast", "a"],
    &["lcrqdb", "run", "-f", "a"],
    &["lcrqdb", "run", "--ring", "3", "a"],
    &["lcrqdb", "run", "--ring", "16", "a"],
    &["lcrqdb", "run", "--ring=02", "a"],
    &["lcrqdb", "run", "a", "--ring"],
    &["lcrqdb", "run", "--actors", "0", "a"],
    &["lcrqdb", "run", "--actors", "17", "a"],
    &["lcrqdb", "run", "--actors", "x", "a"],
    &["lcrqdb", "run", "--actors=-1", "a"],
    &["lcrqdb", "run", "--ring", "2", "--ring", "2", "a"],
    &["lcrqdb", "run", "a", "--trace", "--trace"],
    &["lcrqdb", "run", "a", "--trace=yes"],
    &["lcrqdb", "view"],
    &["lcrqdb", "view", "--ring", "2"],
    &["lcrqdb", "view", "a", "--ring", "3"],
    &["lcrqdb", "view", "a", "--actors", "0"],
    &["lcrqdb", "view", "a", "--actors", "17"],
    &["lcrqdb", "view", "a", "--start"],
    &["lcrqdb", "view", "a", "--history=yes"],
    &["lcrqdb", "view", "a", "--start", "t", "--ring", "4"],
    &["lcrqdb", "view", "a", "--actors", "4", "--start", "t"],
    &["lcrqdb", "view", "a", "--live", "--live"],
    &["lcrqdb", "view", "--live"],
    &["lcrqdb", "run", "a", "--live"],
    &["lcrqdb", "run", "a", "--history"],
    &["lcrqdb", "load", "a", "--start", "t"],
    &["lcrqdb", "view", "a", "--ring", "2", "--ring", "2"],
    &["lcrqdb", "--ring", "2", "view", "a"],
    &["lcrqdb", "load"],
    &["lcrqdb", "load", "a", "b"],
    &["lcrqdb", "load", "--ring", "2", "a"],
    &["lcrqdb", "load", "--actors", "2", "a"],
    &["lcrqdb", "load", "--trace"],
    &["lcrqdb", "load", "a", "--trace", "--trace"],
    &["lcrqdb", "load", "a", "--trace=true"],
];

#[test]
fn each_command_line_gives_its_options_or_shows_a_text_and_others_are_refused(rt: HostRuntime) {
    for (words, wanted) in ROWS {
        compare(&rt, rt.alloc(), *words, wanted);
    }
    for words in MISTAKES {
        compare(&rt, rt.alloc(), *words, &Wanted::Refused);
    }
}

/// As many files as there may be viewers.
const FILES: &[&str] = &["a"; 64];

/// Words after those of a view of these files, and what the command line must come to.
const AFTER_FILES: &[(&[&str], Wanted)] = &[
    (&[], Wanted::Views(FILES, 4, Ring::Four)),
    (&["a"], Wanted::TooMany),
    (&["--live"], Wanted::Shared),
    (&["--live", "a"], Wanted::TooMany),
    (&["a", "--ring", "3"], Wanted::Refused),
];

/// The words of a view of 64 files, and these after them.
fn view_of_files(alloc: Global, after: &[&'static str]) -> Result<Vec<&'static str>, AllocError> {
    let mut words = Vec::from_slice(alloc, &["lcrqdb", "view"])?;
    words.extend_from_slice(FILES)?;
    words.extend_from_slice(after)?;
    Ok(words)
}

#[test]
fn view_takes_up_to_64_files(rt: HostRuntime) {
    for (after, wanted) in AFTER_FILES {
        let words = view_of_files(rt.alloc(), *after).expect(&rt, "out of memory");
        compare(&rt, rt.alloc(), words.as_slice(), wanted);
    }
}
