//! How the program ends where its words give no options.

use rd_command_line::{OptionsFault, not_utf8_fault, run_command_line};
use rd_devices::{ReadSource, WriteSink};
use std::alloc::{AllocError, Global};
use std::fs::Files;
use std::process::{Abort, ExitCode};
use std::sync::Wait;
use std::thread::Threads;
use test_kit::BrokenWriter;

/// Command lines that give no options, with how many names of missing files come after their words,
/// the status that they end with, and what they write to standard output and to standard error:
/// this text, or one that begins so if it ends with `..`.
const ENDS: &[(&[&str], usize, u8, &str, &str)] = &[
    // Help goes to standard output.
    (
        &["lcrqdb", "--help"],
        0,
        0,
        "A causal reversible debugger for LCRQ\n..",
        "",
    ),
    (
        &["lcrqdb", "run", "-h"],
        0,
        0,
        "Does the lines of a script..",
        "",
    ),
    (&["lcrqdb", "--version"], 0, 0, "lcrqdb 0.2.0\n..", ""),
    // A mistake goes to standard error.
    (&["lcrqdb"], 0, 2, "", "error: .."),
    (&["lcrqdb", "walk"], 0, 2, "", "error: .."),
    (&["lcrqdb", "run"], 0, 2, "", "error: .."),
    (
        &["lcrqdb", "run", "--ring", "3", "a"],
        0,
        2,
        "",
        "error: ..",
    ),
    (&["lcrqdb", "view"], 0, 2, "", "error: .."),
    (
        &["lcrqdb", "view", "--actors", "17", "a"],
        0,
        2,
        "",
        "error: ..",
    ),
    // A view of missing files leaves the output.
    (&["lcrqdb", "view"], 1, 1, "", "lcrqdb: refused 24 Read\n"),
    (&["lcrqdb", "view"], 2, 1, "", "lcrqdb: refused 24 Read\n"),
    (&["lcrqdb", "view"], 64, 1, "", "lcrqdb: refused 24 Read\n"),
    (&["lcrqdb", "view"], 65, 2, "", "lcrqdb: 1 to 64 files\n"),
    // Viewers that are there at once: the output has what their history has, and each that could
    // not open its file has its line.
    (
        &["lcrqdb", "view", "--live", "gone"],
        1,
        1,
        "history 0\n",
        "lcrqdb: viewer 1: refused 24 Read\nlcrqdb: viewer 2: refused 24 Read\n",
    ),
    (
        &["lcrqdb", "view", "--live", "--start"],
        2,
        1,
        "",
        "lcrqdb: refused 24 Read\n",
    ),
    (
        &["lcrqdb", "view", "--live"],
        2,
        2,
        "",
        "lcrqdb: no two viewers of --live can share a file\n",
    ),
];

/// Whether a text is this one, or begins so if this one ends with `..`.
fn is_said(text: &[u8], wanted: &str) -> bool {
    match wanted.strip_suffix("..") {
        Some(beginning) => text.starts_with(beginning.as_bytes()),
        None => text == wanted.as_bytes(),
    }
}

/// Ends with nothing on standard input, and compares the status, and what is written to standard
/// output and to standard error.
fn ends_with<R: Files + Threads + Wait + Abort + Sync>(
    rt: &R,
    alloc: Global,
    words: Result<Vec<&str>, OptionsFault>,
    status: u8,
    (output, errors): (&str, &str),
)
where
    R::File: Send,
    R::Dir: Send,
{
    let mut written = Vec::new(alloc);
    let mut told = Vec::new(alloc);
    let ended = run_command_line(
        rt,
        alloc,
        words,
        &mut ReadSource::new(b"".as_slice()),
        &mut WriteSink::new(&mut written),
        &mut WriteSink::new(&mut told),
    );
    let said = is_said(written.as_slice(), output) && is_said(told.as_slice(), errors);
    assert!(rt; ended == ExitCode::from(status) && said, "{output}{errors}");
}

/// Words and as many names of missing files after them.
fn with_missing_files(
    alloc: Global,
    words: &[&'static str],
    files: usize,
) -> Result<Vec<&'static str>, AllocError> {
    let mut all = Vec::from_slice(alloc, words)?;
    for _ in 0..files {
        all.push("missing")?;
    }
    Ok(all)
}

#[test]
fn a_command_line_that_gives_no_options_has_its_status_and_its_text(rt: HostRuntime) {
    for (words, files, status, output, errors) in ENDS {
        let words = with_missing_files(rt.alloc(), *words, *files).expect(&rt, "out of memory");
        ends_with(&rt, rt.alloc(), Ok(words), *status, (*output, *errors));
    }
}

#[test]
fn a_word_that_is_no_text_is_a_mistake_and_refused_memory_has_status_1(rt: HostRuntime) {
    let fault = not_utf8_fault(rt.alloc());
    let text = "error: invalid UTF-8 was detected in one or more arguments\n..";
    ends_with(&rt, rt.alloc(), Err(fault), 2, ("", text));
    let refused = "lcrqdb: refused 20 NoMemory\n";
    ends_with(
        &rt,
        rt.alloc(),
        Err(OptionsFault::NoMemory),
        1,
        ("", refused),
    );
}

/// The status with which words end if the streams fail.
fn status_with_broken_streams<R: Files + Threads + Wait + Abort + Sync>(
    rt: &R,
    alloc: Global,
    words: &[&str],
) -> ExitCode
where
    R::File: Send,
    R::Dir: Send,
{
    run_command_line(
        rt,
        alloc,
        Ok(Vec::from_slice(alloc, words).expect(rt, "out of memory")),
        &mut ReadSource::new(b"".as_slice()),
        &mut WriteSink::new(BrokenWriter),
        &mut WriteSink::new(BrokenWriter),
    )
}

#[test]
fn a_stream_that_fails_leaves_the_status(rt: HostRuntime) {
    let shown = status_with_broken_streams(&rt, rt.alloc(), &["lcrqdb", "--help"]);
    let refused = status_with_broken_streams(&rt, rt.alloc(), &["lcrqdb", "walk"]);
    assert!(&rt; shown == ExitCode::from(0) && refused == ExitCode::from(2));
}
