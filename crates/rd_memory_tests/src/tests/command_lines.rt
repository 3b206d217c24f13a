//! Command lines whose reading is refused memory.

use rd_command_line::{Options, OptionsFault, options};
use rd_marks::Ring;
use std::alloc::Global;
use std::process::Abort;

/// Whether the words are read as these options. If not, memory was refused.
fn are_read(rt: &impl Abort, alloc: Global, words: &[&str], wanted: &Options) -> bool {
    match options(alloc, words) {
        Ok(read) => {
            assert!(rt; read == *wanted);
            true
        }
        Err(fault) => {
            assert!(rt; matches!(fault, OptionsFault::NoMemory));
            false
        }
    }
}

/// The words are read as these options, the next time if memory was refused.
fn come_to(rt: &impl Abort, alloc: Global, words: &[&str], wanted: Options) {
    let read = are_read(rt, alloc, words, &wanted);
    assert!(rt; read || are_read(rt, alloc, words, &wanted));
}

#[test]
fn a_command_line_that_was_refused_memory_is_read_as_ever_the_next_time(rt: HostRuntime) {
    let alloc = rt.alloc();
    let (actors, ring) = (4, Ring::Two);
    let run = Options::Run {
        file: "a",
        actors,
        ring,
        trace: true,
    };
    let words = ["lcrqdb", "run", "a", "--ring", "2", "--trace"];
    come_to(&rt, alloc, &words, run);
    let (file, trace) = ("a", true);
    let load = Options::Load { file, trace };
    come_to(&rt, alloc, &["lcrqdb", "load", "a", "--trace"], load);
    let files = Vec::from_array(alloc, ["a", "b"])
        .or(Vec::from_array(alloc, ["a", "b"]))
        .expect(&rt, "refused memory twice");
    let view = Options::View {
        files,
        actors,
        ring,
        start: None,
        live: true,
        history: true,
        trace: false,
    };
    let words = [
        "lcrqdb",
        "view",
        "a",
        "b",
        "--live",
        "--ring=2",
        "--history",
    ];
    come_to(&rt, alloc, &words, view);
}

/// Words that are a mistake.
const MISTAKES: &[&[&str]] = &[&["lcrqdb", "run"], &["lcrqdb", "hop"]];

/// Whether the words are refused as a mistake. If not, memory was refused.
fn are_mistaken(rt: &impl Abort, alloc: Global, words: &[&str]) -> bool {
    match options(alloc, words) {
        Err(OptionsFault::Refused(_)) => true,
        Err(OptionsFault::NoMemory) => false,
        _ => panic!(rt; "no mistake"),
    }
}

#[test]
fn a_mistake_is_refused_as_ever_after_memory_was(rt: HostRuntime) {
    for words in MISTAKES {
        let mistaken = are_mistaken(&rt, rt.alloc(), *words);
        assert!(&rt; mistaken || are_mistaken(&rt, rt.alloc(), *words));
    }
}
