//! Views of scripts: each viewer in its own thread, over one desk.

use rd_cell::Refusal;
use rd_devices::WriteSink;
use rd_journal::Session;
use rd_marks::Book;
use rd_step::World;
use rd_view::view_scripts;
use std::alloc::Global;
use std::process::Abort;
use std::sync::Wait;
use std::test::Fail;
use std::thread::Threads;
use test_kit::{ASKED, scripts_as_bytes};

/// A book over the fresh world of four actors.
fn fresh(alloc: Global) -> Result<Book<4>, Refusal> {
    Ok(Book::open(alloc, Session::open(alloc, World::<4>::fresh(alloc, 4)?)))
}

/// Views one to 64 scripts over a fresh world of 4 actors, and compares the text with what is
/// wanted.
fn view_is<R: Threads + Wait + Abort + Sync>(
    rt: &R,
    alloc: Global,
    scripts: &[&str],
    wanted: &str,
) -> Result<(), Fail> {
    let bytes = scripts_as_bytes(alloc, scripts)?;
    let scripts = bytes.as_slice();
    assert!(rt; 1 <= scripts.len() && scripts.len() <= 64);
    let book = fresh(alloc)?;
    let mut text = Vec::new(alloc);
    let viewed = view_scripts(rt, alloc, scripts, &mut WriteSink::new(&mut text), book);
    assert!(rt;
        viewed.is_ok() && text.as_slice() == wanted.as_bytes(),
        "wanted {wanted}"
    );
    Ok(())
}

#[test]
fn two_viewers_are_answered_in_order_and_their_calls_are_counted(
    rt: HostRuntime,
) -> Result<(), Fail> {
    view_is(
        &rt,
        rt.alloc(),
        &["len\nshow qhead\n", "show tail 0.0"],
        "viewer 1\nat 0 0\nis 0.0\nviewer 2\nis open 0\nhistory 3\n",
    )
}

#[test]
fn faulty_lines_between_commands_are_answered_in_place_and_not_asked(
    rt: HostRuntime,
) -> Result<(), Fail> {
    view_is(
        &rt,
        rt.alloc(),
        &[
            "hello\nenq 1 7\nmark A\ngo 1\n\n",
            "",
            "enq 17 5\nenq 01 7\n",
        ],
        "viewer 1\nrefused 22 BadLine\nok 1\nrefused 17 BadName\nok 2\nrefused 22 BadLine\nviewer 2\nviewer 3\nrefused 1 NoActor\nrefused 22 BadLine\nhistory 3\n",
    )
}

#[test]
fn each_kind_of_command_is_answered_in_a_view(rt: HostRuntime) -> Result<(), Fail> {
    let mut script = String::new(rt.alloc());
    let mut wanted = String::new(rt.alloc());
    write!(wanted, "viewer 1\n")?;
    for (line, reply) in ASKED {
        write!(script, "{line}\n")?;
        write!(wanted, "{reply}")?;
    }
    write!(wanted, "history {}\n", ASKED.len())?;
    view_is(&rt, rt.alloc(), &[script.as_str()], wanted.as_str())
}

#[test]
fn each_of_64_scripts_has_a_viewer(rt: HostRuntime) -> Result<(), Fail> {
    let scripts = ["len\n"; 64];
    let mut wanted = String::new(rt.alloc());
    for viewer in 1..65u64 {
        write!(wanted, "viewer {viewer}\nat 0 0\n")?;
    }
    write!(wanted, "history 64\n")?;
    view_is(&rt, rt.alloc(), scripts.as_slice(), wanted.as_str())
}
