//! Views: several scripts over one fresh world, of the options' actors and ring.

ghost use Rattle.std.specs.Prelude.{◌≡◌, ◌≤◌, false, length};
ghost use Rattle.rd_desk.specs.declared.desks.TheConstants.{MOST_VIEWERS};

use rd_devices::{Sink, WriteSink};
use rd_marks::Ring;
use rd_program::{ProgramFault, Setup, ViewExtras, fresh_book, view_book};
use rd_view::ViewFault;
use std::alloc::Global;
use std::process::Abort;
use std::sync::Wait;
use std::thread::Threads;
use test_kit::{BrokenWriter, scripts_as_bytes};

/// Scripts and the text of their view, which is the same in whatever order the viewers' calls come.
struct View {
    actors: u8,
    ring: Ring,
    scripts: &'static [&'static str],
    extras: ViewExtras,
    text: &'static str,
    calls: u64,
}

/// A view with nothing behind the number of its calls.
const PLAIN: ViewExtras = ViewExtras {
    history: false,
    trace: false,
};

/// Scripts that ask for the third actor and for two cells.
const ASKING: &[&str] = &["deq 3\n", "show cell 0.0 3\nshow cell 0.0 7\n"];

/// Scripts and the texts of their views.
const VIEWS: &[View] = &[
    // Two viewers share one world.
    View {
        actors: 4,
        ring: Ring::Four,
        scripts: &["len\nshow qhead\n", "show tail 0.0"],
        extras: PLAIN,
        text: "viewer 1\nat 0 0\nis 0.0\nviewer 2\nis open 0\nhistory 3\n",
        calls: 3,
    },
    // The world of a view has the actors and the ring of the options.
    View {
        actors: 2,
        ring: Ring::Two,
        scripts: ASKING,
        extras: PLAIN,
        text: "viewer 1\nrefused 1 NoActor\nviewer 2\nrefused 19 NoSuchPlace\nrefused 19 NoSuchPlace\nhistory 3\n",
        calls: 3,
    },
    View {
        actors: 3,
        ring: Ring::Four,
        scripts: ASKING,
        extras: PLAIN,
        text: "viewer 1\nok 1\nviewer 2\nis 1 3 none\nrefused 19 NoSuchPlace\nhistory 3\n",
        calls: 3,
    },
    View {
        actors: 16,
        ring: Ring::Eight,
        scripts: ASKING,
        extras: PLAIN,
        text: "viewer 1\nok 1\nviewer 2\nis 1 3 none\nis 1 7 none\nhistory 3\n",
        calls: 3,
    },
    // Faulty lines stand between the commands and are not calls.
    View {
        actors: 4,
        ring: Ring::Four,
        scripts: &["hello\nlen\nmark A\nshow qtail\n\n", "", "deq 17\n"],
        extras: PLAIN,
        text: "viewer 1\nrefused 22 BadLine\nat 0 0\nrefused 17 BadName\nis 0.0\nrefused 22 BadLine\nviewer 2\nviewer 3\nrefused 1 NoActor\nhistory 3\n",
        calls: 3,
    },
    // The calls of the history are those that were asked, refused ones too.
    View {
        actors: 1,
        ring: Ring::Four,
        scripts: &["enq 1 7\ngo 1\nhello\nundo 1\nmark a-1\n", "\n"],
        extras: ViewExtras {
            history: true,
            trace: false,
        },
        text: "viewer 1\nok 1\nok 2\nrefused 22 BadLine\nrefused 13 Depended 2\nmarked 2\nviewer 2\nrefused 22 BadLine\nhistory 4\n1 enq 1 7\n1 go 1\n1 undo 1\n1 mark a-1\n",
        calls: 4,
    },
    // The trace is that of the book that the calls left.
    View {
        actors: 1,
        ring: Ring::Two,
        scripts: &["", "enq 1 7\nundo\n"],
        extras: ViewExtras {
            history: true,
            trace: true,
        },
        text: "viewer 1\nviewer 2\nok 1\nat 0 1\nhistory 2\n2 enq 1 7\n2 undo\n{\"events\":[],\"marks\":[],\"ring\":2,\"start\":{\"fresh\":1},\"undone\":[[\"enq\",1,7]],\"version\":2}\n",
        calls: 2,
    },
];

/// Views the scripts over a fresh world. Returns the number of recorded calls.
fn viewed<R: Threads + Wait + Sync, K: Sink>(
    rt: &R,
    alloc: Global,
    scripts: &[Vec<u8>],
    sink: &mut K,
    setup: Setup,
    extras: ViewExtras,
) -> Result<u64, ProgramFault>
    requires some { 1 ≤ length scripts.now }
    requires few { length scripts.now ≤ MOST_VIEWERS }
    requires works { K.has_failed sink.old ≡ false }
{
    let book = fresh_book(alloc, setup)?;
    let left = view_book(rt, alloc, scripts, sink, book, extras)?;
    Ok(left.history.len())
}

/// Views the scripts and compares what is written, and the number of recorded calls.
fn view_is<R: Threads + Wait + Abort + Sync>(rt: &R, alloc: Global, shown: &View) {
    let (actors, ring, text) = (shown.actors, shown.ring, shown.text);
    let scripts = scripts_as_bytes(alloc, shown.scripts).expect(rt, "out of memory");
    assert!(rt; 1 <= actors && actors <= 16);
    assert!(rt; 1 <= scripts.len() && scripts.len() <= 64);
    let mut written = Vec::new(alloc);
    let sink = &mut WriteSink::new(&mut written);
    let setup = Setup { actors, ring };
    let calls = viewed(rt, alloc, scripts.as_slice(), sink, setup, shown.extras);
    let counted = matches!(calls, Ok(n) if n == shown.calls);
    assert!(rt;
        written.as_slice() == text.as_bytes() && counted,
        "text {text}"
    );
}

#[test]
fn a_view_has_its_text(rt: HostRuntime) {
    for shown in VIEWS {
        view_is(&rt, rt.alloc(), shown);
    }
}

#[test]
fn there_may_be_64_viewers(rt: HostRuntime) {
    let scripts = scripts_as_bytes(rt.alloc(), &["len"; 64]).expect(&rt, "out of memory");
    assert!(&rt; scripts.len() == 64);
    let mut written = Vec::new(rt.alloc());
    let sink = &mut WriteSink::new(&mut written);
    let setup = Setup {
        actors: 1,
        ring: Ring::Two,
    };
    let calls = viewed(&rt, rt.alloc(), scripts.as_slice(), sink, setup, PLAIN);
    let begun = written.starts_with(b"viewer 1\nat 0 0\nviewer 2\n");
    let ended = written
        .as_slice()
        .ends_with(b"viewer 64\nat 0 0\nhistory 64\n");
    assert!(&rt; matches!(calls, Ok(64)) && begun && ended);
}

#[test]
fn a_view_that_cannot_be_written_is_a_failed_write(rt: HostRuntime) {
    let scripts = scripts_as_bytes(rt.alloc(), &["len"]).expect(&rt, "out of memory");
    assert!(&rt; scripts.len() == 1);
    let sink = &mut WriteSink::new(BrokenWriter);
    let setup = Setup {
        actors: 4,
        ring: Ring::Four,
    };
    let calls = viewed(&rt, rt.alloc(), scripts.as_slice(), sink, setup, PLAIN);
    assert!(&rt; matches!(calls, Err(ProgramFault::View(ViewFault::Write))));
}
