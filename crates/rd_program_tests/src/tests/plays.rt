//! Scripts as the program runs them: over the fresh world of the options' actors and ring.

use rd_devices::{ReadSource, WriteSink};
use rd_marks::Ring;
use rd_program::{Setup, fresh_book, play};
use std::alloc::Global;
use std::process::Abort;

/// A script and its report, over the fresh world of this many actors and this ring, with the trace
/// or without.
struct Play {
    actors: u8,
    ring: Ring,
    trace: bool,
    script: &'static str,
    report: &'static str,
}

/// Scripts and their reports.
const PLAYS: &[Play] = &[
    // A script runs over the actors and the ring of the options.
    Play {
        actors: 2,
        ring: Ring::Four,
        trace: false,
        script: "deq 2\ndeq 3\nlen\n",
        report: "ok 1\nrefused 1 NoActor\nat 1 0\n",
    },
    Play {
        actors: 3,
        ring: Ring::Four,
        trace: false,
        script: "deq 3\ngo 3\ngo 3\ndeq 4\nshow head 0.0\nlen\n",
        report: "ok 1\nok 2\nok 3\nrefused 1 NoActor\nis 1\nat 3 0\n",
    },
    Play {
        actors: 16,
        ring: Ring::Eight,
        trace: false,
        script: "deq 16\ndeq 17\nshow cell 0.0 7\nshow cell 0.0 8\n",
        report: "ok 1\nrefused 1 NoActor\nis 1 7 none\nrefused 19 NoSuchPlace\n",
    },
    Play {
        actors: 1,
        ring: Ring::Two,
        trace: false,
        script: "show cell 0.0 1\nshow cell 0.0 2\nshow tail 0.0\n",
        report: "is 1 1 none\nrefused 19 NoSuchPlace\nis open 0\n",
    },
    // The trace follows the report.
    Play {
        actors: 4,
        ring: Ring::Four,
        trace: true,
        script: "enq 1 7\ngo 1\n",
        report: "ok 1\nok 2\n{\"events\":[[\"enq\",1,7],[\"go\",1]],\"marks\":[],\"ring\":4,\"start\":{\"fresh\":4},\"undone\":[],\"version\":2}\n",
    },
    Play {
        actors: 1,
        ring: Ring::Two,
        trace: true,
        script: "",
        report: "{\"events\":[],\"marks\":[],\"ring\":2,\"start\":{\"fresh\":1},\"undone\":[],\"version\":2}\n",
    },
    // An empty script has an empty report.
    Play {
        actors: 4,
        ring: Ring::Four,
        trace: false,
        script: "",
        report: "",
    },
    // A full ring of two cells gets a second segment.
    Play {
        actors: 4,
        ring: Ring::Two,
        trace: false,
        script: "enq 1 7\ngo 1\ngo 1\ngo 1\ngo 1\ngo 1\ngo 1\nenq 1 8\ngo 1\ngo 1\ngo 1\ngo 1\ngo 1\ngo 1\nenq 1 9\ngo 1\ngo 1\ngo 1\ngo 1\ngo 1\ngo 1\ngo 1\ngo 1\ngo 1\ngo 1\nshow cell 1.0 0\n",
        report: "ok 1\nok 2\nok 3\nok 4\nok 5\nok 6\nok 7 enqueued\nok 8\nok 9\nok 10\nok 11\nok 12\nok 13\nok 14 enqueued\nok 15\nok 16\nok 17\nok 18\nok 19\nok 20\nok 21\nok 22\nok 23\nok 24\nok 25 enqueued\nis 1 0 9\n",
    },
];

/// Runs a script and compares its report and its number of lines.
fn report_is(rt: &impl Abort, alloc: Global, shown: &Play) {
    let (actors, ring, script) = (shown.actors, shown.ring, shown.script);
    assert!(rt; 1 <= actors && actors <= 16);
    let mut book = fresh_book(alloc, Setup { actors, ring }).expect(rt, "out of memory");
    let mut written = Vec::new(alloc);
    let lines = play(
        alloc,
        &mut ReadSource::new(script.as_bytes()),
        &mut WriteSink::new(&mut written),
        &mut book,
        shown.trace,
    );
    let counted = matches!(lines, Ok(n) if n == script.lines().count() as u64);
    let said = written.as_slice() == shown.report.as_bytes();
    assert!(rt; said && counted, "script {script}");
}

#[test]
fn a_script_has_its_report_over_the_actors_and_the_ring_of_the_options(rt: HostRuntime) {
    for shown in PLAYS {
        report_is(&rt, rt.alloc(), shown);
    }
}
