//! Traces that the program loads, each with a script over it and what is written, the trace of the
//! session too where it is asked for; or with the fault that it comes to.

ghost use Rattle.std.specs.Prelude.{◌≡◌, false};

use rd_devices::{ReadSource, Sink, WriteSink};
use rd_program::{ProgramFault, load_book, play, read_whole_text};
use rd_trace::TraceFault;
use std::alloc::Global;
use std::io;
use std::process::Abort;
use test_kit::{End, Limit, LimitedWriter};

/// The trace of an enqueue's first two steps.
const BEGUN: &str =
    "{\"actors\":4,\"events\":[[\"enq\",1,7],[\"go\",1]],\"ring\":4,\"version\":1}\n";

/// Loads the trace and runs the script over it, with the trace of the session after it if `traced`.
fn resumed<K: Sink + Drop>(
    alloc: Global,
    load: (&str, &str, bool),
    mut sink: K,
) -> Result<u64, ProgramFault>
    requires { K.has_failed sink ≡ false }
{
    let (trace, script, traced) = load;
    let mut book = load_book(alloc, trace.as_bytes())?;
    let source = &mut ReadSource::new(script.as_bytes());
    play(alloc, source, &mut sink, &mut book, traced)
}

/// Compares what is written over a trace, and how it ended, with these.
fn comes_to(
    rt: &impl Abort,
    alloc: Global,
    (trace, script, traced): (&str, &str, bool),
    wanted: &str,
    ended: &str,
) {
    let mut written = Vec::new(alloc);
    let sink = WriteSink::new(&mut written);
    let lines = resumed(alloc, (trace, script, traced), sink);
    let shown = format!(in alloc; "{lines:?}").expect(rt, "out of memory");
    let said = written.as_slice() == wanted.as_bytes();
    assert!(rt; said && shown.as_str() == ended, "trace {trace}: {shown}");
}

/// A trace, a script over it, its report, how the script ended, and the trace of the session after
/// it.
struct Saving {
    trace: &'static str,
    script: &'static str,
    report: &'static str,
    ended: &'static str,
    session: &'static str,
}

/// Sessions that begin in the fresh world, in a trace of version 1 and in one of version 2, and one
/// that begins in an actor at the fetch-and-add of its enqueue.
const SAVINGS: &[Saving] = &[
    Saving {
        trace: BEGUN,
        script: "go 1\nmark a\nundo\n",
        report: "ok 3\nmarked 3\nat 2 1\n",
        ended: "Ok(3)",
        session: "{\"events\":[[\"enq\",1,7],[\"go\",1]],\"marks\":[{\"events\":[[\"enq\",1,7],[\"go\",1],[\"go\",1]],\"name\":\"a\"}],\"ring\":4,\"start\":{\"fresh\":4},\"undone\":[[\"go\",1]],\"version\":2}\n",
    },
    Saving {
        trace: "{\"version\":2,\"ring\":8,\"start\":{\"fresh\":2},\"events\":[],\"undone\":[[\"deq\",2]],\"marks\":[]}",
        script: "redo\nlen\n",
        report: "at 1 0\nat 1 0\n",
        ended: "Ok(2)",
        session: "{\"events\":[[\"deq\",2]],\"marks\":[],\"ring\":8,\"start\":{\"fresh\":2},\"undone\":[],\"version\":2}\n",
    },
    Saving {
        trace: "{\"events\":[],\"marks\":[],\"ring\":2,\"start\":{\"actors\":[{\"closed\":false,\"crq\":[0,0],\"h\":0,\"idx\":0,\"new\":[0,0],\"next\":[0,0],\"op\":[\"enq\",1],\"pass\":0,\"pc\":\"E4\",\"safe\":false,\"t\":0,\"val\":null}],\"array\":{\"cells\":[[3,\"top\"]],\"head\":0,\"tail\":0},\"qhead\":[0,0],\"qtail\":[0,0],\"segments\":[[{\"cells\":[[true,0,null],[true,1,null]],\"closed\":false,\"head\":0,\"next\":null,\"tail\":1}],[]]},\"undone\":[],\"version\":2}",
        script: "go 1\nshow tail 0.0\n",
        report: "ok 1\nis open 2\n",
        ended: "Ok(2)",
        session: "{\"events\":[[\"go\",1]],\"marks\":[],\"ring\":2,\"start\":{\"actors\":[{\"closed\":false,\"crq\":[0,0],\"h\":0,\"idx\":0,\"new\":[0,0],\"next\":[0,0],\"op\":[\"enq\",1],\"pass\":0,\"pc\":\"E4\",\"safe\":false,\"t\":0,\"val\":null}],\"array\":{\"cells\":[[3,\"top\"]],\"head\":0,\"tail\":0},\"qhead\":[0,0],\"qtail\":[0,0],\"segments\":[[{\"cells\":[[true,0,null],[true,1,null]],\"closed\":false,\"head\":0,\"next\":null,\"tail\":1}],[]]},\"undone\":[],\"version\":2}\n",
    },
];

/// The trace of a session follows its report if it is asked for, and a saved session is saved again
/// as its text.
fn is_saved(rt: &impl Abort, alloc: Global, row: &Saving) {
    let both = format!(in alloc; "{}{}", row.report, row.session).expect(rt, "out of memory");
    comes_to(rt, alloc, (row.trace, row.script, true), &both, row.ended);
    comes_to(
        rt,
        alloc,
        (row.trace, row.script, false),
        row.report,
        row.ended,
    );
    comes_to(rt, alloc, (row.session, "", true), row.session, "Ok(0)");
}

#[test]
fn the_trace_of_a_loaded_session_follows_its_report_if_it_is_asked_for(rt: HostRuntime) {
    for row in SAVINGS {
        is_saved(&rt, rt.alloc(), row);
    }
}

/// A writer that fails in the trace of a loaded session has its report.
fn is_cut_after_report(rt: &impl Abort, alloc: Global, row: &Saving) {
    let mut written = Vec::new(alloc);
    let limit = Limit {
        calls: row.report.len() + 3,
        most: 1,
        end: End::Fails,
    };
    let sink = WriteSink::new(LimitedWriter::with_limit(&mut written, limit));
    let lines = resumed(alloc, (row.trace, row.script, true), sink);
    let failed = matches!(lines, Err(ProgramFault::Trace(TraceFault::Write)));
    let begun = written.starts_with(row.report.as_bytes());
    assert!(rt; failed && begun && written.ends_with(b"{\"e"));
}

#[test]
fn a_writer_that_fails_in_the_trace_of_a_loaded_session_has_its_report(rt: HostRuntime) {
    for row in SAVINGS {
        is_cut_after_report(&rt, rt.alloc(), row);
    }
}

/// Traces, each with a script over it, its report, and how the script ended. The trace of the
/// session is not asked for.
const LOADS: &[(&str, &str, &str, &str)] = &[
    // A script goes on with the run of a trace.
    (
        BEGUN,
        "len\nstep 2\nback 2\nshow cell 0.0 4\n",
        "at 2 0\nstep 2; go 1; qtail; read; 0.0; -\nat 0 2\nrefused 19 NoSuchPlace\n",
        "Ok(4)",
    ),
    // The ring and the actors are those of the trace.
    (
        "{\"version\": 1, \"ring\": 8, \"events\": [], \"actors\": 2}",
        "deq 2\ndeq 3\nshow cell 0.0 7\n",
        "ok 1\nrefused 1 NoActor\nis 1 7 none\n",
        "Ok(3)",
    ),
    // A script goes on with a whole session.
    (
        "{\"events\":[[\"enq\",1,7]],\"marks\":[{\"events\":[[\"deq\",1]],\"name\":\"a\"}],\"ring\":4,\"start\":{\"fresh\":4},\"undone\":[[\"go\",1]],\"version\":2}",
        "len\nredo\nmarkat 1\ngoto a\n",
        "at 1 1\nat 2 0\nmark a 1\nat 1 0\n",
        "Ok(4)",
    ),
    // A text that is no trace, and a trace with a refused event, with a refused event of a
    // bookmark, or with a flawed start, run no script.
    (NO_TRACE, "len\n", "", "Err(Trace(BadTrace))"),
    (
        "{\"actors\":4,\"events\":[[\"enq\",1,7],[\"go\",1],[\"starve\",1,true]],\"ring\":4,\"version\":1}",
        "len\n",
        "",
        "Err(Trace(TraceStep { step: 3, cause: NoChoice }))",
    ),
    (
        "{\"events\":[],\"marks\":[{\"events\":[[\"go\",1]],\"name\":\"a\"}],\"ring\":2,\"start\":{\"fresh\":1},\"undone\":[],\"version\":2}\n",
        "len\n",
        "",
        "Err(Trace(TraceMark { mark: 1, step: 1, cause: Idle }))",
    ),
    (
        "{\"events\":[],\"marks\":[],\"ring\":2,\"start\":{\"actors\":[],\"array\":{\"cells\":[],\"head\":0,\"tail\":0},\"qhead\":[0,0],\"qtail\":[0,0],\"segments\":[]},\"undone\":[],\"version\":2}\n",
        "len\n",
        "",
        "Err(Trace(Flawed(Makers)))",
    ),
];

/// A text that is no trace.
const NO_TRACE: &str = "{\"actors\":4,\"ev";

#[test]
fn a_script_goes_on_with_the_run_of_a_trace_and_is_not_run_if_there_is_none(rt: HostRuntime) {
    for (trace, script, report, ended) in LOADS {
        comes_to(&rt, rt.alloc(), (*trace, *script, false), *report, *ended);
    }
    let traced = (NO_TRACE, "len\n", true);
    comes_to(&rt, rt.alloc(), traced, "", "Err(Trace(BadTrace))");
}

/// Fails at each read, by an error of this kind.
#[derive(Drop)]
struct BrokenReader {
    kind: io::ErrorKind,
}

impl io::Read for BrokenReader {
    fn read(&mut self, _buf: &mut [u8]) -> io::Result<usize> {
        Err(io::Error::from(self.kind))
    }
}

/// A file whose reads fail by an error of this kind is not read, and the fault is shown so.
fn is_unread(rt: &impl Abort, alloc: Global, kind: io::ErrorKind, fault: &str) {
    let read = read_whole_text(alloc, &mut BrokenReader { kind });
    let shown = format!(in alloc; "{:?}", read.err()).expect(rt, "out of memory");
    assert!(rt; shown.as_str() == fault, "{kind:?}: {shown}");
}

#[test]
fn a_file_is_read_whole_or_not_at_all(rt: HostRuntime) {
    let text = read_whole_text(rt.alloc(), &mut BEGUN.as_bytes()).expect(&rt, "no text");
    assert!(&rt; text.as_slice() == BEGUN.as_bytes());
    is_unread(&rt, rt.alloc(), io::ErrorKind::Other, "Some(Read)");
    is_unread(&rt, rt.alloc(), io::ErrorKind::IsADirectory, "Some(Read)");
    // a read that finds no memory is no failed read
    is_unread(
        &rt,
        rt.alloc(),
        io::ErrorKind::OutOfMemory,
        "Some(NoMemory)",
    );
}
