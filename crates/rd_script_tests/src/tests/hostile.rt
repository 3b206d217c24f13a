//! Lines that a hostile script may have: each is refused alone, and the next line is done.

use super::runs::poised;
use rd_devices::{ReadSource, WriteSink};
use rd_script::run;
use std::alloc::Global;
use std::process::Abort;

/// Runs a script of a line and of another one after it, which is done, over a poised world, and
/// compares its report.
fn line_is(rt: &impl Abort, alloc: Global, line: &[u8], report: &str) {
    let mut script = Vec::from_slice(alloc, line).expect(rt, "out of memory");
    assert!(rt; script.extend_from_slice(b"\ngo 3\n").is_ok());
    let mut written = Vec::new(alloc);
    let said = run(
        &mut ReadSource::new(script.as_slice()),
        &mut WriteSink::new(&mut written),
        &mut poised::<4>(rt, alloc),
    );
    assert!(rt;
        said.is_ok() && written.as_slice() == report.as_bytes(),
        "report {report}"
    );
}

#[test]
fn each_byte_alone_is_a_bad_line(rt: HostRuntime) {
    for byte in 0..=u8::MAX {
        let report = match byte {
            b'\n' => "refused 22 BadLine\nrefused 22 BadLine\nok 1\n",
            _ => "refused 22 BadLine\nok 1\n",
        };
        line_is(&rt, rt.alloc(), &[byte], report);
    }
}

/// Lines that spell no command, each with the report.
const LINES: &[(&[u8], &str)] = &[
    (b"len\r", "refused 22 BadLine\nok 1\n"),
    // A name of 17 letters, and one with a capital.
    (b"mark aaaaaaaaaaaaaaaaa", "refused 17 BadName\nok 1\n"),
    (b"same A b", "refused 17 BadName\nok 1\n"),
];

#[test]
fn a_carriage_return_makes_a_bad_line_and_a_bad_name_is_refused_as_one(rt: HostRuntime) {
    for (line, report) in LINES {
        line_is(&rt, rt.alloc(), *line, *report);
    }
}

#[test]
fn a_line_of_100_000_bytes_is_one_fault_and_the_next_one_is_done(rt: HostRuntime) {
    let line = "x".repeat(rt.alloc(), 100_000).expect(&rt, "out of memory");
    line_is(
        &rt,
        rt.alloc(),
        line.as_bytes(),
        "refused 23 LineTooLong\nok 1\n",
    );
}
