//! Views that are refused memory.

use super::trials::{Trial, on_trial};
use rd_devices::WriteSink;
use rd_view::{ViewFault, view_scripts};
use std::alloc::Global;
use std::process::Abort;
use std::sync::Wait;
use std::thread::Threads;
use test_kit::LimitedWriter;

/// The text of a view of the two scripts below. What one is answered does not depend on the other.
pub(super) const USUAL: &[u8] = b"viewer 1\nok 1\nat 1 0\nviewer 2\nis open 0\nhistory 3\n";

/// The texts where a viewer's thread, the record of a call, or a step was refused memory.
const SHORT: &[&[u8]] = &[
    b"viewer 1\nrefused 20 NoMemory\nviewer 2\nis open 0\nhistory 1\n",
    b"viewer 1\nrefused 31 NotRecorded\nat 0 0\nviewer 2\nis open 0\nhistory 2\n",
    b"viewer 1\nrefused 20 NoMemory\nat 0 0\nviewer 2\nis open 0\nhistory 3\n",
    b"viewer 1\nok 1\nat 1 0\nviewer 2\nrefused 20 NoMemory\nhistory 2\n",
    b"viewer 1\nok 1\nat 1 0\nviewer 2\nrefused 31 NotRecorded\nhistory 2\n",
];

/// The bytes of a script, made again if memory was refused.
fn script(rt: &impl Abort, alloc: Global, text: &[u8]) -> Vec<u8> {
    Vec::from_slice(alloc, text)
        .or(Vec::from_slice(alloc, text))
        .expect(rt, "refused memory twice")
}

/// Views the two scripts over a fresh book. Returns the fault, if there was one.
pub(super) fn viewed<R: Abort + Threads + Wait + Sync>(
    rt: &R,
    alloc: Global,
    writer: LimitedWriter<'_>,
) -> Option<ViewFault> {
    let Trial { book, .. } = on_trial(rt, alloc);
    let scripts = [
        script(rt, alloc, b"enq 1 7\nlen\n"),
        script(rt, alloc, b"show tail 0.0"),
    ];
    let mut sink = WriteSink::new(writer);
    view_scripts(rt, alloc, scripts.as_slice(), &mut sink, book).err()
}

/// Whether a view has the usual text. If not, memory was refused: it has none of it, or one that
/// says to whom.
fn is_usual<R: Abort + Threads + Wait + Sync>(rt: &R, alloc: Global, page: &mut Vec<u8>) -> bool {
    page.clear();
    let fault = viewed(rt, alloc, LimitedWriter::without_limit(page));
    if page.as_slice() == USUAL {
        assert!(rt; fault.is_none());
        return true;
    }
    let short = fault.is_none() && SHORT.contains(&page.as_slice());
    assert!(rt; short || fault == Some(ViewFault::NoMemory) && page.is_empty());
    false
}

#[test]
fn a_view_that_was_refused_memory_says_where_or_writes_nothing_and_is_as_ever_the_next_time(
    rt: HostRuntime,
) {
    let mut page = on_trial(&rt, rt.alloc()).report;
    let usual = is_usual(&rt, rt.alloc(), &mut page);
    assert!(&rt; usual || is_usual(&rt, rt.alloc(), &mut page));
}
