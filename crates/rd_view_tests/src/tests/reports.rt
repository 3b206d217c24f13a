//! The text of a view: headings, answers line by line, and a viewer that was not started.

use rd_cell::Refusal;
use rd_desk::Answer;
use rd_marks::{Command, Reply};
use rd_text::{LineFault, ParsedLine};
use rd_view::text_of_view;
use std::alloc::{AllocError, Global};
use std::process::Abort;
use std::test::Fail;

/// What the lines of a script say, and what was answered where its viewer was started.
type Row<'a> = (&'a [ParsedLine], Option<&'a [Answer]>);

/// The text of a view of these viewers, with this many recorded calls.
fn view_of(
    rt: &impl Abort,
    alloc: Global,
    rows: &[Row],
    calls: u64,
) -> Result<Vec<u8>, AllocError> {
    let mut said = Vec::new(alloc);
    let mut told = Vec::new(alloc);
    for (lines, answers) in rows {
        said.push(Vec::from_slice(alloc, *lines)?)?;
        told.push(match answers {
            Some(answers) => Some(Vec::from_slice(alloc, *answers)?),
            None => None,
        })?;
    }
    let (said, told) = (said.as_slice(), told.as_slice());
    assert!(rt; said.len() == told.len());
    text_of_view(alloc, said, told, calls)
}

#[test]
fn a_view_has_a_heading_for_each_viewer_and_the_number_of_calls(
    rt: HostRuntime,
) -> Result<(), Fail> {
    let text = view_of(
        &rt,
        rt.alloc(),
        &[
            (
                &[Ok(Command::Len), Err(LineFault::BadLine), Ok(Command::Undo)],
                Some(&[
                    Ok(Ok(Reply::At { live: 0, undone: 0 })),
                    Ok(Err(Refusal::NothingToUndo(0))),
                ]),
            ),
            (&[], Some(&[])),
            (&[Ok(Command::Len), Ok(Command::Len)], None),
        ],
        2,
    )?;
    let wanted =
        "viewer 1\nat 0 0\nrefused 22 BadLine\nrefused 10 NothingToUndo 0\nviewer 2\nviewer 3\nrefused 20 NoMemory\nhistory 2\n";
    assert!(&rt; text.as_slice() == wanted.as_bytes());
    Ok(())
}
