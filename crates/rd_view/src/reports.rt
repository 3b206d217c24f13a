//! The text of a view: for each viewer a heading and the answers to its lines, and last the number
//! of recorded calls.
//!
//! The lines of a history can follow, so that it can be run again as one script.
//!
//! The whole text is made in memory before any of it is handed to a writer. One buffer holds each
//! line in turn, before it is appended to the text.

ghost use Rattle.std.specs.Prelude.{◌≡◌, ◌++◌, length, map, IfOk, OnOk};
ghost use Rattle.rd_script.specs.Answers.{line_answers, report_of};
ghost use Rattle.rd_text.specs.Replies.{answer_text};
ghost use Rattle.std.specs.List.{AllByRecursion};
ghost use Rattle.rd_desk.specs.Histories.{entries};
ghost use Rattle.rd_view.specs.Reports.{SpellsItsCommand, desk_line_answer, history_text, viewer_text, viewers_text};

use rd_cell::Refusal;
use rd_desk::{Answer, DeskRefusal, History};
use rd_text::{
    AnyRefusal, Heading, LineAnswer, ParsedLine, Text, set_answer, set_call, set_heading,
};
use std::alloc::{AllocError, Global};

/// Returns the text of a view: for each viewer in order its heading and the answers to its lines,
/// and last the number of recorded calls. `said` has what each viewer's lines spell, and `answered`
/// the desk's answers to their commands. A viewer whose thread was not started has no answers: it
/// gets one line, which says that memory was refused. The two lists must be equally long. Fails
/// only if memory is refused.
pub fn text_of_view(
    alloc: Global,
    said: &[Vec<ParsedLine>],
    answered: &[Option<Vec<Answer>>],
    calls: u64,
) -> Result<Vec<u8>, AllocError>
    requires { length said.now ≡ length answered.now }
    ensures { IfOk result (λ text. text.items ≡ viewers_text 1 said.now answered.now calls) }
{
    let mut text = Vec::new(alloc);
    let mut line = Text::new();
    for i in 0..said.len() {
        put_viewer(
            &mut text,
            &mut line,
            i as u64 + 1,
            said[i].as_slice(),
            &answered[i],
        )?;
    }
    set_heading(&mut line, Heading::History(calls));
    text.extend_from_slice(line.as_slice())?;
    Ok(text)
}

/// Appends to the text the lines of a history: for each call in order the number of its viewer, and
/// the line that spells its command. Fails only if memory is refused; some lines may then have been
/// appended.
///
/// Each of these lines, without the number, is read as its command again (`reads_back`).
pub fn put_history(text: &mut Vec<u8>, history: &History) -> Result<(), AllocError>
    ensures text { OnOk result (text.new.items
        ≡ text.old.items ++ history_text (entries history.now)) }
    ensures reads_back { OnOk result (AllByRecursion SpellsItsCommand (entries history.now)) }
{
    let mut line = Text::new();
    for (viewer, call) in history.calls() {
        set_call(&mut line, *viewer, &call.command);
        text.extend_from_slice(line.as_slice())?;
    }
    Ok(())
}

/// Appends to the text the heading of the viewer of this number, from 1, and after it the answers to
/// its lines. If there are no answers, since its thread was not started, the line
/// `refused 20 NoMemory` comes in their place. The buffer `line` is overwritten. Fails only if
/// memory is refused; some lines may then have been appended.
fn put_viewer(
    text: &mut Vec<u8>,
    line: &mut Text,
    viewer: u64,
    lines: &[ParsedLine],
    answers: &Option<Vec<Answer>>,
) -> Result<(), AllocError>
    ensures { OnOk result (text.new.items
        ≡ text.old.items ++ viewer_text viewer lines.now answers.now) }
{
    set_heading(line, Heading::Viewer(viewer));
    text.extend_from_slice(line.as_slice())?;
    match answers {
        Some(answers) => put_report(text, line, lines, answers.as_slice()),
        None => put_answer(text, line, &Err(AnyRefusal::Refused(Refusal::NoMemory))),
    }
}

/// Appends to the text the answers to the lines of a script: for a line that spells no command its
/// fault, for any other line the next answer, if there is one. The buffer `line` is overwritten.
/// Fails only if memory is refused; some lines may then have been appended.
fn put_report(
    text: &mut Vec<u8>,
    line: &mut Text,
    lines: &[ParsedLine],
    answers: &[Answer],
) -> Result<(), AllocError>
    ensures { OnOk result (text.new.items ≡ text.old.items
        ++ report_of (line_answers lines.now (map desk_line_answer answers.now))) }
{
    let mut rest = answers;
    for parsed in lines {
        let answer = match parsed {
            Err(fault) => Err(AnyRefusal::Unread(*fault)),
            Ok(_) => {
                let Some((answer, others)) = rest.split_first() else {
                    continue;
                };
                rest = others;
                desk_line_answer(answer)
            }
        };
        put_answer(text, line, &answer)?;
    }
    Ok(())
}

/// Makes the line of one answer in the buffer `line`, and appends it to the text. Fails only if
/// memory is refused; the text is then as before.
fn put_answer(text: &mut Vec<u8>, line: &mut Text, answer: &LineAnswer) -> Result<(), AllocError>
    ensures { OnOk result (text.new.items ≡ text.old.items ++ answer_text answer.now) }
{
    set_answer(line, answer);
    text.extend_from_slice(line.as_slice())
}

/// Returns the answer to a line that spells a command, from the desk's answer to that command.
pub(crate) fn desk_line_answer(answer: &Answer) -> LineAnswer
    ensures { result ≡ desk_line_answer answer.now }
{
    match *answer {
        Ok(Ok(reply)) => Ok(reply),
        Ok(Err(refusal)) => Err(AnyRefusal::Refused(refusal)),
        Err(DeskRefusal::HistoryFull) => Err(AnyRefusal::HistoryFull),
        Err(DeskRefusal::NotRecorded) => Err(AnyRefusal::NotRecorded),
        Err(DeskRefusal::TicketsEnded) => Err(AnyRefusal::TicketsEnded),
        Err(DeskRefusal::Busy(words)) => Err(AnyRefusal::Busy {
            next: words.next,
            served: words.served,
        }),
    }
}
