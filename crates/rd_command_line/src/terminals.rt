//! The terminals of viewers that are there at once: a file that is read as it comes, and beside it
//! the file that the replies go to.

ghost use Rattle.std.specs.Prelude.{◌≡◌, IfOk, length, map, string_bytes};
ghost use Rattle.rd_options.specs.Options.{replies_name};
ghost use Rattle.rd_command_line.specs.Answering.{OpensFiles};

use rd_devices::{ReadSource, ScriptFault, WriteSink};
use rd_options::REPLIES_ENDING;
use rd_view::Terminal;
use std::alloc::{AllocError, Global};
use std::fs::{self, Files, OpenOptions};

/// The file that a viewer reads, and the file that its replies go to; neither is open.
#[derive(Drop)]
pub struct FileTerminal<'a, R> {
    /// What opens files.
    rt: &'a R,
    /// The name of the file that is read.
    name: &'a str,
    /// The name of the file of the replies.
    replies: String,
}

impl<'a, R: Files> Terminal for FileTerminal<'a, R>
where
    R::File: Send,
    R::Dir: Send,
{
    type Reader = ReadSource<R::File>;

    type Writer = WriteSink<R::File>;

    ghost opens = { λ _ reader writer. OpensFiles R.File.remaining R.File.contents reader writer };

    /// Opens the file that is read, then the file of the replies, to append to it; that one is made
    /// if it isn't there. Fails with `Read` if the first can't be opened, with `Write` if the
    /// second can't be.
    fn open(self) -> Result<(ReadSource<R::File>, WriteSink<R::File>), ScriptFault> {
        let Ok(reader) = fs::open(self.rt, self.name) else {
            return Err(ScriptFault::Read);
        };
        let mut how = OpenOptions::new();
        how.append(true).create(true);
        match how.open(self.rt, self.replies.as_str()) {
            Ok(writer) => Ok((ReadSource::new(reader), WriteSink::new(writer))),
            Err(_) => Err(ScriptFault::Write),
        }
    }
}

/// Returns a terminal for each viewer, in order: it reads the file of this name, and appends its
/// replies to that name with `.replies` behind it. No file is opened here. Fails only if memory is
/// refused.
pub(crate) fn file_terminals<'a, R: Files>(
    rt: &'a R,
    alloc: Global,
    names: &[&'a str],
) -> Result<Vec<FileTerminal<'a, R>>, AllocError>
    ensures count { IfOk result (λ terminals. length terminals.items ≡ length names.now) }
    ensures names { IfOk result (λ terminals. map (λ terminal. terminal.name.now) terminals.items
        ≡ map (λ name. name.now) names.now) }
    ensures replies { IfOk result (λ terminals. map (λ terminal. string_bytes terminal.replies)
        terminals.items ≡ map (λ name. replies_name name.now) names.now) }
{
    let mut terminals = Vec::new(alloc);
    for name in names {
        let mut replies = String::from_str(alloc, name)?;
        replies.push_str(REPLIES_ENDING)?;
        terminals.push(FileTerminal { rt, name, replies })?;
    }
    Ok(terminals)
}
