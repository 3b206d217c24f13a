//! What the program does for the words of a command line: which files it opens, which streams it
//! uses, and how it ends.

ghost use Rattle.std.specs.Prelude.{◌≡◌, ◌≤◌, IfOk, IfErr, List, length, map, vec_len, true, false};
ghost use Rattle.std.specs.Process.{exit_status};
ghost use Rattle.rd_desk.specs.declared.desks.TheConstants.{MOST_VIEWERS};
ghost use Rattle.rd_devices.specs.Streams.{devices, sink_stream};
ghost use Rattle.rd_marks.specs.Ring.{ring_length};
ghost use Rattle.rd_marks.specs.AnyBook.{fresh_state};
ghost use Rattle.rd_program.specs.Program.{IsReadOrNoMemory};
ghost use Rattle.rd_options.specs.Options.{AreInRange};
ghost use Rattle.rd_command_line.specs.Outcomes.{is_shown};
ghost use Rattle.rd_command_line.specs.Answering.{AreWholeTexts, FollowsOptions, FollowsWordsOrFault, LoadsFile, OpensBook, OpensScript, ResumesFile, RunsCommandLine, RunsFile, ViewsFiles, ViewsFilesLive, counted, lived, recorded};

use super::outcomes::{Outcome, show_outcome};
use super::terminals::file_terminals;
use rd_devices::{ReadSource, Sink, Source};
use rd_marks::AnyBook;
use rd_options::{Options, OptionsFault, options};
use rd_program::{
    Done, Left, ProgramFault, Setup, ViewExtras, fresh_book, load_book, play, read_whole_text,
    view_book, view_live,
};
use rd_view::ViewerEnd;
use std::alloc::Global;
use std::convert::AsStr;
use std::fs::{self, Files};
use std::io::Read;
use std::process::ExitCode;
use std::sync::Wait;
use std::thread::Threads;

/// Does what the words of a command line ask for, over the files and the three streams. Then writes
/// the outcome's message, if it has one, and returns the exit status: 0, 1 or 2, as `show_outcome`
/// does. The first word is the program's name. If the words could not be taken from the system,
/// `words` has the fault, which is then the outcome. With `view` it waits for the viewers' threads.
/// None of the streams may have failed before.
pub fn run_command_line<
    R: Files + Threads + Wait + Sync,
    S: AsStr + Drop,
    I: Source,
    O: Sink,
    E: Sink,
>(
    rt: &R,
    alloc: Global,
    words: Result<Vec<S>, OptionsFault>,
    input: &mut I,
    output: &mut O,
    errors: &mut E,
) -> ExitCode
where
    R::File: Send,
    R::Dir: Send,
    requires input_works { I.has_failed input.old ≡ false }
    requires output_works { O.has_failed output.old ≡ false }
    requires errors_work { E.has_failed errors.old ≡ false }
    ensures performs { RunsCommandLine R.File.remaining R.File.contents S.text words (exit_status result)
        (devices I.Source O.Sink input.old input.new output.old output.new)
        (sink_stream E.Sink errors.old errors.new) }
{
    let outcome = follow_words(rt, alloc, words, input, output);
    show_outcome(alloc, &outcome, output, errors)
}

/// Does what the words of a command line ask for, and returns the outcome. The first word is the
/// program's name. If `words` is a fault, or the words give no options, the outcome is this fault or
/// that of `options`, and neither stream is used. With `view` it waits for the viewers' threads.
/// Neither stream may have failed before. If the outcome is `Shown`, the output has not failed.
pub fn follow_words<R: Files + Threads + Wait + Sync, S: AsStr + Drop, I: Source, O: Sink>(
    rt: &R,
    alloc: Global,
    words: Result<Vec<S>, OptionsFault>,
    input: &mut I,
    output: &mut O,
) -> Outcome
where
    R::File: Send,
    R::Dir: Send,
    requires input_works { I.has_failed input.old ≡ false }
    requires output_works { O.has_failed output.old ≡ false }
    ensures answers { FollowsWordsOrFault R.File.remaining R.File.contents S.text words
        (devices I.Source O.Sink input.old input.new output.old output.new) result }
    ensures shown { is_shown result ≡ true → O.has_failed output.new ≡ false }
{
    let words = words?;
    let asked = options(alloc, words.as_slice())?;
    Ok(follow_options(rt, alloc, asked, input, output))
}

/// Does what the options ask for. Returns the number of the script's lines, for `view` the number
/// of recorded calls, or for `view --live` how each viewer ended. Fails as `run_file`, `view_files`,
/// `view_files_live` or `resume_file` does. There must be 1 to 16 actors and, for `view`, 1 to 64
/// files. Neither stream may have failed before.
fn follow_options<R: Files + Threads + Wait + Sync, I: Source, O: Sink>(
    rt: &R,
    alloc: Global,
    asked: Options<'_>,
    input: &mut I,
    output: &mut O,
) -> Result<Done, ProgramFault>
where
    R::File: Send,
    R::Dir: Send,
    requires input_works { I.has_failed input.old ≡ false }
    requires output_works { O.has_failed output.old ≡ false }
    requires actors { AreInRange asked }
    ensures { FollowsOptions R.File.remaining R.File.contents asked.entry
        (devices I.Source O.Sink input.old input.new output.old output.new) result }
{
    match asked {
        Options::Run {
            file,
            actors,
            ring,
            trace,
        } => {
            let setup = Setup { actors, ring };
            counted(run_file(rt, alloc, file, input, output, setup, trace))
        }
        Options::View {
            files,
            actors,
            ring,
            start,
            live,
            history,
            trace,
        } => {
            let setup = Setup { actors, ring };
            let extras = ViewExtras { history, trace };
            let names = files.as_slice();
            if live {
                lived(view_files_live(rt, alloc, start, names, output, setup, extras))
            } else {
                recorded(view_files(rt, alloc, start, names, output, setup, extras))
            }
        }
        Options::Load { file, trace } => {
            counted(resume_file(rt, alloc, file, input, output, trace))
        }
    }
}

/// Returns what was done, from a number of lines.
fn counted(lines: Result<u64, ProgramFault>) -> Result<Done, ProgramFault>
    ensures { result ≡ counted lines }
{
    Ok(Done::Counted(lines?))
}

/// Returns what was done, from what viewers left.
fn recorded(left: Result<Left, ProgramFault>) -> Result<Done, ProgramFault>
    ensures { result ≡ recorded left }
{
    let left = left?;
    Ok(Done::Counted(left.history.len()))
}

/// Returns what was done, from how viewers ended that were there at once, and what they left.
fn lived(done: Result<(Vec<ViewerEnd>, Left), ProgramFault>) -> Result<Done, ProgramFault>
    ensures { result ≡ lived done }
{
    let (ends, _) = done?;
    Ok(Done::Lived(ends))
}

/// Runs the script of this name over the fresh world of this setup: the one on the input if the
/// name is `-`, else the one in the file of this name, without using the input. Writes its report
/// to the output and, if `trace` is set, the session's trace after it, and returns the number of
/// its lines. Fails with `Read` if the file can't be opened, with `NoMemory` if memory for the world
/// is refused, and neither stream is then used; or as `play` does. Neither may have failed before.
fn run_file<R: Files, I: Source, O: Sink>(
    rt: &R,
    alloc: Global,
    name: &str,
    input: &mut I,
    output: &mut O,
    setup: Setup,
    trace: bool,
) -> Result<u64, ProgramFault>
    requires input_works { I.has_failed input.old ≡ false }
    requires output_works { O.has_failed output.old ≡ false }
    ensures { RunsFile R.File.remaining name.now
        (fresh_state (ring_length setup.ring) setup.actors) trace
        (devices I.Source O.Sink input.old input.new output.old output.new) result }
{
    let file = open_script(rt, name)?;
    let mut book = fresh_book(alloc, setup)?;
    match file {
        None => play(alloc, input, output, &mut book, trace),
        Some(file) => play(alloc, &mut ReadSource::new(file), output, &mut book, trace),
    }
}

/// Opens the script of this name: no file if the name is `-`, which stands for the input. Fails
/// with `Read` if the file can't be opened.
fn open_script<R: Files>(rt: &R, name: &str) -> Result<Option<R::File>, ProgramFault>
    ensures { OpensScript name.now result }
{
    match name {
        "-" => Ok(None),
        _ => Ok(Some(open_file(rt, name)?)),
    }
}

/// Loads the trace in the file of this name, and runs the script on the input over its book. Writes
/// the script's report to the output and, if `trace` is set, the session's trace after it, and
/// returns the number of the script's lines. Fails as `load_file` does, and neither stream is then
/// used; or as `play` does. Neither may have failed before.
fn resume_file<R: Files, I: Source, O: Sink>(
    rt: &R,
    alloc: Global,
    name: &str,
    input: &mut I,
    output: &mut O,
    trace: bool,
) -> Result<u64, ProgramFault>
    requires input_works { I.has_failed input.old ≡ false }
    requires output_works { O.has_failed output.old ≡ false }
    ensures { ResumesFile R.File.remaining trace
        (devices I.Source O.Sink input.old input.new output.old output.new) result }
{
    let mut book = load_file(rt, alloc, name)?;
    play(alloc, input, output, &mut book, trace)
}

/// Runs the scripts in the files of these names over one book, each by its own viewer: the book of
/// the trace in the file `start` if there is one, which is loaded before any other file is opened,
/// else a fresh world's, which is made when all files are read. Writes to the output and returns
/// what `view_book` does. Fails as `load_file`, `fresh_book` or `read_files` does, and the output is
/// then not used; or as `view_book` does. There must be 1 to 64 names, and the output must not have
/// failed before.
fn view_files<R: Files + Threads + Wait + Sync, O: Sink>(
    rt: &R,
    alloc: Global,
    start: Option<&str>,
    names: &[&str],
    output: &mut O,
    setup: Setup,
    extras: ViewExtras,
) -> Result<Left, ProgramFault>
    requires output_works { O.has_failed output.old ≡ false }
    requires some_files { 1 ≤ length names.now }
    requires few_files { length names.now ≤ MOST_VIEWERS }
    ensures { ViewsFiles R.File.remaining start.entry (length names.now)
        (fresh_state (ring_length setup.ring) setup.actors) extras
        (sink_stream O.Sink output.old output.new) result }
{
    match start {
        None => {
            let scripts = read_files(rt, alloc, names)?;
            let book = fresh_book(alloc, setup)?;
            view_book(rt, alloc, scripts.as_slice(), output, book, extras)
        }
        Some(name) => {
            let loaded = load_file(rt, alloc, name)?;
            let texts = read_files(rt, alloc, names)?;
            view_book(rt, alloc, texts.as_slice(), output, loaded, extras)
        }
    }
}

/// Lets viewers work on one book at once, each reading one of these files as it comes, in a thread
/// of its own, and appending its replies to the file of that name with `.replies` behind it. The
/// book is that of the trace in the file `start` if there is one, which is loaded before any other
/// file is opened, else a fresh world's. When all viewers have ended, writes to the output what
/// `view_live` writes with these extras, and returns how each ended and what they left. Fails as
/// `opened_book` does or with `NoMemory`, and the output is then not used; or as `view_live` does.
/// There must be 1 to 64 names, and the output must not have failed before.
fn view_files_live<R: Files + Threads + Wait + Sync, O: Sink>(
    rt: &R,
    alloc: Global,
    start: Option<&str>,
    names: &[&str],
    output: &mut O,
    setup: Setup,
    extras: ViewExtras,
) -> Result<(Vec<ViewerEnd>, Left), ProgramFault>
where
    R::File: Send,
    R::Dir: Send,
    requires output_works { O.has_failed output.old ≡ false }
    requires some_files { 1 ≤ length names.now }
    requires few_files { length names.now ≤ MOST_VIEWERS }
    ensures { ViewsFilesLive R.File.remaining R.File.contents start.entry
        (map (λ name. name.now) names.now)
        (fresh_state (ring_length setup.ring) setup.actors) extras
        (sink_stream O.Sink output.old output.new) result }
{
    let book = opened_book(rt, alloc, start, setup)?;
    let Ok(terminals) = file_terminals(rt, alloc, names) else {
        return Err(ProgramFault::NoMemory);
    };
    view_live(rt, alloc, terminals, output, book, extras)
}

/// Returns the book of the trace in the file `start` if there is one, else one over a fresh world.
/// Fails as `load_file` or `fresh_book` does.
fn opened_book<R: Files>(
    rt: &R,
    alloc: Global,
    start: Option<&str>,
    setup: Setup,
) -> Result<AnyBook, ProgramFault>
    ensures { OpensBook R.File.remaining start.entry
        (fresh_state (ring_length setup.ring) setup.actors) result }
{
    match start {
        Some(name) => load_file(rt, alloc, name),
        None => fresh_book(alloc, setup),
    }
}

/// Loads the trace in the file of this name, and returns its book. Fails with `Read` if the file
/// can't be opened, as `read_whole_text` does, or as `load_book` does.
fn load_file<R: Files>(rt: &R, alloc: Global, name: &str) -> Result<AnyBook, ProgramFault>
    ensures { LoadsFile R.File.remaining result }
{
    let mut file = open_file(rt, name)?;
    let text = read_whole_text(alloc, &mut file)?;
    load_book(alloc, text.as_slice())
}

/// Opens and reads the files of these names, and returns their whole texts, in order. Fails with
/// `Read` if one can't be opened or read, and with `NoMemory` if memory is refused.
fn read_files<R: Files>(rt: &R, alloc: Global, names: &[&str]) -> Result<Vec<Vec<u8>>, ProgramFault>
    ensures ok { IfOk result (λ texts. vec_len texts ≡ length names.now) }
    ensures whole { IfOk result (λ texts. (files : List R.File) × (length files ≡ length names.now)
        × AreWholeTexts R.File.remaining files texts.items) }
    ensures err { IfErr result IsReadOrNoMemory }
{
    let mut texts = Vec::new(alloc);
    for name in names {
        let mut file = open_file(rt, name)?;
        let text = read_whole_text(alloc, &mut file)?;
        let Ok(()) = texts.push(text) else {
            return Err(ProgramFault::NoMemory);
        };
    }
    Ok(texts)
}

/// Opens the file of this name for reading. Fails with `Read` if it can't be opened.
fn open_file<R: Files>(rt: &R, name: &str) -> Result<R::File, ProgramFault>
    ensures { IfErr result (λ fault. fault ≡ ProgramFault.Read) }
{
    match fs::open(rt, name) {
        Ok(file) => Ok(file),
        Err(_) => Err(ProgramFault::Read),
    }
}
