//! The command line of the program, read by `clap`.
//!
//! The contracts describe the command that `clap` is given as a value of `clap`'s specification
//! (`program_app`). They say which options the words give by what this specification finds for the
//! command and the words: the rows of matches, or the kinds of fault. No argument is global: each
//! belongs to its own subcommand only.

ghost use Rattle.std.specs.Prelude.{◌≡◌, ◌≢◌, ℕ, IfOk, IfErr, IfSome, IsNone, Bool, Option, codes, is_some, map, option_map, false, true};
ghost use Rattle.clap.specs.Walk.{Text, first_of};
ghost use Rattle.clap.specs.Words.{app_of, found_of, kind_of, rows_of, rule_of, subcommand_rows_of};
ghost use Rattle.clap.specs.declared.builder.command.Command.TheViews.{out-Command};
ghost use Rattle.clap.specs.declared.error.kind.ErrorKind.TheVariants.{InvalidValue};
ghost use Rattle.rd_options.specs.Options.{IsRefusedOrNoMemory, AreInRange, SharesNoFile, flag_text, ring_text};
ghost use Rattle.rd_options.specs.CommandLine.{BothAreRingSizes, ValueNamesPair, AreRingSizes, GivesSubcommand, text_or_4, SpellsActors, GivesWorld, GivesStart, GivesFlag, GivesFileAndTrace, GivesRun, GivesView, GivesLoad, GivesOptions, GivesFault};
ghost use Rattle.rd_options.specs.CommandLine.{file_rule, files_rule, actors_rule, ring_rule, by_default_4, start_rule, flag_rule, run_app_without_trace, run_app, view_app_over_fresh_world, view_app, load_app, program_app};

use super::requests::{Options, OptionsFault};
use clap::error::ErrorKind;
use clap::{Arg, ArgAction, ArgMatches, Command, Error, value_parser};
use rd_cell::limits::MOST_ACTORS;
use rd_marks::Ring;
use rd_text::FORMS;
use std::alloc::{Alloc, AllocError, Global};
use std::convert::AsStr;
use std::env::{self, Env};
use std::io;

/// The version that `--version` shows.
const VERSION: &str = "0.2.0";

/// The numbers of cells that a ring may have, as the command line spells them.
static RINGS: [&str; 3] = ["2", "4", "8"];

/// The message for `view` with a trace to start with and an option of the fresh world.
const START_CONFLICT: &str = "--start can't be used with --actors or --ring";

/// Returns the options that the words of a command line give. The first word is the program's name.
///
/// # Errors
///
/// `Shown` if the words ask for help or for the version; `Refused` if `clap` finds a mistake in
/// them, or values that give no options, as `--start` with `--actors` or `--ring`; `TooManyFiles`
/// if `view` names more than 64 files; `SharedFile` if viewers of `view --live` would share one;
/// `NoMemory` if memory was refused.
pub fn options<'a, S: AsStr>(alloc: Global, words: &'a [S]) -> Result<Options<'a>, OptionsFault>
    ensures ok { IfOk result (GivesOptions (map S.text words.entry.now)) }
    ensures err { IfErr result (GivesFault (map S.text words.entry.now)) }
    ensures actors { IfOk result AreInRange }
    ensures apart { IfOk result SharesNoFile }
{
    let mut command = program_command(alloc)?;
    let matches = command.try_get_matches_from_mut(words)?;
    let Some(options) = options_from(alloc, &matches)? else {
        let error = command.error(ErrorKind::ArgumentConflict, START_CONFLICT)?;
        return Err(OptionsFault::Refused(error));
    };
    if options.has_too_many_files() {
        return Err(OptionsFault::TooManyFiles);
    }
    if options.shares_a_file() {
        return Err(OptionsFault::SharedFile);
    }
    Ok(options)
}

/// Returns the words of the program's command line. The first is the program's name.
///
/// # Errors
///
/// `NoMemory` if memory was refused; `Refused` if a word is not UTF-8.
pub fn command_line_words<R: Env + Alloc<A = Global>>(rt: &R) -> Result<Vec<String>, OptionsFault>
    ensures err { IfErr result (IsRefusedOrNoMemory InvalidValue) }
{
    let alloc = rt.alloc();
    match env::args(rt) {
        Ok(words) => words.collect(alloc).map_err(|_| OptionsFault::NoMemory),
        Err(error) if error.kind() == io::ErrorKind::OutOfMemory => Err(OptionsFault::NoMemory),
        Err(_) => Err(not_utf8_fault(alloc)),
    }
}

/// Returns the fault for a word that is not UTF-8: `Refused`, or `NoMemory` if memory for the error
/// is refused.
pub fn not_utf8_fault(alloc: Global) -> OptionsFault
    ensures { IsRefusedOrNoMemory InvalidValue result }
{
    match not_utf8_error(alloc) {
        Ok(error) => OptionsFault::Refused(error),
        Err(_) => OptionsFault::NoMemory,
    }
}

/// Returns `clap`'s error for a word that is not UTF-8. Fails only if memory is refused.
fn not_utf8_error(alloc: Global) -> Result<Error, AllocError>
    ensures { IfOk result (λ error. kind_of error ≡ InvalidValue) }
{
    let mut command = program_command(alloc)?;
    command.error(
        ErrorKind::InvalidValue,
        "invalid UTF-8 was detected in one or more arguments",
    )
}

/// Returns the options that the matches of the whole command give, or none if there is no
/// subcommand, or if a value is missing or not one that the program takes. There may be more than
/// 64 files. Fails only if memory is refused.
fn options_from<'a>(
    alloc: Global,
    matches: &ArgMatches<'a>,
) -> Result<Option<Options<'a>>, AllocError>
    ensures some { IfOk result (λ asked. IfSome asked
        (GivesSubcommand (subcommand_rows_of matches.now))) }
    ensures none { IfOk result (λ asked. IsNone asked → (o : Options)
        → GivesSubcommand (subcommand_rows_of matches.now) o → ⊥) }
{
    if let Some(run) = matches.subcommand_matches("run") {
        return Ok(run_options(run));
    }
    if let Some(view) = matches.subcommand_matches("view") {
        return view_options(alloc, view);
    }
    match matches.subcommand_matches("load") {
        Some(load) => Ok(load_options(load)),
        None => Ok(None),
    }
}

/// Returns the options from the matches of `run`, or none if a value is missing or not one that the
/// program takes.
fn run_options<'a>(run: &ArgMatches<'a>) -> Option<Options<'a>>
    ensures some { IfSome result (GivesRun (rows_of (found_of run.now))) }
    ensures none { IsNone result → (o : Options) → GivesRun (rows_of (found_of run.now)) o → ⊥ }
{
    let (file, trace) = file_and_trace(run)?;
    let (actors, ring) = actors_and_ring(run)?;
    Some(Options::Run {
        file,
        actors,
        ring,
        trace,
    })
}

/// Returns the options from the matches of `view`, or none if a value is missing or not one that
/// the program takes, if there is no file, or if `--start` comes with `--actors` or `--ring`. There
/// may be more than 64 files. Fails only if memory is refused.
fn view_options<'a>(alloc: Global, view: &ArgMatches<'a>) -> Result<Option<Options<'a>>, AllocError>
    ensures some { IfOk result (λ asked. IfSome asked (GivesView (rows_of (found_of view.now)))) }
    ensures none { IfOk result (λ asked. IsNone asked → (o : Options)
        → GivesView (rows_of (found_of view.now)) o → ⊥) }
{
    let Some(files) = view.get_strs("files") else {
        return Ok(None);
    };
    if files.is_empty() {
        return Ok(None);
    }
    let Some((actors, ring)) = actors_and_ring(view) else {
        return Ok(None);
    };
    let Some((start, live, history, trace)) = start_and_flags(view) else {
        return Ok(None);
    };
    let files = Vec::from_slice(alloc, files)?;
    Ok(Some(Options::View {
        files,
        actors,
        ring,
        start,
        live,
        history,
        trace,
    }))
}

/// Returns the name of the trace to start with, if there is one, and whether the viewers are there
/// at once, and the history and the trace are asked for, from the matches of `view`. Returns none
/// if `--start` comes with `--actors` or `--ring`, or if a flag's value is missing or not one that
/// the program takes.
fn start_and_flags<'a>(view: &ArgMatches<'a>) -> Option<(Option<&'a str>, bool, bool, bool)>
    ensures some { IfSome result (λ asked.
        GivesStart (rows_of (found_of view.now)) (option_map (λ name. name.now) asked.0)
        × GivesFlag (rows_of (found_of view.now)) (codes "live") asked.1
        × GivesFlag (rows_of (found_of view.now)) (codes "history") asked.2
        × GivesFlag (rows_of (found_of view.now)) (codes "trace") asked.3) }
    ensures none { IsNone result → (start : Option Text) (live history trace : Bool)
        → GivesStart (rows_of (found_of view.now)) start
        → GivesFlag (rows_of (found_of view.now)) (codes "live") live
        → GivesFlag (rows_of (found_of view.now)) (codes "history") history
        → GivesFlag (rows_of (found_of view.now)) (codes "trace") trace → ⊥ }
{
    if has_conflict(view) {
        return None;
    }
    let start = view.get_str("start");
    let live = flag(view, "live")?;
    let history = flag(view, "history")?;
    let trace = flag(view, "trace")?;
    Some((start, live, history, trace))
}

/// Returns whether the matches of `view` have a value for `--start` and one for `--actors` or
/// `--ring`.
fn has_conflict(view: &ArgMatches<'_>) -> bool
    ensures conflict { result ≡ true → (start : Option Text)
        → GivesStart (rows_of (found_of view.now)) start → ⊥ }
    ensures none { result ≡ false → GivesStart (rows_of (found_of view.now))
        (first_of (codes "start") (rows_of (found_of view.now))) }
{
    is_given(view, "start") && (is_given(view, "actors") || is_given(view, "ring"))
}

/// Returns whether the matches have a value for the argument of this name.
fn is_given(matches: &ArgMatches<'_>, name: &str) -> bool
    ensures { result ≡ is_some (first_of name.now (rows_of (found_of matches.now))) }
{
    matches.get_str(name).is_some()
}

/// Returns the number of actors, 1 to 16, and the ring from the matches of `run` or `view`, each 4
/// if its value is missing, or none if a value is not one that the program takes.
fn actors_and_ring<'a>(matches: &ArgMatches<'a>) -> Option<(u8, Ring)>
    ensures some { IfSome result (λ world.
        GivesWorld (rows_of (found_of matches.now)) world.0 world.1) }
    ensures none { IsNone result → (actors : ℕ) (ring : Ring)
        → GivesWorld (rows_of (found_of matches.now)) actors ring → ⊥ }
{
    let actors = parse_actors(text_or_4(matches, "actors"))?;
    let ring = parse_ring(text_or_4(matches, "ring"))?;
    Some((actors, ring))
}

/// Returns the value for the argument of this name, or `4` if it is missing.
fn text_or_4<'a>(matches: &ArgMatches<'a>, name: &str) -> &'a str
    ensures { result.now ≡ text_or_4 (rows_of (found_of matches.now)) name.now }
{
    matches.get_str(name).unwrap_or("4")
}

/// Returns the options from the matches of `load`, or none if a value is missing or not one that
/// the program takes.
fn load_options<'a>(load: &ArgMatches<'a>) -> Option<Options<'a>>
    ensures some { IfSome result (GivesLoad (rows_of (found_of load.now))) }
    ensures none { IsNone result → (o : Options) → GivesLoad (rows_of (found_of load.now)) o → ⊥ }
{
    let (file, trace) = file_and_trace(load)?;
    Some(Options::Load { file, trace })
}

/// Returns the file's name, and whether the trace is asked for, from the matches of `run` or
/// `load`, or none if a value is missing or not one that the program takes.
fn file_and_trace<'a>(matches: &ArgMatches<'a>) -> Option<(&'a str, bool)>
    ensures some { IfSome result (λ asked.
        GivesFileAndTrace (rows_of (found_of matches.now)) asked.0.now asked.1) }
    ensures none { IsNone result → (file : Text) (trace : Bool)
        → GivesFileAndTrace (rows_of (found_of matches.now)) file trace → ⊥ }
{
    let file = matches.get_str("file")?;
    let trace = flag(matches, "trace")?;
    Some((file, trace))
}

/// Returns whether the flag of this name is set, or none if its value is missing or not one that
/// `clap` keeps for a flag.
fn flag(matches: &ArgMatches<'_>, name: &str) -> Option<bool>
    ensures some { IfSome result (GivesFlag (rows_of (found_of matches.now)) name.now) }
    ensures none { IsNone result → (choice : Bool)
        → GivesFlag (rows_of (found_of matches.now)) name.now choice → ⊥ }
{
    parse_flag(matches.get_str(name)?)
}

/// Returns the number of actors that a text of the command line spells, 1 to 16, or none for any
/// other text.
fn parse_actors(text: &str) -> Option<u8>
    ensures some { IfSome result (SpellsActors text.now) }
    ensures none { IsNone result → (actors : ℕ) → SpellsActors text.now actors → ⊥ }
{
    let actors = text.parse::<u8>().ok()?;
    if 1 <= actors && usize::from(actors) <= MOST_ACTORS {
        Some(actors)
    } else {
        None
    }
}

/// Returns the ring that a text of the command line spells, `2`, `4` or `8`, or none for any other
/// text.
fn parse_ring(text: &str) -> Option<Ring>
    ensures some { IfSome result (λ ring. text.now ≡ ring_text ring) }
    ensures none { IsNone result → (ring : Ring) → text.now ≢ ring_text ring }
{
    match text {
        "2" => Some(Ring::Two),
        "4" => Some(Ring::Four),
        "8" => Some(Ring::Eight),
        _ => None,
    }
}

/// Returns whether a flag is set, by the text that `clap` keeps for it: `true` or `false`. Returns
/// none for any other text.
fn parse_flag(text: &str) -> Option<bool>
    ensures some { IfSome result (λ choice. text.now ≡ flag_text choice) }
    ensures none { IsNone result → (choice : Bool) → text.now ≢ flag_text choice }
{
    match text {
        "true" => Some(true),
        "false" => Some(false),
        _ => None,
    }
}

/// Returns the program's command for `clap`, with its subcommands. Fails only if memory is refused.
fn program_command<'a>(alloc: Global) -> Result<Command<'a>, AllocError>
    ensures { IfOk result (λ c. (names : ValueNamesPair) × BothAreRingSizes names
        × (app_of c ≡ program_app names)) }
{
    Command::new(alloc, "lcrqdb")
        .version(VERSION)
        .about("A causal reversible debugger for LCRQ")
        .subcommand_required(true)
        .subcommand(run_command(alloc)?)?
        .subcommand(view_command(alloc)?)?
        .subcommand(load_command(alloc)?)
}

/// Returns the subcommand `run` for `clap`, with all its arguments. Fails only if memory is
/// refused.
fn run_command<'a>(alloc: Global) -> Result<Command<'a>, AllocError>
    ensures app { IfOk result (λ c. (names : _) × AreRingSizes names × (app_of c ≡ run_app names)) }
    ensures local { IfOk result (λ c. (out-Command c).has_globals ≡ false) }
{
    run_command_without_trace(alloc)?.arg(trace_arg(alloc))
}

/// Returns the subcommand `run` for `clap`, with all its arguments but `--trace`. Fails only if
/// memory is refused.
fn run_command_without_trace<'a>(alloc: Global) -> Result<Command<'a>, AllocError>
    ensures app { IfOk result (λ c. (names : _) × AreRingSizes names
        × (app_of c ≡ run_app_without_trace names)) }
    ensures local { IfOk result (λ c. (out-Command c).has_globals ≡ false) }
{
    Command::new(alloc, "run")
        .about("Does the lines of a script and writes a reply to each")
        .after_help(FORMS)
        .arg(file_arg(alloc, "FILE").help("The script; - is standard input"))?
        .arg(run_actors_arg(alloc))?
        .arg(run_ring_arg(alloc))
}

/// Returns the subcommand `view` for `clap`, with all its arguments. Fails only if memory is
/// refused.
fn view_command<'a>(alloc: Global) -> Result<Command<'a>, AllocError>
    ensures app { IfOk result (λ c. (names : _) × AreRingSizes names × (app_of c
        ≡ view_app names)) }
    ensures local { IfOk result (λ c. (out-Command c).has_globals ≡ false) }
{
    view_command_over_fresh_world(alloc)?
        .arg(start_arg(alloc))?
        .arg(live_arg(alloc))?
        .arg(history_arg(alloc))?
        .arg(trace_arg(alloc))
}

/// Returns the subcommand `view` for `clap`, with its files and the options of the fresh world.
/// Fails only if memory is refused.
fn view_command_over_fresh_world<'a>(alloc: Global) -> Result<Command<'a>, AllocError>
    ensures app { IfOk result (λ c. (names : _) × AreRingSizes names × (app_of c
        ≡ view_app_over_fresh_world names)) }
    ensures local { IfOk result (λ c. (out-Command c).has_globals ≡ false) }
{
    Command::new(alloc, "view")
        .about("Does the lines of several scripts at once, each by a viewer of one world")
        .arg(files_arg(alloc))?
        .arg(actors_arg(alloc, "How many actors the world has, 1 to 16 [default: 4]"))?
        .arg(ring_arg(alloc, "How many cells each ring has [default: 4]"))
}

/// Returns the subcommand `load` for `clap`, with all its arguments. Fails only if memory is
/// refused.
fn load_command<'a>(alloc: Global) -> Result<Command<'a>, AllocError>
    ensures app { IfOk result (λ c. app_of c ≡ load_app) }
    ensures local { IfOk result (λ c. (out-Command c).has_globals ≡ false) }
{
    Command::new(alloc, "load")
        .about("Does the lines of standard input over the run of a trace")
        .after_help(FORMS)
        .arg(file_arg(alloc, "TRACE").help("A trace, as --trace writes it"))?
        .arg(trace_arg(alloc))
}

/// Returns the required argument `file`, the name of one file, for `clap`. Help shows it as `name`.
fn file_arg<'a>(alloc: Global, name: &'a str) -> Arg<'a>
    ensures { (rule_of result ≡ file_rule) × (result.global ≡ false) }
{
    Arg::new(alloc, "file").value_name(name).required(true)
}

/// Returns the argument `files` for `clap`: the names of the viewers' scripts, at least one.
fn files_arg<'a>(alloc: Global) -> Arg<'a>
    ensures { (rule_of result ≡ files_rule) × (result.global ≡ false) }
{
    Arg::new(alloc, "files")
        .value_name("FILE")
        .num_args(1..)
        .required(true)
        .help("The scripts of the viewers, 1 to 64")
}

/// Returns the option `--start` for `clap`: the name of a trace's file.
fn start_arg<'a>(alloc: Global) -> Arg<'a>
    ensures { (rule_of result ≡ start_rule) × (result.global ≡ false) }
{
    Arg::new(alloc, "start")
        .long("start")
        .value_name("TRACE")
        .help("The trace whose session the viewers go on with, in place of a fresh world")
}

/// Returns the flag `--live` for `clap`.
fn live_arg<'a>(alloc: Global) -> Arg<'a>
    ensures { (rule_of result ≡ flag_rule (codes "live")) × (result.global ≡ false) }
{
    flag_arg(
        alloc,
        "live",
        "Reads each FILE as it comes, and appends each reply to FILE.replies at once",
    )
}

/// Returns the flag `--history` for `clap`.
fn history_arg<'a>(alloc: Global) -> Arg<'a>
    ensures { (rule_of result ≡ flag_rule (codes "history")) × (result.global ≡ false) }
{
    flag_arg(
        alloc,
        "history",
        "Writes the recorded calls behind their number",
    )
}

/// Returns the flag `--trace` for `clap`.
fn trace_arg<'a>(alloc: Global) -> Arg<'a>
    ensures { (rule_of result ≡ flag_rule (codes "trace")) × (result.global ≡ false) }
{
    flag_arg(
        alloc,
        "trace",
        "Writes the trace of the run behind its report",
    )
}

/// Returns the flag of this name for `clap`, which takes no value.
fn flag_arg<'a>(alloc: Global, name: &'a str, help: &'a str) -> Arg<'a>
    ensures { (rule_of result ≡ flag_rule name.now) × (result.global ≡ false) }
{
    Arg::new(alloc, name)
        .long(name)
        .action(ArgAction::SetTrue)
        .help(help)
}

/// Returns the option `--actors` of `run` for `clap`: a number from 1 to 16, by default 4.
fn run_actors_arg<'a>(alloc: Global) -> Arg<'a>
    ensures { (rule_of result ≡ by_default_4 actors_rule) × (result.global ≡ false) }
{
    actors_arg(alloc, "How many actors the world has, 1 to 16").default_value("4")
}

/// Returns the option `--actors` for `clap`, a number from 1 to 16, with this help.
fn actors_arg<'a>(alloc: Global, help: &'a str) -> Arg<'a>
    ensures { (rule_of result ≡ actors_rule) × (result.global ≡ false) }
{
    Arg::new(alloc, "actors")
        .long("actors")
        .value_name("COUNT")
        .value_parser(value_parser!(u8).range(1..=MOST_ACTORS as i64))
        .help(help)
}

/// Returns the option `--ring` of `run` for `clap`: 2, 4 or 8, by default 4.
fn run_ring_arg<'a>(alloc: Global) -> Arg<'a>
    ensures rule { (names : _) × AreRingSizes names × (rule_of result
        ≡ by_default_4 (ring_rule names)) }
    ensures local { result.global ≡ false }
{
    ring_arg(alloc, "How many cells each ring has").default_value("4")
}

/// Returns the option `--ring` for `clap`, which is 2, 4 or 8, with this help.
fn ring_arg<'a>(alloc: Global, help: &'a str) -> Arg<'a>
    ensures rule { (names : _) × AreRingSizes names × (rule_of result ≡ ring_rule names) }
    ensures local { result.global ≡ false }
{
    Arg::new(alloc, "ring")
        .long("ring")
        .value_name("CELLS")
        .value_parser(RINGS.as_slice())
        .help(help)
}
