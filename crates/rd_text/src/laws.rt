//! The law of the lines of several commands: the contract of a function that does nothing.

ghost use Rattle.std.specs.Prelude.{◌≡◌, List, Ok, flat_map, map};
ghost use Rattle.std.specs.List.{AllByRecursion, AllZip};
ghost use Rattle.rd_marks.specs.declared.commands.Command.{Command as SomeCommand};
ghost use Rattle.rd_text.specs.Calls.{command_text};
ghost use Rattle.rd_text.specs.Lines.{lines_of};
ghost use Rattle.rd_text.specs.Spelling.{Says, spelling};

/// The lines of commands, one after another, make a text whose lines are read as these commands, if
/// each by itself is.
pub fn lines_of_commands_say_them()
    ensures { (commands : List SomeCommand)
        → AllByRecursion (λ command. Says (spelling command) (Ok command)) commands
        → AllZip Says (lines_of (flat_map command_text commands)) (map Ok commands) }
{}
