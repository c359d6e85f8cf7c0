//! What holds of the words of any command line, for callers to cite.

ghost use Rattle.std.specs.Prelude.{◌≡◌, ◌↔◌, ℕ, List, Some, None};
ghost use Rattle.cbc_words.specs.declared.action.Command.{Command};
ghost use Rattle.cbc_words.specs.Words as spec;

/// Words are a command, and which, as the table of actions says: exactly where clap takes them, the table has a row for
/// ACTION and REST, and the text behind `--budget` is a number of 1,000,000 at most. So they are one command at most.
pub fn commands_are_those_of_the_table()
    ensures { (words : List (List ℕ)) (command : Command)
        → (spec.command_of words ≡ Some command) ↔ spec.IsCommand words command }
{}

/// Words are no command exactly where clap refuses them, ACTION is unknown, REST has the wrong number of words or not
/// the number that `gen` takes, or the text behind `--budget` is no number of 1,000,000 at most.
pub fn refusals_have_a_cause()
    ensures { (words : List (List ℕ)) → (spec.command_of words ≡ None) ↔ spec.IsRefused words }
{}
