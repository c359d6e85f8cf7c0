ghost use Rattle.std.specs.Prelude.{◌≡◌, IfOk, Some, None, map};
ghost use Rattle.cbc_words.specs.Words as spec;

use crate::action::Command;
use crate::fault::WordsFault;
use crate::matched::command_in;
use crate::simple::simple_command;
use clap::error::ErrorKind;
use eb_names::Name;
use std::alloc::{AllocError, Global};

/// The texts of the words. The only error is want of memory.
fn texts_of<'a>(alloc: Global, words: &'a [Name]) -> Result<Vec<&'a str>, AllocError>
    ensures { IfOk result (λ texts. map (λ t. t.now) texts.items ≡ words.now) }
{
    let mut texts = Vec::new(alloc);
    for word in words {
        texts.push(word.as_str())?;
    }
    Ok(texts)
}

/// The command that the words are, where they are one. The only error is want of memory.
#[tactic(auto, unfolding(crate::specs::Words::command_of))]
fn found_command(alloc: Global, words: &[&str]) -> Result<Option<Command>, AllocError>
    ensures { IfOk result (λ command. command ≡ spec.command_of (map (λ w. w.now) words.now)) }
{
    let simple = simple_command(alloc)?;
    match simple.try_get_matches_from(words) {
        Ok(matches) => command_in(alloc, &matches),
        Err(error) => {
            if error.kind() == ErrorKind::OutOfMemory {
                return Err(AllocError);
            }
            Ok(None)
        }
    }
}

/// The command that the words of a command line are, which are those behind the program's name.
///
/// clap reads them: one word ACTION, one or more words REST, and in any place, each once at most, `--budget N` and
/// `--json`. Behind a word `--` each word is taken as it stands, so files may begin with `-`. ACTION says what REST is:
/// `solve` and `cover` take one file or more; `check` one or more and then that of a tree; `replay` one or more and then
/// that of a test; `gen` a number. Numbers are one or more ASCII digits, also with zeros in front, and 1,000,000 at most.
/// N counts splits, 100,000 where it isn't given.
///
/// Errors: Words exactly where clap refuses the words, a request for help or the version among them, or ACTION is unknown,
/// or REST isn't what the action takes, or N is out of form; Memory only where memory ran out.
pub fn command(alloc: Global, words: &[Name]) -> Result<Command, WordsFault>
    ensures read { IfOk result (λ command. spec.command_of words.now ≡ Some command) }
    ensures refused { result ≡ Err WordsFault.Words → spec.command_of words.now ≡ None }
    ensures cause { result ≡ Err WordsFault.Words → spec.IsRefused words.now }
{
    let texts = texts_of(alloc, words)?;
    match found_command(alloc, texts.as_slice())? {
        Some(command) => Ok(command),
        None => Err(WordsFault::Words),
    }
}
