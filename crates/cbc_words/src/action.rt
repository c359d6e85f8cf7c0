ghost use Rattle.std.specs.Prelude.{◌≡◌};
ghost use Rattle.cbc_words.specs.Actions as spec;

use crate::number::small_number;
use eb_names::{Name, Names};

/// What the program is asked to do, with what the action takes. No list of files is empty.
#[derive(Debug, Drop)]
pub enum Action {
    /// Answer the queries of the model that the files are together.
    Solve { files: Names },
    /// Check a refutation tree against the query of the model.
    Check { files: Names, tree: Name },
    /// Find a test for each goal of the model.
    Cover { files: Names },
    /// Check a test against the model.
    Replay { files: Names, test: Name },
    /// Make the model of this number, of 1,000,000 at most, and answer its queries.
    Gen { number: u32 },
}

/// What the words of a command line ask for.
#[derive(Debug, Drop)]
pub struct Command {
    pub action: Action,
    /// How many splits the search for one answer takes at most: 1,000,000 or fewer.
    pub budget: u64,
    /// Whether tests are printed as JSON.
    pub json: bool,
}

/// The files of REST, where there is at least one.
fn some_files(rest: Names) -> Option<Names>
    ensures { result ≡ spec.some_files rest }
{
    if rest.is_empty() {
        return None;
    }
    Some(rest)
}

/// The files of REST and the word behind them, where there is at least one file.
fn files_and_last(rest: Names) -> Option<(Names, Name)>
    ensures { result ≡ spec.files_and_last rest }
{
    let mut files = rest;
    let last = files.pop()?;
    let files = some_files(files)?;
    Some((files, last))
}

/// The number of REST, where there is nothing else.
fn only_number(rest: &Names) -> Option<u32>
    ensures { result ≡ spec.only_number rest.now }
{
    match rest.as_slice() {
        [text] => small_number(text.as_str()),
        _ => None,
    }
}

/// The action that ACTION names, with what it takes of REST.
pub(crate) fn action_of(word: &str, rest: Names) -> Option<Action>
    ensures { result ≡ spec.action_of word.now rest }
{
    if word == "solve" {
        let files = some_files(rest)?;
        Some(Action::Solve { files })
    } else if word == "check" {
        let (files, tree) = files_and_last(rest)?;
        Some(Action::Check { files, tree })
    } else if word == "cover" {
        let files = some_files(rest)?;
        Some(Action::Cover { files })
    } else if word == "replay" {
        let (files, test) = files_and_last(rest)?;
        Some(Action::Replay { files, test })
    } else if word == "gen" {
        let number = only_number(&rest)?;
        Some(Action::Gen { number })
    } else {
        None
    }
}
