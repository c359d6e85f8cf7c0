//! What clap found in words.
ghost use Rattle.std.specs.Prelude.{◌≡◌, IfOk, map, option_map};
ghost use Rattle.clap.specs.Words.{all_of, first_of, found_of, rows_of};
ghost use Rattle.cbc_words.specs.Actions.{budget_of};
ghost use Rattle.cbc_words.specs.Words as spec;

use crate::action::{Command, action_of};
use crate::number::small_number;
use clap::ArgMatches;
use eb_names::{Name, Names};
use std::alloc::{AllocError, Global};

/// The number of splits where the words give none.
const DEFAULT_BUDGET: u64 = 100_000;

/// The first value of the argument.
fn first_of<'a>(matches: &ArgMatches<'a>, id: &str) -> Option<&'a str>
    ensures { option_map (λ s. s.now) result ≡ first_of id.now (rows_of (found_of matches.now)) }
{
    matches.get_str(id)
}

/// The values of the argument.
fn all_of<'m, 'a>(matches: &'m ArgMatches<'a>, id: &str) -> Option<&'m [&'a str]>
    ensures { option_map (λ s. map (λ v. v.now) s.now) result ≡ all_of id.now (rows_of (found_of matches.now)) }
{
    matches.get_strs(id)
}

/// The words as names. The only error is want of memory.
fn names_of(alloc: Global, words: &[&str]) -> Result<Names, AllocError>
    ensures { IfOk result (λ names. names ≡ map (λ w. w.now) words.now) }
{
    let mut names = Names::new(alloc);
    for word in words {
        names.push(Name::new(alloc, word)?)?;
    }
    Ok(names)
}

/// The word of ACTION.
fn action_word<'a>(matches: &ArgMatches<'a>) -> &'a str
    ensures { result.now ≡ spec.action_word (rows_of (found_of matches.now)) }
{
    match first_of(matches, "ACTION") {
        Some(word) => word,
        None => "",
    }
}

/// The words of REST. The only error is want of memory.
fn rest_words(alloc: Global, matches: &ArgMatches<'_>) -> Result<Names, AllocError>
    ensures { IfOk result (λ rest. rest ≡ spec.rest_words (rows_of (found_of matches.now))) }
{
    match all_of(matches, "REST") {
        Some(words) => names_of(alloc, words),
        None => Ok(Names::new(alloc)),
    }
}

/// The budget, where its text is in form.
fn budget_in(matches: &ArgMatches<'_>) -> Option<u64>
    ensures { result ≡ budget_of (spec.budget_text (rows_of (found_of matches.now))) }
{
    match first_of(matches, "budget") {
        Some(text) => {
            let number = small_number(text)?;
            Some(u64::from(number))
        }
        None => Some(DEFAULT_BUDGET),
    }
}

/// Whether `--json` stands among the words.
fn is_json(matches: &ArgMatches<'_>) -> bool
    ensures { result ≡ spec.is_json (rows_of (found_of matches.now)) }
{
    match first_of(matches, "json") {
        Some(text) => text == "true",
        None => false,
    }
}

/// The command of words that clap took, where there is one. The only error is want of memory.
pub(crate) fn command_in(
    alloc: Global,
    matches: &ArgMatches<'_>,
) -> Result<Option<Command>, AllocError>
    ensures { IfOk result (λ command. command ≡ spec.command_in (rows_of (found_of matches.now))) }
{
    let rest = rest_words(alloc, matches)?;
    let Some(action) = action_of(action_word(matches), rest) else {
        return Ok(None);
    };
    let Some(budget) = budget_in(matches) else {
        return Ok(None);
    };
    let json = is_json(matches);
    Ok(Some(Command {
        action,
        budget,
        json,
    }))
}
