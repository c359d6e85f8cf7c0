use cbc_words::{Action, Command, WordsFault, command};
use eb_names::{Name, Names};
use std::alloc::{AllocError, Global};
use std::test::Fail;

/// The words that blanks part, and what is taken of them that a run doesn't show: the number of `gen`, the files of `cover` and the
/// files and the test of `replay`, the budget and `json`.
const COMMANDS: &str = "
gen 0 -> gen 0 100000
gen 7 -> gen 7 100000
gen 007 -> gen 7 100000
gen 1000000 -> gen 1000000 100000
gen 0001000000 -> gen 1000000 100000
gen 7 --budget 0 -> gen 7 0
cover f -> cover f, 100000
cover f g -> cover f,g, 100000
replay f t -> replay f, t 100000
replay f g t -> replay f,g, t 100000
solve f --budget 1000000 -> solve f, 1000000
cover f --json -> cover f, 100000 json
--json cover f -> cover f, 100000 json
cover --json f -> cover f, 100000 json
--json --budget 5 check f t -> check f, t 5 json
solve --json -- --json -> solve --json, 100000 json
";

fn names_of(alloc: Global, line: &str) -> Result<Names, AllocError> {
    let mut names = Names::new(alloc);
    for word in line.split(' ') {
        names.push(Name::new(alloc, word)?)?;
    }
    Ok(names)
}

fn shown_files(alloc: Global, files: &Names) -> Result<String, AllocError> {
    let mut shown = String::new(alloc);
    for file in files.as_slice() {
        shown.push_str(file.as_str())?;
        shown.push(',')?;
    }
    Ok(shown)
}

/// The action with its parts, each file followed by a comma.
fn shown_action(alloc: Global, action: &Action) -> Result<String, AllocError> {
    let (word, files, last) = match action {
        Action::Gen { number } => return format!(in alloc; "gen {number}"),
        Action::Solve { files } => ("solve", files, ""),
        Action::Cover { files } => ("cover", files, ""),
        Action::Check { files, tree } => ("check", files, tree.as_str()),
        Action::Replay { files, test } => ("replay", files, test.as_str()),
    };
    let files = shown_files(alloc, files)?;
    let blank = if last.is_empty() { "" } else { " " };
    format!(in alloc; "{word} {files}{blank}{last}")
}

/// The action, then the budget, then `json` if that is set.
fn shown(alloc: Global, line: &str) -> Result<String, AllocError> {
    let words = names_of(alloc, line)?;
    match command(alloc, words.as_slice()) {
        Ok(
            Command {
                action,
                budget,
                json,
            },
        ) => {
            let action = shown_action(alloc, &action)?;
            let json = if json { " json" } else { "" };
            format!(in alloc; "{action} {budget}{json}")
        }
        Err(WordsFault::Words) => String::from_str(alloc, "refused"),
        Err(WordsFault::Memory) => Err(AllocError),
    }
}

#[test]
fn commands_have_their_parts(rt: HostRuntime) -> Result<(), Fail> {
    let alloc = rt.alloc();
    let mut count = 0u64;
    for row in COMMANDS.lines() {
        if let Some((line, want)) = row.split_once(" -> ") {
            assert_eq!(rt; shown(alloc, line)?.as_str(), want, "{line}");
            count = count.saturating_add(1);
        }
    }
    assert_eq!(rt; count, 16);
    Ok(())
}
