//! The reading of the words by `clap`.
ghost use Rattle.std.specs.Prelude.{◌≡◌, ◌∷◌, None, Some, codes, false, map, string_bytes, IfOk, IsErrOf};
ghost use Rattle.std.specs.List.{list_any};
ghost use Rattle.clap.specs.Words.{app_of, found_of, rows_of, rule_of};
ghost use Rattle.graphite_words.specs.Words.{graphite_command, is_dashes, matches_in, option_rule};

use crate::fault::WordsFault;
use clap::{Arg, ArgAction, ArgMatches};
use std::alloc::{AllocError, Global};

/// Whether some word is `-` or `--` alone.
pub fn has_dashes(words: &[String]) -> bool
    ensures { result ≡ list_any is_dashes (map string_bytes words.now) }
{
    words.iter().any(|word| is_dashes(word.as_str()))
}

/// Whether a word is `-` or `--`.
fn is_dashes(word: &str) -> bool
    ensures { result ≡ is_dashes word.now }
{
    word == "-" || word == "--"
}

/// The line that is read: the name of the program, and the words after it.
pub fn line_of<'w>(alloc: Global, words: &'w [String]) -> Result<Vec<&'w str>, AllocError>
    ensures { IfOk result (λ line. map (λ word. word.now) line.items ≡ codes "graphite" ∷ map string_bytes words.now) }
{
    let mut line = Vec::new(alloc);
    line.push("graphite")?;
    for word in words {
        line.push(word.as_str())?;
    }
    Ok(line)
}

/// What is found in a line.
pub fn matches_in<'w>(alloc: Global, line: &'w [&'w str]) -> Result<ArgMatches<'w>, WordsFault>
    ensures found { IfOk result (λ matches. matches_in (map (λ word. word.now) line.now) ≡ Some (rows_of (found_of matches))) }
    ensures refused { IsErrOf result WordsFault.Refused → matches_in (map (λ word. word.now) line.now) ≡ None }
{
    let command = graphite_command(alloc)?;
    let matches = command.try_get_matches_from(line)?;
    Ok(matches)
}

/// The command that `clap` reads. Which options a program takes stands in the table of programs, so here
/// none is required.
fn graphite_command<'w>(alloc: Global) -> Result<clap::Command<'w>, AllocError>
    ensures { IfOk result (λ command. app_of command ≡ graphite_command) }
{
    let program = Arg::new(alloc, "program");
    clap::Command::new(alloc, "graphite")
        .arg(program)?
        .arg(option(alloc, "source"))?
        .arg(option(alloc, "target"))?
        .arg(option(alloc, "key"))?
        .arg(option(alloc, "from"))?
        .arg(option(alloc, "until"))?
        .arg(option(alloc, "steps"))?
        .arg(option(alloc, "report"))?
        .arg(option(alloc, "at"))?
        .arg(option(alloc, "path"))?
        .arg(option(alloc, "seed"))?
        .arg(option(alloc, "vertices"))?
        .arg(option(alloc, "edges"))?
        .arg(option(alloc, "horizon"))?
        .arg(option(alloc, "of"))
}

/// An option that takes one value.
fn option<'w>(alloc: Global, name: &'w str) -> Arg<'w>
    ensures rule { rule_of result ≡ option_rule name.entry.now }
    ensures local { result.global ≡ false }
{
    Arg::new(alloc, name).long(name).action(ArgAction::Set)
}
