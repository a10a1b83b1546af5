//! The command line, read by clap.
ghost use Rattle.std.specs.Prelude.{◌≡◌, ◌∷◌, IfOk, MatchResult, Some, None, codes, false, map};
ghost use Rattle.std.specs.String.{string_bytes};
ghost use Rattle.clap.specs.Words.{app_of, found_of, rows_of, rule_of};
ghost use Rattle.pam_top.specs.CommandLine.{matches_on, option_rule, pam_command, tool_rule};
ghost use Rattle.pam_top.specs.declared.words_fault.WordsFault.TheVariants as fault;

use crate::words_fault::WordsFault;
use clap::{Arg, ArgMatches, Command};
use std::alloc::{AllocError, Global};

// An option `--name` with one value.
fn option<'a>(alloc: Global, name: &'a str) -> Arg<'a>
    ensures rule { rule_of result ≡ option_rule name.now }
    ensures local { result.global ≡ false }
{
    Arg::new(alloc, name).long(name)
}

// The one place, which must be filled.
fn tool<'a>(alloc: Global) -> Arg<'a>
    ensures rule { rule_of result ≡ tool_rule }
    ensures local { result.global ≡ false }
{
    Arg::new(alloc, "tool").required(true)
}

// The command `pam`.
fn command<'a>(alloc: Global) -> Result<Command<'a>, AllocError>
    ensures { IfOk result (λ command. app_of command ≡ pam_command) }
{
    Command::new(alloc, "pam")
        .arg(option(alloc, "workers"))?
        .arg(option(alloc, "grain"))?
        .arg(option(alloc, "seed"))?
        .arg(option(alloc, "size"))?
        .arg(tool(alloc))
}

/// The program's name, and the words after it.
pub(crate) fn with_name<'a>(alloc: Global, words: &'a [String]) -> Result<Vec<&'a str>, AllocError>
    ensures { IfOk result (λ list. map (λ word. word.now) list.items ≡ codes "pam" ∷ map string_bytes words.now) }
{
    let mut list = Vec::with_capacity(alloc, words.len() + 1)?;
    list.push("pam")?;
    for word in words {
        list.push(word.as_str())?;
    }
    Ok(list)
}

/// What clap matches on the program's name and the words after it.
pub(crate) fn matches<'a>(alloc: Global, list: &'a [&'a str]) -> Result<ArgMatches<'a>, WordsFault>
    ensures { MatchResult result (λ m. matches_on (map (λ word. word.now) list.now) ≡ Some (rows_of (found_of m)))
        (λ e. e ≡ fault.Usage → matches_on (map (λ word. word.now) list.now) ≡ None) }
{
    let matches = command(alloc)?.try_get_matches_from(list)?;
    Ok(matches)
}
