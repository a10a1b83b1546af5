//! What lawful words ask for.
ghost use Rattle.std.specs.Prelude.{◌≡◌, ◌≤◌, IfOk, IfSome, MatchResult, Some, None, map, option_map};
ghost use Rattle.std.specs.String.{string_bytes};
ghost use Rattle.clap.specs.Words.{first_of, found_of, rows_of};
ghost use Rattle.pam_top.specs.Settings.{IsInRange, between, settings_from, settings_of, tool_named, value_in};
ghost use Rattle.pam_top.specs.declared.words_fault.WordsFault.TheVariants as fault;

use crate::command_line::{matches, with_name};
use crate::words_fault::WordsFault;
use clap::ArgMatches;
use script::number;
use std::alloc::Global;
use tool_input::Tool;

/// What the words ask for.
#[derive(Clone, Copy, Debug, PartialEq, Eq)]
pub(crate) struct Settings {
    pub tool: Tool,
    pub workers: u32,
    pub grain: u64,
    pub seed: u64,
    pub size: u64,
}

// The tool with this name.
fn tool_of(name: &str) -> Option<Tool>
    ensures { result ≡ tool_named name.now }
{
    match name {
        "map" => Some(Tool::Map),
        "seq" => Some(Tool::Seq),
        "interval" => Some(Tool::Interval),
        "points" => Some(Tool::Points),
        "index" => Some(Tool::Index),
        "graph" => Some(Tool::Graph),
        "serve" => Some(Tool::Serve),
        "gserve" => Some(Tool::Gserve),
        "check" => Some(Tool::Check),
        "sample" => Some(Tool::Sample),
        _ => None,
    }
}

// The text that is given for a name.
fn text_of<'a>(matches: &ArgMatches<'a>, name: &str) -> Option<&'a str>
    ensures { option_map (λ text. text.now) result ≡ first_of name.now (rows_of (found_of matches.now)) }
{
    matches.get_str(name)
}

fn in_range(number: u64, least: u64, most: u64) -> Option<u64>
    ensures { result ≡ between least most number }
{
    if number < least || most < number {
        return None;
    }
    Some(number)
}

// The value of an option with this text.
fn value_of(text: Option<&str>, default: u64, least: u64, most: u64) -> Option<u64>
    ensures exact { result ≡ value_in default least most (option_map (λ text. text.now) text.entry) }
    ensures range { least ≤ default → default ≤ most → IfSome result (λ value. (least ≤ value) × (value ≤ most)) }
{
    match text {
        None => Some(default),
        Some(text) => in_range(number(text.as_bytes())?, least, most),
    }
}

// The settings that the matches give, where all that is given is lawful.
fn settings_in(matches: &ArgMatches<'_>) -> Option<Settings>
    ensures exact { result ≡ settings_from (rows_of (found_of matches.now)) }
    ensures range { IfSome result IsInRange }
{
    let tool = tool_of(text_of(matches, "tool")?)?;
    let workers = value_of(text_of(matches, "workers"), 4, 1, 64)? as u32;
    let grain = value_of(text_of(matches, "grain"), 1024, 1, 4294967296)?;
    let seed = value_of(text_of(matches, "seed"), 1, 0, u64::MAX)?;
    let size = value_of(text_of(matches, "size"), 100000, 1, 1000000)?;
    Some(Settings {
        tool,
        workers,
        grain,
        seed,
        size,
    })
}

/// What the words after the program's name ask for, where they are lawful.
#[tactic(auto, unfolding(crate::specs::Settings::settings_of))]
pub(crate) fn read_words(alloc: Global, words: &[String]) -> Result<Settings, WordsFault>
    ensures exact { MatchResult result (λ s. settings_of (map string_bytes words.now) ≡ Some s)
        (λ e. e ≡ fault.Usage → settings_of (map string_bytes words.now) ≡ None) }
    ensures range { IfOk result IsInRange }
{
    let list = with_name(alloc, words)?;
    let matches = matches(alloc, &list)?;
    settings_in(&matches).ok_or(WordsFault::Usage)
}
