ghost use Rattle.std.specs.Prelude.{◌≡◌, ◌↔◌, ℕ, List, [], IfOk, IfSome, IfNone, IsSomeAnd, IsTrue, Some, false, map, string_bytes};
ghost use Rattle.std.specs.List.{list_any};
ghost use Rattle.std.specs.Str.{bytes_eq};
ghost use Rattle.clap.specs.Words.{app_of, kind_of, with_rule};
ghost use Rattle.command_line.specs.Words.{Setting as Asked, Gives, IsValue, texts};
ghost use Rattle.command_line.specs.Options.{AreRead, app_with, are_names, dashes, name_of, option_rule, setting_of, text_of};

use crate::OutOfMemory;
use crate::setting::Setting;
use clap::error::ErrorKind;
use clap::{Arg, ArgMatches, Command, Error};
use std::alloc::{AllocError, Global};

/// What was found for the options, if the words give each of them once, and are nothing else.
pub(crate) fn matches_of<'a>(
    alloc: Global,
    settings: &[Setting<'a>],
    words: &'a [String],
) -> Result<Option<ArgMatches<'a>>, OutOfMemory>
    requires { IsTrue (are_names (map name_of settings.now)) }
    ensures read { IfOk result (λ found. IfSome found (λ matches. (given : List (Asked × ℕ))
        → map (λ g. g.0) given ≡ map setting_of settings.now → AreRead matches given
        → Gives given (texts words.entry.now))) }
    ensures every { (given : List (Asked × ℕ))
        → map (λ g. g.0) given ≡ map setting_of settings.now
        → Gives given (texts words.entry.now)
        → IfOk result (λ found. IsSomeAnd found (λ matches. AreRead matches given)) }
{
    // clap takes all that follows for values.
    if has_dashes(words) {
        return Ok(None);
    }
    let program = program_with(alloc, settings)?;
    match program.try_get_matches_from(words) {
        Ok(matches) => Ok(Some(matches)),
        Err(error) => {
            if is_out_of_memory(&error) {
                return Err(AllocError);
            }
            Ok(None)
        }
    }
}

fn has_dashes(words: &[String]) -> bool
    ensures { result ≡ list_any (λ word. bytes_eq (string_bytes word) dashes) words.now }
{
    words.iter().any(|word| word.as_str() == "--")
}

fn is_out_of_memory(error: &Error) -> bool
    ensures { IsTrue result ↔ (kind_of error.now ≡ ErrorKind.OutOfMemory) }
{
    matches!(error.kind(), ErrorKind::OutOfMemory)
}

// A program with these options and nothing else.
fn program_with<'a>(alloc: Global, settings: &[Setting<'a>]) -> Result<Command<'a>, OutOfMemory>
    ensures { IfOk result (λ program. app_of program ≡ app_with (map name_of settings.now)) }
{
    let mut program = bare_program(alloc);
    for setting in settings {
        program = with_option(alloc, program, setting.name)?;
    }
    Ok(program)
}

fn bare_program<'a>(alloc: Global) -> Command<'a>
    ensures { app_of result ≡ app_with [] }
{
    Command::new(alloc, "dnsreplay")
        .no_binary_name(true)
        .disable_help_flag(true)
        .disable_version_flag(true)
}

fn with_option<'a>(
    alloc: Global,
    program: Command<'a>,
    name: &'a str,
) -> Result<Command<'a>, OutOfMemory>
    ensures { IfOk result (λ r. app_of r
        ≡ with_rule (app_of program.entry) (option_rule name.entry.now)) }
{
    program.arg(Arg::new(alloc, name).long(name).required(true))
}

/// The value that was found for the option, if its text spells one.
pub(crate) fn value_in(matches: &ArgMatches<'_>, setting: &Setting<'_>) -> Option<u32>
    ensures read { IfSome result (IsValue (setting_of setting.now)
        (text_of matches.now (setting_of setting.now))) }
    ensures none { IfNone result ((value : ℕ) → IsValue (setting_of setting.now)
        (text_of matches.now (setting_of setting.now)) value → ⊥) }
{
    let Some(text) = matches.get_str(setting.name) else {
        return None;
    };
    setting.value_of(text)
}
