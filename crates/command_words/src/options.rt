// The options behind a command's word, as `clap` reads them.
ghost use Rattle.std.specs.Prelude.{◌≡◌, List, codes, Err, Some, None, true, IfOk, IsTrue, map, string_bytes};
ghost use Rattle.std.specs.Str.{bytes_eq};
ghost use Rattle.std.specs.List.{list_any, list_all};
ghost use Rattle.ply_head.specs.Numbers.{are_digits, value};
ghost use Rattle.clap.specs.Words.{app_of, first_value, found_of};
ghost use Rattle.command_words.specs.declared.jobs.WordsFault.TheVariants.{Usage, Memory};
ghost use Rattle.command_words.specs.Words.{Given, are_options, given_in, is_named};
ghost use Rattle.command_words.specs.Parses.{TellsOptions, number_in, option_number, options_app, setting_of};

use crate::jobs::WordsFault;
use clap::error::ErrorKind;
use clap::{Arg, ArgAction, ArgMatches, Command};
use ply_head::{are_all_digits, digits_value};
use std::alloc::{AllocError, Global};

/// An option of a command: its name without the dashes, the least and the greatest number that it takes, and whether it
/// must be there.
#[derive(Clone, Copy)]
pub struct Setting {
    pub name: &'static str,
    pub least: u32,
    pub greatest: u32,
    pub is_required: bool,
}

/// The options that the words behind a command spell, by these settings of the command.
pub fn take_options<'a>(
    alloc: Global,
    settings: &[Setting],
    words: &'a [String],
) -> Result<ArgMatches<'a>, WordsFault>
    requires named { IsTrue (list_all is_named (map (λ s. s.name.now) settings.now)) }
    ensures ok { IfOk result (λ m. TellsOptions (map setting_of settings.now) (map string_bytes words.now) m) }
    ensures usage { result ≡ Err Usage → (gs : List Given) → given_in (map string_bytes words.now) ≡ Some gs
        → ¬ (are_options (map setting_of settings.now) gs ≡ true) }
{
    if has_dashes_alone(words) {
        return Err(WordsFault::Usage);
    }
    let command = command_of(alloc, settings)?;
    match command.try_get_matches_from(words) {
        Ok(matches) => Ok(matches),
        Err(error) => Err(fault_of(error.kind())),
    }
}

// `clap` would pass over the word `--`.
fn has_dashes_alone(words: &[String]) -> bool
    ensures { result ≡ list_any (λ word. bytes_eq (string_bytes word) (codes "--")) words.now }
{
    words.iter().any(|word| word.as_str() == "--")
}

// A command with these options alone. Its name would stand in messages of `clap`, and none is shown.
fn command_of<'a>(alloc: Global, settings: &[Setting]) -> Result<Command<'a>, AllocError>
    ensures { IfOk result (λ c. app_of c ≡ options_app (codes "tpz") (map (λ s. s.name.now) settings.now)) }
{
    let mut command = Command::new(alloc, "tpz")
        .no_binary_name(true)
        .disable_help_flag(true)
        .disable_version_flag(true);
    for setting in settings {
        let arg = Arg::new(alloc, setting.name)
            .long(setting.name)
            .action(ArgAction::Set);
        command = command.arg(arg)?;
    }
    Ok(command)
}

fn fault_of(kind: ErrorKind) -> WordsFault
    ensures { kind ≡ ErrorKind.OutOfMemory → result ≡ Memory }
{
    match kind {
        ErrorKind::OutOfMemory => WordsFault::Memory,
        _ => WordsFault::Usage,
    }
}

/// The number of an option, if it is given.
pub fn option_number(matches: &ArgMatches<'_>, setting: &Setting) -> Result<Option<u32>, WordsFault>
    ensures value { result ≡ option_number (setting_of setting.now) (first_value (found_of matches.now) setting.now.name.now) }
{
    match matches.get_str(setting.name) {
        Some(text) => match number_in(text.as_bytes(), setting) {
            Some(number) => Ok(Some(number)),
            None => Err(WordsFault::Usage),
        },
        None if setting.is_required => Err(WordsFault::Usage),
        None => Ok(None),
    }
}

// The number that 1 to 10 digits write, if it is in the range.
fn number_in(text: &[u8], setting: &Setting) -> Option<u32>
    ensures { result ≡ number_in (setting_of setting.now) text.now }
{
    if !are_digits(text) {
        return None;
    }
    let number = digits_value(text);
    if u64::from(setting.least) <= number && number <= u64::from(setting.greatest) {
        Some(number as u32)
    } else {
        None
    }
}

// 1 to 10 digits, and nothing else.
fn are_digits(text: &[u8]) -> bool
    ensures { result ≡ are_digits 1 10 text.now }
{
    are_all_digits(text) && !text.is_empty() && text.len() <= 10
}
