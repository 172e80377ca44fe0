// The jobs that the words of the command line ask for.
ghost use Rattle.std.specs.Prelude.{◌≡◌, ◌≤◌, ◌↔◌, ◌∷◌, IsTrue, Err, None, Some, List, IfOk, IfSome, map, string_bytes};
ghost use Rattle.tpz_base.specs.Texts.{Bytes};
ghost use Rattle.command_words.specs.declared.jobs.WordsFault.TheVariants.{Usage, Memory};
ghost use Rattle.command_words.specs.Words.{Given, Spell, asked, build, finest, gen, given_in, info, job_with, replay, tour};

use crate::options::{Setting, option_number, take_options};
use std::alloc::{AllocError, Global};

/// What a command is to do, with the values of its options.
#[derive(Clone, Copy, PartialEq, Eq, Debug)]
pub enum Job {
    /// `finest`: the digits behind the point that count, if they are given, and the most triangles of a tetrahedron that
    /// isn't bisected, if any is to be bisected.
    Finest {
        digits: Option<u8>,
        cap: Option<u32>,
    },
    /// `build`: the digits behind the point that count, if they are given, the most triangles of a tetrahedron that isn't
    /// bisected, and the most of a list that is simplified.
    Build {
        digits: Option<u8>,
        cap: u32,
        budget: u32,
    },
    /// `gen`: how many squares are in a row on each side of the mesh.
    Gen {
        size: u32,
    },
    /// `info`: how often a call of the store is tried.
    Info {
        tries: u32,
    },
    /// `replay`: how often a call of the store that opens it, or a block, is tried.
    Replay {
        tries: u32,
    },
    /// `tour`: what `build` and `replay` have.
    Tour {
        digits: Option<u8>,
        cap: u32,
        budget: u32,
        tries: u32,
    },
}

/// Why no job was read.
#[derive(Clone, Copy, PartialEq, Eq, Debug)]
pub enum WordsFault {
    /// The words aren't a command and a list of its options.
    Usage,
    /// Memory ran out.
    Memory,
}

impl From<AllocError> for WordsFault {
    ghost from_gives = { λ _ e. e ≡ Memory };

    fn from(_: AllocError) -> Self {
        WordsFault::Memory
    }
}

// The options of the commands, with their ranges.
const DIGITS: Setting = Setting {
    name: "digits",
    least: 0,
    greatest: 9,
    is_required: false,
};

const CAP: Setting = Setting {
    name: "cap",
    least: 1,
    greatest: 16_777_216,
    is_required: false,
};

const BUDGET: Setting = Setting {
    name: "budget",
    least: 1,
    greatest: 4_194_304,
    is_required: false,
};

const SIZE: Setting = Setting {
    name: "size",
    least: 1,
    greatest: 500,
    is_required: true,
};

const TRIES: Setting = Setting {
    name: "tries",
    least: 1,
    greatest: 100,
    is_required: false,
};

/// The job that the words ask for: a command, compared exactly, and then options of that command, each at most once, as
/// the two words `--NAME` and `VALUE` or the one word `--NAME=VALUE`. A value is 1 to 10 decimal digits in its range;
/// leading zeros are allowed. All else is `Usage`, also `--help`, `--version`, `--` and the start of a name.
pub fn read_words(alloc: Global, words: &[String]) -> Result<Job, WordsFault>
    ensures ok { IfOk result (λ job. asked (map string_bytes words.now) ≡ Some job) }
    ensures usage { result ≡ Err Usage → asked (map string_bytes words.now) ≡ None }
    ensures spelled { (words : List Bytes) (gs : List Given) → given_in words ≡ Some gs ↔ Spell gs words }
{
    match words {
        [command, options @ ..] => read_command(alloc, command, options),
        [] => Err(WordsFault::Usage),
    }
}

// The job of the command with this name, with the options that the words behind it spell.
fn read_command(alloc: Global, command: &String, words: &[String]) -> Result<Job, WordsFault>
    ensures ok { IfOk result (λ job. asked (string_bytes command.now ∷ map string_bytes words.now) ≡ Some job) }
    ensures usage { result ≡ Err Usage → asked (string_bytes command.now ∷ map string_bytes words.now) ≡ None }
{
    if is_named(command, "finest") {
        return read_finest(alloc, words);
    }
    if is_named(command, "build") {
        return read_build(alloc, words);
    }
    if is_named(command, "gen") {
        return read_gen(alloc, words);
    }
    if is_named(command, "info") {
        return read_info(alloc, words);
    }
    if is_named(command, "replay") {
        return read_replay(alloc, words);
    }
    if is_named(command, "tour") {
        return read_tour(alloc, words);
    }
    Err(WordsFault::Usage)
}

fn is_named(word: &String, name: &str) -> bool
    ensures { IsTrue result ↔ (string_bytes word.now ≡ name.now) }
{
    word.as_str() == name
}

fn read_finest(alloc: Global, words: &[String]) -> Result<Job, WordsFault>
    ensures ok { IfOk result (λ job. job_with (map string_bytes words.now) finest ≡ Some job) }
    ensures usage { result ≡ Err Usage → job_with (map string_bytes words.now) finest ≡ None }
{
    let settings = [DIGITS, CAP];
    let matches = take_options(alloc, &settings, words)?;
    let digits = option_number(&matches, &DIGITS)?;
    let cap = option_number(&matches, &CAP)?;
    Ok(Job::Finest {
        digits: byte_of(digits),
        cap,
    })
}

fn read_build(alloc: Global, words: &[String]) -> Result<Job, WordsFault>
    ensures ok { IfOk result (λ job. job_with (map string_bytes words.now) build ≡ Some job) }
    ensures usage { result ≡ Err Usage → job_with (map string_bytes words.now) build ≡ None }
{
    let settings = [DIGITS, CAP, BUDGET];
    let matches = take_options(alloc, &settings, words)?;
    let digits = option_number(&matches, &DIGITS)?;
    let cap = option_number(&matches, &CAP)?.unwrap_or(1024);
    let budget = option_number(&matches, &BUDGET)?.unwrap_or(32_768);
    Ok(Job::Build {
        digits: byte_of(digits),
        cap,
        budget,
    })
}

fn read_gen(alloc: Global, words: &[String]) -> Result<Job, WordsFault>
    ensures ok { IfOk result (λ job. job_with (map string_bytes words.now) gen ≡ Some job) }
    ensures usage { result ≡ Err Usage → job_with (map string_bytes words.now) gen ≡ None }
{
    let settings = [SIZE];
    let matches = take_options(alloc, &settings, words)?;
    match option_number(&matches, &SIZE)? {
        Some(size) => Ok(Job::Gen { size }),
        None => Err(WordsFault::Usage),
    }
}

fn read_info(alloc: Global, words: &[String]) -> Result<Job, WordsFault>
    ensures ok { IfOk result (λ job. job_with (map string_bytes words.now) info ≡ Some job) }
    ensures usage { result ≡ Err Usage → job_with (map string_bytes words.now) info ≡ None }
{
    let settings = [TRIES];
    let matches = take_options(alloc, &settings, words)?;
    let tries = option_number(&matches, &TRIES)?.unwrap_or(3);
    Ok(Job::Info { tries })
}

fn read_replay(alloc: Global, words: &[String]) -> Result<Job, WordsFault>
    ensures ok { IfOk result (λ job. job_with (map string_bytes words.now) replay ≡ Some job) }
    ensures usage { result ≡ Err Usage → job_with (map string_bytes words.now) replay ≡ None }
{
    let settings = [TRIES];
    let matches = take_options(alloc, &settings, words)?;
    let tries = option_number(&matches, &TRIES)?.unwrap_or(3);
    Ok(Job::Replay { tries })
}

fn read_tour(alloc: Global, words: &[String]) -> Result<Job, WordsFault>
    ensures ok { IfOk result (λ job. job_with (map string_bytes words.now) tour ≡ Some job) }
    ensures usage { result ≡ Err Usage → job_with (map string_bytes words.now) tour ≡ None }
{
    let settings = [DIGITS, CAP, BUDGET, TRIES];
    let matches = take_options(alloc, &settings, words)?;
    Ok(Job::Tour {
        digits: byte_of(option_number(&matches, &DIGITS)?),
        cap: option_number(&matches, &CAP)?.unwrap_or(1024),
        budget: option_number(&matches, &BUDGET)?.unwrap_or(32_768),
        tries: option_number(&matches, &TRIES)?.unwrap_or(3),
    })
}

// A number below 256 as a byte.
fn byte_of(number: Option<u32>) -> Option<u8>
    requires { IfSome number (λ n. n ≤ 255) }
    ensures { result ≡ number }
{
    match number {
        Some(n) => Some(n as u8),
        None => None,
    }
}
