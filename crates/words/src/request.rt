//! The words by `clap`, and what they ask for.

ghost use Rattle.std.specs.Prelude.{◌≡◌, IfOk, map, string_bytes};
ghost use Rattle.std.specs.Option.{option_map};
ghost use Rattle.clap.specs.Words.{app_of};
ghost use Rattle.words.specs.Request as asked;
ghost use Rattle.words.specs.Request.{asked_by, command as command_is, file_named, given, request_of, stage_named, text_in};

use crate::number::number_in;
use bits_core::Memory;
use clap::error::ErrorKind;
use clap::{Arg, Command};
use std::alloc::{AllocError, Global};

/// Which text of an input is printed.
#[derive(Clone, Copy, Debug, PartialEq, Eq)]
pub enum Stage {
    /// The C function.
    C,
    /// The function of the operation graph in SSA form.
    Ssa,
    /// The C function of the plain lowering.
    Plain,
    /// The listing in its canonical form.
    Listing,
}

/// What is asked for.
#[derive(Clone, Copy, Debug, PartialEq, Eq)]
pub enum Request<'a> {
    /// A text of the file, or of the standard input where there is none.
    Text { stage: Stage, file: Option<&'a str> },
    /// The numbers of a generated listing, from 0 to 2^32 - 1.
    Numbers(u32),
}

fn command<'a>(alloc: Global) -> Result<Command<'a>, AllocError>
    ensures { IfOk result (λ c. app_of c ≡ command_is) }
{
    let stage = Arg::new(alloc, "stage").long("stage");
    let number = Arg::new(alloc, "gen").long("gen");
    let file = Arg::new(alloc, "file");
    Command::new(alloc, "pcode2c")
        .no_binary_name(true)
        .arg(stage)?
        .arg(number)?
        .arg(file)
}

fn stage_in(word: &str) -> Option<Stage>
    ensures { result ≡ stage_named word.now }
{
    match word {
        "c" => Some(Stage::C),
        "ssa" => Some(Stage::Ssa),
        "plain" => Some(Stage::Plain),
        "listing" => Some(Stage::Listing),
        _ => None,
    }
}

/// The file of this name, or none where the name is `-`, which is the standard input's.
fn file_of<'a>(name: Option<&'a str>) -> Option<&'a str>
    ensures { text_in result ≡ file_named (text_in name.entry) }
{
    match name {
        Some("-") => None,
        other => other,
    }
}

fn text_of<'a>(stage: Option<Stage>, file: Option<&'a str>) -> Option<Request<'a>>
    ensures { option_map request_of result ≡ option_map (λ s. asked.Prints s (file_named (text_in file.entry))) stage }
{
    let stage = stage?;
    Some(Request::Text {
        stage,
        file: file_of(file),
    })
}

// By the texts of `--stage` and `--gen` and the file, where they stand.
fn requested<'a>(
    stage: Option<&'a str>,
    number: Option<&'a str>,
    file: Option<&'a str>,
) -> Option<Request<'a>>
    ensures { option_map request_of result ≡ given (text_in stage.entry) (text_in number.entry) (text_in file.entry) }
{
    match (stage, number, file) {
        (None, None, file) => text_of(Some(Stage::C), file),
        (Some(stage), None, file) => text_of(stage_in(stage), file),
        (None, Some(number), None) => match number_in(number.as_bytes()) {
            Some(n) => Some(Request::Numbers(n)),
            None => None,
        },
        _ => None,
    }
}

/// What the words after the program's name ask for, or None where they aren't taken. Fails where there is no memory to
/// read them.
pub fn read_words(alloc: Global, words: &[String]) -> Result<Option<Request<'_>>, Memory>
    ensures { IfOk result (λ r. option_map request_of r ≡ asked_by (map string_bytes words.now)) }
{
    match command(alloc)?.try_get_matches_from(words) {
        Ok(matches) => Ok(requested(
            matches.get_str("stage"),
            matches.get_str("gen"),
            matches.get_str("file"),
        )),
        Err(error) => {
            if error.kind() == ErrorKind::OutOfMemory {
                Err(Memory)
            } else {
                Ok(None)
            }
        }
    }
}
