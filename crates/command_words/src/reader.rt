//! The files that the words of a command name, as `clap` reads them.

ghost use Rattle.std.specs.Prelude.{◌≡◌, IfOk, codes, map, option_map, IsUtf8};
ghost use Rattle.std.specs.List.{AllByRecursion};
ghost use Rattle.clap.specs.Words.{app_of, found_of, matched_of, raw_values};
ghost use Rattle.command_words.specs.Command.{files_app, has_lone_hyphen};
ghost use Rattle.command_words.specs.Words.{file_words};

use clap::error::ErrorKind;
use clap::{Arg, ArgAction, ArgMatches, Command};
use plain_data::{Many, NoMemory, Word};
use std::alloc::{AllocError, Global};

/// The files that the words of a command name which takes files and no options, or `None` where
/// the words are none of its forms.
///
/// The first word `--` ends the options; behind it each word is a file. Up to it a word that begins
/// with a hyphen is no file. There must be a file.
pub fn read_files(alloc: Global, words: &[Word]) -> Result<Option<Many<Word>>, NoMemory>
    ensures { IfOk result (λ files. files ≡ file_words words.now) }
{
    if has_lone_hyphen(words) {
        return Ok(None);
    }
    let texts = texts_of(alloc, words)?;
    match files_command(alloc)?.try_get_matches_from(texts.as_slice()) {
        Ok(matches) => found_files(alloc, &matches),
        Err(error) => match error.kind() {
            ErrorKind::OutOfMemory => Err(NoMemory),
            _ => Ok(None),
        },
    }
}

// Whether a word `-` stands before the options' end. `clap` takes it for a file, as a name of the
// standard input.
fn has_lone_hyphen(words: &[Word]) -> bool
    ensures { result ≡ has_lone_hyphen words.now }
{
    for word in words {
        let text = word.as_str();
        if text == "--" {
            return false;
        }
        if text == "-" {
            return true;
        }
    }
    false
}

// The words as texts, which are UTF-8.
fn texts_of(alloc: Global, words: &[Word]) -> Result<Vec<&str>, NoMemory>
    ensures texts { IfOk result (λ texts. map (λ t. t.now) texts.items ≡ words.now) }
    ensures utf8 { IfOk result (λ _. AllByRecursion IsUtf8 words.now) }
{
    let mut texts = Vec::new(alloc);
    for word in words {
        texts.push(word.as_str())?;
    }
    Ok(texts)
}

// One positional argument, which takes a word and may be repeated, and no flag.
fn files_command<'a>(alloc: Global) -> Result<Command<'a>, AllocError>
    ensures { IfOk result (λ command. app_of command ≡ files_app) }
{
    let files = Arg::new(alloc, "file")
        .required(true)
        .action(ArgAction::Append);
    Command::new(alloc, "files")
        .no_binary_name(true)
        .disable_help_flag(true)
        .arg(files)
}

// The values of the argument.
fn found_files(alloc: Global, matches: &ArgMatches) -> Result<Option<Many<Word>>, NoMemory>
    ensures { IfOk result (λ files. files ≡ option_map raw_values (matched_of (found_of matches.now) (codes "file"))) }
{
    let Some(texts) = matches.get_strs("file") else {
        return Ok(None);
    };
    let mut files = Many::new(alloc);
    for text in texts {
        files.push(Word::of(alloc, text)?)?;
    }
    Ok(Some(files))
}
