//! Splitting a command line.
ghost use Rattle.std.specs.Prelude.{◌≡◌, ◌≤◌, IfOk, IfErr, false, length, map, string_bytes};
ghost use Rattle.clap.specs.Simple.{app_of};
ghost use Rattle.clap.specs.Walk.{rule_of};
ghost use Rattle.tau_words.specs.Split.{is_flag, has_flag, found_words, word_rule, words_app};
ghost use Rattle.tau_words.specs.declared.command.WordsRefusal.TheVariants.{NoMemory};

use crate::command::WordsRefusal;
use clap::error::ErrorKind;
use clap::{Arg, ArgAction, ArgMatches, Command as Parser};
use std::alloc::{AllocError, Global};

/// The longest command has so many words.
pub(crate) const MAX_WORDS: usize = 7;

fn is_flag(word: &str) -> bool
    ensures { result ≡ is_flag word.now }
{
    match word.as_bytes() {
        [] => false,
        [c, ..] => *c == b'-',
    }
}

/// Whether a word begins with a hyphen.
pub(crate) fn has_flag(words: &[String]) -> bool
    ensures { result ≡ has_flag (map string_bytes words.now) }
{
    for word in words {
        if is_flag(word.as_str()) {
            return true;
        }
    }
    false
}

fn word_argument<'a>(alloc: Global) -> Arg<'a>
    ensures rule { rule_of result ≡ word_rule }
    ensures own { result.global ≡ false }
{
    Arg::new(alloc, "word")
        .action(ArgAction::Append)
        .num_args(0..=MAX_WORDS)
}

fn parser<'a>(alloc: Global) -> Result<Parser<'a>, AllocError>
    ensures { IfOk result (λ p. app_of p ≡ words_app) }
{
    Parser::new(alloc, "taurus")
        .no_binary_name(true)
        .disable_help_flag(true)
        .arg(word_argument(alloc))
}

/// The words, as the values of one argument.
pub(crate) fn split<'a>(alloc: Global, words: &'a [String]) -> Result<ArgMatches<'a>, WordsRefusal>
    requires plain { has_flag (map string_bytes words.now) ≡ false }
    requires short { length words.now ≤ MAX_WORDS }
    ensures ok { IfOk result (λ m. found_words m ≡ map string_bytes words.now) }
    ensures err { IfErr result (λ e. e ≡ NoMemory) }
{
    let Ok(parser) = parser(alloc) else {
        return Err(WordsRefusal::NoMemory);
    };
    match parser.try_get_matches_from(words) {
        Ok(matches) => Ok(matches),
        Err(error) => {
            if error.kind() != ErrorKind::OutOfMemory {
                unreachable!();
            }
            Err(WordsRefusal::NoMemory)
        }
    }
}
