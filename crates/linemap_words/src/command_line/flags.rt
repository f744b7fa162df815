//! Options that take no value, and options that take one.
ghost use Rattle.std.specs.Prelude.{◌≡◌, false};
ghost use Rattle.clap.specs.Words.{rule_of};
ghost use Rattle.linemap_words.specs.CommandLine.{flag_rule, list_rule, number_rule, option_rule, with_short};

use clap::{Arg, ArgAction, value_parser};
use std::alloc::Global;

/// The option `--name`, which takes no value.
pub fn flag<'a>(alloc: Global, name: &'a str, help: &'a str) -> Arg<'a>
    ensures rule { rule_of result ≡ flag_rule name.entry.now }
    ensures local { result.global ≡ false }
{
    Arg::new(alloc, name)
        .long(name)
        .help(help)
        .action(ArgAction::SetTrue)
}

/// The option `--name`, with a short name too.
pub fn short_flag<'a>(alloc: Global, name: &'a str, short: char, help: &'a str) -> Arg<'a>
    ensures rule { rule_of result ≡ with_short short (flag_rule name.entry.now) }
    ensures local { result.global ≡ false }
{
    flag(alloc, name, help).short(short)
}

/// The option `--name VALUE`, which takes any text.
pub fn text_option<'a>(alloc: Global, name: &'a str, value_name: &'a str, help: &'a str) -> Arg<'a>
    ensures rule { rule_of result ≡ option_rule name.entry.now }
    ensures local { result.global ≡ false }
{
    Arg::new(alloc, name)
        .long(name)
        .value_name(value_name)
        .help(help)
        .action(ArgAction::Set)
}

/// The option `--name VALUE`, which takes any text, and may be there several times.
pub fn list_option<'a>(alloc: Global, name: &'a str, value_name: &'a str, help: &'a str) -> Arg<'a>
    ensures rule { rule_of result ≡ list_rule name.entry.now }
    ensures local { result.global ≡ false }
{
    text_option(alloc, name, value_name, help).action(ArgAction::Append)
}

/// The option `--name N`, which takes a decimal number of 16 bits, and has a default.
pub fn number_option<'a>(alloc: Global, name: &'a str, default: &'a str, help: &'a str) -> Arg<'a>
    ensures rule { rule_of result ≡ number_rule name.entry.now default.entry.now }
    ensures local { result.global ≡ false }
{
    text_option(alloc, name, "N", help)
        .value_parser(value_parser!(u16))
        .default_value(default)
}
