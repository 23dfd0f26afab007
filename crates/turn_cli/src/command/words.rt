//! What `clap` is told of the commands.

ghost use Rattle.std.specs.Prelude.{◌≡◌, [], ◌∷◌, IfOk, false};
ghost use Rattle.clap.specs.Words.{rule_of, with_subcommand};
ghost use Rattle.turn_cli.specs.Table.{app_of_row, app_of_rows, has_globals, program_of, rule_of_word, rules_of_part, shown_kind, told, with_rules};

use super::table::{Kind, Part, Synopsis, Word};
use clap::{Arg, ArgAction};
use std::alloc::{AllocError, Global};

/// What stands for a value of the kind.
pub fn shown_kind(kind: Kind) -> &'static str
    ensures { result.now ≡ shown_kind kind }
{
    match kind {
        Kind::File => "FILE",
        Kind::Store => "STORE",
        Kind::Size | Kind::Number | Kind::Burst => "N",
        Kind::Moment => "S",
        Kind::Ip => "IP",
        Kind::Endpoint | Kind::Listen => "IP:PORT",
        Kind::Name | Kind::ShownName => "NAME",
        Kind::Password => "TEXT",
        Kind::Hex => "HEX",
        Kind::Command => "COMMAND",
    }
}

/// The argument of a word, which may be left out.
fn argument<'a>(alloc: Global, word: &Word) -> Arg<'a>
    ensures rule { rule_of result ≡ rule_of_word word.now }
    ensures local { result.global ≡ false }
{
    match word {
        Word::Flag(name) => Arg::new(alloc, name).long(name).action(ArgAction::SetTrue),
        Word::Named(name, _) => Arg::new(alloc, name).long(name).action(ArgAction::Set),
        Word::Value(kind) => Arg::new(alloc, shown_kind(*kind)).action(ArgAction::Set),
    }
}

/// The command with one argument more.
#[tactic(auto, unfolding(crate::specs::Table::told, crate::specs::Table::with_rules))]
fn with_argument<'a>(
    command: clap::Command<'a>,
    argument: Arg<'a>,
) -> Result<clap::Command<'a>, AllocError>
    requires own { argument.global ≡ false }
    requires local { has_globals command ≡ false }
    ensures rule { IfOk result (λ taken. told taken ≡ with_rules (told command.entry) (rule_of argument.entry ∷ [])) }
    ensures local { IfOk result (λ taken. has_globals taken ≡ false) }
{
    command.arg(argument)
}

/// The command with the arguments of two words.
#[tactic(auto, using(crate::proofs::Rules::rules_after))]
fn with_both<'a>(
    alloc: Global,
    command: clap::Command<'a>,
    one: &Word,
    other: &Word,
) -> Result<clap::Command<'a>, AllocError>
    requires { has_globals command ≡ false }
    ensures rules { IfOk result (λ taken. told taken ≡ with_rules (told command.entry) (rule_of_word one.now ∷ rule_of_word other.now ∷ [])) }
    ensures local { IfOk result (λ taken. has_globals taken ≡ false) }
{
    let command = with_argument(command, argument(alloc, one))?;
    with_argument(command, argument(alloc, other))
}

/// The command with the arguments of a part.
#[tactic(auto, using(crate::proofs::Rules::rules_after))]
fn with_part<'a>(
    alloc: Global,
    command: clap::Command<'a>,
    part: &Part,
) -> Result<clap::Command<'a>, AllocError>
    requires { has_globals command ≡ false }
    ensures rules { IfOk result (λ taken. told taken ≡ with_rules (told command.entry) (rules_of_part part.now)) }
    ensures local { IfOk result (λ taken. has_globals taken ≡ false) }
{
    match part {
        Part::Required(word) => with_argument(command, argument(alloc, word).required(true)),
        Part::Optional(word) => with_argument(command, argument(alloc, word)),
        Part::Many(word) => {
            with_argument(command, argument(alloc, word).action(ArgAction::Append))
        }
        Part::Either(one, other) => with_both(alloc, command, one, other),
        Part::WithEither(first, one, other, last) => {
            let command = with_both(alloc, command, first, one)?;
            with_both(alloc, command, other, last)
        }
    }
}

/// The command of a row.
#[tactic(auto, using(crate::proofs::Rules::no_rules), unfolding(crate::specs::Table::told))]
fn row_command<'a>(alloc: Global, synopsis: &Synopsis) -> Result<clap::Command<'a>, AllocError>
    ensures told { IfOk result (λ command. told command ≡ app_of_row synopsis.now) }
    ensures local { IfOk result (λ command. has_globals command ≡ false) }
{
    let mut command = clap::Command::new(alloc, synopsis.name);
    for part in synopsis.parts {
        command = with_part(alloc, command, part)?;
    }
    Ok(command)
}

/// The program without a command, of which one has to be called.
fn program<'a>(alloc: Global) -> clap::Command<'a>
    ensures { told result ≡ program_of [] }
{
    clap::Command::new(alloc, "turn")
        .subcommand_required(true)
        .disable_help_subcommand(true)
}

/// The program with one command more.
#[tactic(auto, unfolding(crate::specs::Table::told))]
fn with_command<'a>(
    program: clap::Command<'a>,
    command: clap::Command<'a>,
) -> Result<clap::Command<'a>, AllocError>
    requires { has_globals command ≡ false }
    ensures { IfOk result (λ taken. told taken ≡ with_subcommand (told program.entry) (told command.entry).top) }
{
    program.subcommand(command)
}

/// The program with a command for each row.
#[tactic(auto, using(crate::proofs::Rules::one_more))]
pub fn table_command<'a>(
    alloc: Global,
    synopses: &[Synopsis],
) -> Result<clap::Command<'a>, AllocError>
    ensures { IfOk result (λ command. told command ≡ app_of_rows synopses.now) }
{
    let mut command = program(alloc);
    for synopsis in synopses {
        command = with_command(command, row_command(alloc, synopsis)?)?;
    }
    Ok(command)
}
