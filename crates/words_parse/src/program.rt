ghost use Rattle.std.specs.Prelude.{◌≡◌, false, IfOk, true, codes};
ghost use Rattle.clap.specs.Words.{app_of, rule_of};
ghost use Rattle.clap.specs.declared.builder.Command.TheViews.{out-Command as fields_of};
ghost use Rattle.words_clap_spec.specs.Program as spec;
ghost use Rattle.words_clap_spec.specs.Program.{entries_rule, link_command, measure_command, number_rule, option_rule};
ghost use Rattle.words_clap_spec.specs.Program.{check_command, path_command, path_rule, program, strict_rule, unlink_command};

use crate::help;
use clap::{Arg, ArgAction, Command};
use std::alloc::{AllocError, Global};

/// The program with its commands, as `clap` takes it.
pub(crate) fn command<'a>(alloc: Global) -> Result<Command<'a>, AllocError>
    ensures { IfOk result (λ command. app_of command ≡ program) }
{
    top(alloc)?
        .subcommand(link(alloc)?)?
        .subcommand(unlink(alloc)?)?
        .subcommand(plain(alloc, "refresh", help::REFRESH))?
        .subcommand(plain(alloc, "inject", help::INJECT))?
        .subcommand(check(alloc)?)?
        .subcommand(plain(alloc, "list", help::LIST))?
        .subcommand(why(alloc)?)?
        .subcommand(vendor(alloc)?)?
        .subcommand(plain(alloc, "session", help::SESSION))?
        .subcommand(measure(alloc)?)
}

// The words begin behind the program's name, so its name is given here.
fn top<'a>(alloc: Global) -> Result<Command<'a>, AllocError>
    ensures { IfOk result (λ command. app_of command ≡ spec.top) }
{
    Command::new(alloc, "salimgub")
        .about(help::ABOUT)
        .after_help(help::AFTER)
        .no_binary_name(true)
        .subcommand_required(true)
        .arg_required_else_help(true)
        .bin_name("salimgub")
}

fn link<'a>(alloc: Global) -> Result<Command<'a>, AllocError>
    ensures app { IfOk result (λ command. app_of command ≡ link_command) }
    ensures local { IfOk result (λ command. (fields_of command).has_globals ≡ false) }
{
    Command::new(alloc, "link")
        .about(help::LINK)
        .arg(option(alloc, "base", "URL", help::BASE))?
        .arg(option(alloc, "page", "PATH", help::PAGE))?
        .arg(option(alloc, "conditions", "NAMES", help::CONDITIONS))?
        .arg(entries(alloc, help::ENTRIES))
}

fn unlink<'a>(alloc: Global) -> Result<Command<'a>, AllocError>
    ensures app { IfOk result (λ command. app_of command ≡ unlink_command) }
    ensures local { IfOk result (λ command. (fields_of command).has_globals ≡ false) }
{
    Command::new(alloc, "unlink")
        .about(help::UNLINK)
        .arg(entries(alloc, help::UNLINKED).required(true))
}

fn check<'a>(alloc: Global) -> Result<Command<'a>, AllocError>
    ensures app { IfOk result (λ command. app_of command ≡ check_command) }
    ensures local { IfOk result (λ command. (fields_of command).has_globals ≡ false) }
{
    Command::new(alloc, "check")
        .about(help::CHECK)
        .arg(strict(alloc))
}

fn why<'a>(alloc: Global) -> Result<Command<'a>, AllocError>
    ensures app { IfOk result (λ command. app_of command ≡ path_command (codes "why")) }
    ensures local { IfOk result (λ command. (fields_of command).has_globals ≡ false) }
{
    Command::new(alloc, "why")
        .about(help::WHY)
        .arg(path(alloc, help::FILE))
}

fn vendor<'a>(alloc: Global) -> Result<Command<'a>, AllocError>
    ensures app { IfOk result (λ command. app_of command ≡ path_command (codes "vendor")) }
    ensures local { IfOk result (λ command. (fields_of command).has_globals ≡ false) }
{
    Command::new(alloc, "vendor")
        .about(help::VENDOR)
        .arg(path(alloc, help::FOLDER))
}

fn measure<'a>(alloc: Global) -> Result<Command<'a>, AllocError>
    ensures app { IfOk result (λ command. app_of command ≡ measure_command) }
    ensures local { IfOk result (λ command. (fields_of command).has_globals ≡ false) }
{
    Command::new(alloc, "measure")
        .about(help::MEASURE)
        .arg(number(alloc))
}

fn plain<'a>(alloc: Global, name: &'a str, about: &'a str) -> Command<'a>
    ensures app { app_of result ≡ spec.plain_command name.entry.now }
    ensures local { (fields_of result).has_globals ≡ false }
{
    Command::new(alloc, name).about(about)
}

fn option<'a>(alloc: Global, name: &'a str, value: &'a str, about: &'a str) -> Arg<'a>
    ensures rule { rule_of result ≡ option_rule name.entry.now }
    ensures local { result.global ≡ false }
{
    Arg::new(alloc, name)
        .long(name)
        .value_name(value)
        .help(about)
}

fn entries<'a>(alloc: Global, about: &'a str) -> Arg<'a>
    ensures rule { rule_of result ≡ entries_rule }
    ensures local { result.global ≡ false }
{
    Arg::new(alloc, "entries")
        .action(ArgAction::Append)
        .value_name("ENTRY")
        .help(about)
}

fn strict<'a>(alloc: Global) -> Arg<'a>
    ensures rule { rule_of result ≡ strict_rule }
    ensures local { result.global ≡ false }
{
    Arg::new(alloc, "strict")
        .long("strict")
        .action(ArgAction::SetTrue)
        .help(help::STRICT)
}

fn path<'a>(alloc: Global, about: &'a str) -> Arg<'a>
    ensures rule { rule_of result ≡ path_rule }
    ensures local { result.global ≡ false }
{
    Arg::new(alloc, "path")
        .value_name("PATH")
        .required(true)
        .help(about)
}

fn number<'a>(alloc: Global) -> Arg<'a>
    ensures rule { rule_of result ≡ number_rule }
    ensures local { result.global ≡ false }
{
    Arg::new(alloc, "number")
        .value_name("N")
        .required(true)
        .help(help::NUMBER)
}
