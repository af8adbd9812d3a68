//! The job in the program's words.

ghost use Rattle.std.specs.Prelude.{◌≡◌, ◌≤◌, ◌<◌, Ok, Err, IfOk, MatchResult, map, option_copied, ok_or};
ghost use Rattle.std.specs.String.{string_bytes};
ghost use Rattle.clap.specs.Words.{App, first_of, found_of, rows_of, with_rule, with_subcommand};
ghost use Rattle.alm_program.specs.Commands.{IsCommand, IsWord, desk, export, format, named, optional, serve, show, upgrade, commands, wanted};
ghost use Rattle.alm_program.specs.Jobs.{IsJob, AreEndpoints, greatest_port, least_port};
ghost use Rattle.alm_program.specs.Orders.{IsJobOf, about_by, about_in, command_in, conns_in, format_in, patience_in, order_at, order_in, endpoints_by, endpoints_of, port_in, serve_in, upgrade_in, version_in};
ghost use Rattle.alm_program.specs.declared.words_fault.WordsFault.TheVariants.{Usage};

use crate::about::About;
use crate::endpoints::Endpoints;
use crate::job::Job;
use crate::words_fault::WordsFault;
use alm_codec::Version;
use alm_lines::number;
use clap::{Arg, ArgAction, ArgMatches, Command};
use std::alloc::{AllocError, Global};

/// A word that has to be there.
fn wanted<'a>(alloc: Global, name: &'a str) -> Arg<'a>
    ensures { IsWord (wanted name.entry.now) result }
{
    Arg::new(alloc, name).required(true).action(ArgAction::Set)
}

/// What the desk is asked.
fn desk_command<'a>(alloc: Global) -> Result<Command<'a>, AllocError>
    ensures { IfOk result (IsCommand desk) }
{
    Command::new(alloc, "desk").arg(wanted(alloc, "device").required(false))
}

/// What a format is asked.
fn format_command<'a>(alloc: Global) -> Result<Command<'a>, AllocError>
    ensures { IfOk result (IsCommand format) }
{
    let above = Command::new(alloc, "format")
        .arg(wanted(alloc, "device"))?
        .arg(wanted(alloc, "table"))?;
    with_option(alloc, above, "version")
}

/// What an upgrade is asked.
fn upgrade_command<'a>(alloc: Global) -> Result<Command<'a>, AllocError>
    ensures { IfOk result (IsCommand upgrade) }
{
    let above = Command::new(alloc, "upgrade").arg(wanted(alloc, "device"))?;
    with_option(alloc, above, "version")
}

/// What a show is asked.
fn show_command<'a>(alloc: Global) -> Result<Command<'a>, AllocError>
    ensures { IfOk result (IsCommand show) }
{
    Command::new(alloc, "show").arg(wanted(alloc, "device"))
}

/// What an export is asked.
fn export_command<'a>(alloc: Global) -> Result<Command<'a>, AllocError>
    ensures { IfOk result (IsCommand export) }
{
    Command::new(alloc, "export").arg(wanted(alloc, "device"))
}

/// A command with one word more, which follows its name and may be left out.
fn with_option<'a>(
    alloc: Global,
    above: Command<'a>,
    name: &'a str,
) -> Result<Command<'a>, AllocError>
    ensures { (a : App) → IsCommand a above.entry →
        IfOk result (IsCommand (with_rule a (named (optional name.entry.now)))) }
{
    above.arg(wanted(alloc, name).long(name).required(false))
}

/// What a server is asked.
fn serve_command<'a>(alloc: Global) -> Result<Command<'a>, AllocError>
    ensures { IfOk result (IsCommand serve) }
{
    let above = Command::new(alloc, "serve").arg(wanted(alloc, "device"))?;
    let above = with_option(alloc, above, "port")?;
    let above = with_option(alloc, above, "sockets")?;
    let above = with_option(alloc, above, "conns")?;
    let above = with_option(alloc, above, "patience")?;
    with_option(alloc, above, "scrub")
}

/// A command with one more below it.
fn with<'a>(
    above: Command<'a>,
    below: Result<Command<'a>, AllocError>,
) -> Result<Command<'a>, AllocError>
    ensures { (a b : App) → IsCommand a above.entry → IfOk below.entry (IsCommand b) →
        IfOk result (IsCommand (with_subcommand a b.top)) }
{
    match below {
        Ok(below) => above.subcommand(below),
        Err(fault) => Err(fault),
    }
}

/// The commands and their words.
fn commands<'a>(alloc: Global) -> Result<Command<'a>, AllocError>
    ensures { IfOk result (IsCommand commands) }
{
    let above = Command::new(alloc, "alm_server").subcommand_required(true);
    let above = with(above, desk_command(alloc))?;
    let above = with(above, format_command(alloc))?;
    let above = with(above, upgrade_command(alloc))?;
    let above = with(above, show_command(alloc))?;
    let above = with(above, export_command(alloc))?;
    with(above, serve_command(alloc))
}

/// The word at a name.
fn word<'a>(matches: &ArgMatches<'a>, name: &str) -> Result<&'a str, WordsFault>
    ensures { MatchResult result
        (λ text. first_of name.now (rows_of (found_of matches.now)) ≡ Some text.now)
        (λ fault. (fault ≡ Usage) × (first_of name.now (rows_of (found_of matches.now)) ≡ None)) }
{
    matches.get_str(name).ok_or(WordsFault::Usage)
}

/// The version of a new device: the one that is named, or else `usual`.
fn version_of(name: Option<&str>, usual: Version) -> Result<Version, WordsFault>
    ensures { result ≡ ok_or (version_in usual (option_copied name.entry)) Usage }
{
    match name {
        None => Ok(usual),
        Some("02") => Ok(Version::V02),
        Some("03") => Ok(Version::V03),
        Some(_) => Err(WordsFault::Usage),
    }
}

/// What a format is asked.
fn format_of<'a>(matches: &ArgMatches<'a>) -> Result<Job<'a>, WordsFault>
    ensures asked { IsJobOf (format_in (rows_of (found_of matches.now))) result }
    ensures ports { IfOk result IsJob }
{
    Ok(Job::Format {
        device: word(matches, "device")?,
        table: word(matches, "table")?,
        version: version_of(matches.get_str("version"), Version::V02)?,
    })
}

/// What an upgrade is asked.
fn upgrade_of<'a>(matches: &ArgMatches<'a>) -> Result<Job<'a>, WordsFault>
    ensures asked { IsJobOf (upgrade_in (rows_of (found_of matches.now))) result }
    ensures ports { IfOk result IsJob }
{
    Ok(Job::Upgrade {
        device: word(matches, "device")?,
        version: version_of(matches.get_str("version"), Version::V03)?,
    })
}

/// The port of the first slot.
fn port_of(digits: &str) -> Result<u16, WordsFault>
    ensures read { result ≡ ok_or (port_in digits.now) Usage }
    ensures ports { IfOk result (λ port. (least_port ≤ port) × (port ≤ greatest_port)) }
{
    match number(digits.as_bytes(), 65519) {
        Some(port) if 1024 <= port => Ok(port as u16),
        _ => Err(WordsFault::Usage),
    }
}

/// A server's endpoints: ports, or the sockets of a folder. Exactly one of the two is named.
fn endpoints_of<'a>(
    port: Option<&str>,
    folder: Option<&'a str>,
) -> Result<Endpoints<'a>, WordsFault>
    ensures read { MatchResult result
        (λ endpoints. endpoints_by (option_copied port.entry) (option_copied folder.entry) ≡
        Some (endpoints_of endpoints))
        (λ fault. (fault ≡ Usage) ×
        (endpoints_by (option_copied port.entry) (option_copied folder.entry) ≡ None)) }
    ensures ports { IfOk result AreEndpoints }
{
    match (port, folder) {
        (Some(digits), None) => Ok(Endpoints::Ports(port_of(digits)?)),
        (None, Some(folder)) => Ok(Endpoints::Sockets(folder)),
        _ => Err(WordsFault::Usage),
    }
}

/// The number of connections, or of the seconds between two scrubs.
fn conns_of(digits: Option<&str>) -> Result<u32, WordsFault>
    ensures { result ≡ ok_or (conns_in (option_copied digits.entry)) Usage }
{
    let Some(digits) = digits else {
        return Ok(0);
    };
    let conns = number(digits.as_bytes(), 1 << 32).ok_or(WordsFault::Usage)?;
    u32::try_from(conns).map_err(|_| WordsFault::Usage)
}

/// How many seconds a device call may take while clients are served.
fn patience_of(digits: Option<&str>) -> Result<Option<u32>, WordsFault>
    ensures { result ≡ ok_or (patience_in (option_copied digits.entry)) Usage }
{
    let Some(digits) = digits else {
        return Ok(None);
    };
    match number(digits.as_bytes(), 86_401) {
        Some(seconds) if 1 <= seconds => Ok(Some(seconds as u32)),
        _ => Err(WordsFault::Usage),
    }
}

/// What a server is asked.
fn serve_of<'a>(matches: &ArgMatches<'a>) -> Result<Job<'a>, WordsFault>
    ensures asked { IsJobOf (serve_in (rows_of (found_of matches.now))) result }
    ensures ports { IfOk result IsJob }
{
    Ok(Job::Serve {
        device: word(matches, "device")?,
        endpoints: endpoints_of(matches.get_str("port"), matches.get_str("sockets"))?,
        conns: conns_of(matches.get_str("conns"))?,
        patience: patience_of(matches.get_str("patience"))?,
        scrub: conns_of(matches.get_str("scrub"))?,
    })
}

/// What a command is asked.
fn job_at<'a>(name: &str, matches: &ArgMatches<'a>) -> Result<Job<'a>, WordsFault>
    ensures asked { IsJobOf (order_at name.now (rows_of (found_of matches.now))) result }
    ensures ports { IfOk result IsJob }
{
    match name {
        "desk" => Ok(Job::Desk(matches.get_str("device"))),
        "format" => format_of(matches),
        "upgrade" => upgrade_of(matches),
        "show" => Ok(Job::Show(word(matches, "device")?)),
        "export" => Ok(Job::Export(word(matches, "device")?)),
        "serve" => serve_of(matches),
        _ => Err(WordsFault::Usage),
    }
}

/// What is asked of the program itself by a word.
fn about_by(word: &str) -> Option<About>
    ensures { result ≡ about_by word.now }
{
    match word {
        "--help" => Some(About::Usage),
        "--version" => Some(About::Version),
        _ => None,
    }
}

/// What is asked of the program itself: by one word alone, after the program's name.
fn about_of(words: &[String]) -> Option<About>
    ensures { result ≡ about_in (map string_bytes words.now) }
{
    match words {
        [_, word] => about_by(word.as_str()),
        _ => None,
    }
}

/// The job that the words ask for, the program's name first.
pub fn job_of<'a>(alloc: Global, words: &'a [String]) -> Result<Job<'a>, WordsFault>
    ensures asked { IsJobOf (order_in (map string_bytes words.entry.now)) result }
    ensures ports { IfOk result IsJob }
{
    match about_of(words) {
        Some(about) => Ok(Job::Tell(about)),
        None => command_of(alloc, words),
    }
}

/// The job that the words of a command ask for, the program's name first.
fn command_of<'a>(alloc: Global, words: &'a [String]) -> Result<Job<'a>, WordsFault>
    ensures asked { IsJobOf (command_in (map string_bytes words.entry.now)) result }
    ensures ports { IfOk result IsJob }
{
    let matches = commands(alloc)?.try_get_matches_from(words)?;
    match matches.subcommand() {
        Some((name, inner)) => job_at(name, inner),
        None => Err(WordsFault::Usage),
    }
}
