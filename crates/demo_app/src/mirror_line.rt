//! The command line of `mirror`.

ghost use Rattle.std.specs.Prelude.{◌≡◌, ◌≤◌, false, IfOk, IfSome, map, codes, slice_get, string_bytes};
ghost use Rattle.std.specs.Option.{option_map_or};
ghost use Rattle.std.specs.Str.{bytes_eq};
ghost use Rattle.demo_app.specs.CommandLine.{HasViewers};

use crate::command_line::{
    Chosen, MOST_BY_ONE, VERSION, flag, objection_to_names, option, web_of, with_web,
};
use clap::error::ErrorKind;
use clap::{Arg, ArgMatches, Command, Error, value_parser};
use mirror::MirrorOptions;
use std::alloc::{AllocError, Global};
use std::net::{IpAddr, Ipv4Addr, SocketAddr};

/// What `mirror --help` says, behind the usage.
const HELP: &str = "\
Another VNC server's picture is shown to as many viewers as come: that server has one
viewer whatever happens, and none of the others waits for another. It offers the security
type None. What viewers type, point at and copy is handed on to it, of a text the first
32,768 bytes, unless --view-only. Where it goes, viewers keep the last picture, and it is
tried again each second.

It prints when the server and each viewer came and went, and why. Where viewers connect
stands on standard error at the start; their screen has the server's size and name, so
none is served before the server was there. A connection too many is told so and closed,
and one that takes 10 seconds for its opening is closed; so is that to the server.

In two terminals, where a server is on port 5901:
  vncdemo mirror 127.0.0.1:5901 --port 5902
  vncviewer 127.0.0.1::5902

Status: 0 with --once, where the server went; 2 after a refused command line, and after
this text; 3 after want of memory; 5 after a network fault, as of a port that is in use,
and after a write that failed; 6 with --once, where there was no server.";

/// What is said where an address is none.
const NO_ADDRESS: &str =
    "an address is as 127.0.0.1:5901 or [::1]:5901, and that to listen on as 127.0.0.1 or ::";

/// Adds the options that say where viewers connect, and how many.
fn with_viewers<'a>(alloc: Global, command: Command<'a>) -> Result<Command<'a>, AllocError> {
    let listen = option(alloc, "listen", "the address that viewers connect to").default_value(
        "127.0.0.1",
    );
    let port = option(alloc, "port", "the port")
        .value_parser(value_parser!(u16))
        .default_value("5900");
    let viewers = option(
        alloc,
        "viewers",
        "how many viewers are served at once, 1 to 1024",
    )
    .value_parser(value_parser!(u32).range(1..=1024))
    .default_value("1024");
    let command = command.arg(listen)?.arg(port)?.arg(viewers)?;
    with_web(alloc, command, "a port for browsers, by WebSockets")
}

/// Returns the command `mirror`.
fn mirror_command<'a>(alloc: Global) -> Result<Command<'a>, AllocError> {
    let address = Arg::new(alloc, "ADDRESS:PORT")
        .help("the server whose picture is shown")
        .required(true);
    let command = Command::new(alloc, "mirror")
        .about("shows another server's picture to viewers over TCP")
        .after_help(HELP)
        .arg(address)?;
    with_viewers(alloc, command)?
        .arg(flag(alloc, "view-only", "hands on nothing of what viewers do"))?
        .arg(flag(alloc, "raw", "asks for Raw, for a server on this machine"))?
        .arg(flag(alloc, "once", "ends with the server"))
}

/// Returns where viewers connect by the options; `None` where that is no address.
fn listen_of(matches: &ArgMatches<'_>) -> Option<SocketAddr> {
    let address: IpAddr = match matches.get_str("listen") {
        Some(word) => word.parse().ok()?,
        None => IpAddr::V4(Ipv4Addr::LOCALHOST),
    };
    let port = matches.get_one("port").unwrap_or(5900);
    Some(SocketAddr::new(address, port))
}

/// Returns what is mirrored by the options, and how; `None` where the address is none. clap refuses all other numbers of viewers before.
fn options_of(matches: &ArgMatches<'_>) -> Option<MirrorOptions>
    ensures viewers { IfSome result (λ o. (1 ≤ o.viewers) × (o.viewers ≤ 1024)) }
{
    let address: SocketAddr = matches.get_str("ADDRESS:PORT")?.parse().ok()?;
    let viewers = matches.get_one::<u32>("viewers").unwrap_or(MOST_BY_ONE);
    Some(MirrorOptions {
        address,
        viewers: viewers.clamp(1, MOST_BY_ONE),
        view_only: matches.get_flag("view-only"),
        raw: matches.get_flag("raw"),
        once: matches.get_flag("once"),
    })
}

/// Returns what the options of `mirror` choose; `None` where an address is none.
fn mirror_of(alloc: Global, matches: &ArgMatches<'_>) -> Result<Option<Chosen>, AllocError>
    ensures { IfOk result (λ chosen. IfSome chosen HasViewers) }
{
    let (Some(listen), Some(options)) = (listen_of(matches), options_of(matches)) else {
        return Ok(None);
    };
    let web = web_of(alloc, matches)?;
    Ok(Some(Chosen::Mirror {
        listen,
        web,
        options,
    }))
}

/// Returns the error of a line that begins with `mirror`, and has something wrong.
fn refusal(alloc: Global, objection: &str) -> Result<Error, AllocError> {
    let mut command = mirror_command(alloc)?.bin_name("vncdemo mirror")?;
    command.error(ErrorKind::ValueValidation, objection)
}

/// Returns what a line that begins with `mirror` chooses.
pub(crate) fn mirror_line(alloc: Global, words: &[String]) -> Result<Chosen, Error>
    ensures { IfOk result HasViewers }
{
    let command = Command::new(alloc, "vncdemo")
        .version(VERSION)
        .subcommand_required(true)
        .subcommand(mirror_command(alloc)?)?;
    let matches = command.try_get_matches_from(words)?;
    let Some(matches) = matches.subcommand_matches("mirror") else {
        return Err(Error::from(AllocError));
    };
    if let Some(objection) = objection_to_names(matches) {
        return Err(refusal(alloc, objection)?);
    }
    match mirror_of(alloc, matches)? {
        Some(chosen) => Ok(chosen),
        None => Err(refusal(alloc, NO_ADDRESS)?),
    }
}

/// Says whether a line's first word behind the program's name is `mirror`.
pub(crate) fn is_mirror(words: &[String]) -> bool
    ensures { result ≡ option_map_or (λ word. bytes_eq word (codes "mirror")) (slice_get (map string_bytes words.now) 1) false }
{
    match words.get(1) {
        Some(word) => word.as_str() == "mirror",
        None => false,
    }
}
