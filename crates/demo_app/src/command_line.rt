//! The command line.

ghost use Rattle.std.specs.Prelude.{◌≡◌, ◌∷◌, [], List, ℕ, false, IfErr, IsErr, IfOk, map, codes, slice_get, string_bytes};
ghost use Rattle.std.specs.Option.{option_map_or};
ghost use Rattle.std.specs.Str.{bytes_eq};
ghost use Rattle.clap.specs.Values.{kind_of};
ghost use Rattle.demo_app.specs.CommandLine.{HasViewers};
ghost use Rattle.demo_app.specs.declared.command_line.Chosen.TheVariants as chosen;

use crate::mirror_line::{is_mirror, mirror_line};
use crate::serve::ServeOptions;
use clap::error::ErrorKind;
use clap::{Arg, ArgAction, ArgMatches, Command, Error, value_parser};
use event_loop::LetIn;
use listed::Listed;
use mirror::MirrorOptions;
use replay::{Asked, Question};
use std::alloc::{AllocError, Global};
use std::net::SocketAddr;

/// The port for browsers, and who is let in there.
#[derive(Drop)]
pub struct WebPort {
    /// The port.
    pub port: u16,
    /// The hosts and the origins that requests may have, besides this machine's.
    pub let_in: LetIn,
}

/// What the program is asked to do.
#[derive(Drop)]
pub enum Chosen {
    /// A script is read from standard input and answered on standard output.
    Play,
    /// Viewers are served on a port of 127.0.0.1, by two threads each; the server may take viewers without end, and end with standard input.
    Serve {
        port: u16,
        options: ServeOptions,
        forever: bool,
        ends_with_input: bool,
    },
    /// The same, by one thread for all, which may record the session in a new file, and let browsers in at a port of their own.
    ServeInOneThread {
        port: u16,
        options: ServeOptions,
        record: Option<String>,
        web: Option<WebPort>,
        forever: bool,
        ends_with_input: bool,
    },
    /// A server with threads and so many viewers run in one process.
    Own {
        viewers: u32,
    },
    /// The same, with a server in one thread.
    OwnInOneThread {
        viewers: u32,
    },
    /// A recorded session is read from a file.
    Replay {
        file: String,
        asked: Asked,
    },
    /// Another server's picture is served on an address.
    Mirror {
        listen: SocketAddr,
        web: Option<WebPort>,
        options: MirrorOptions,
    },
}

/// The version that `--version` prints.
pub const VERSION: &str = "0.2";

/// What `play --help` says of the script, behind the usage.
const SCRIPT_HELP: &str = "\
The script is read whole before its first line runs. Empty lines, and lines that
begin with #, are skipped and counted. The other lines, of which screen is first:
  screen W H NAME [LIMIT]     a screen; LIMIT is 50 where it is left out
  paint X Y W H PIXELS        draws; PIXELS is RRGGBB for each place, or one for all
  write X Y W H PIXELS        the same, and tells no viewer
  mark X1 Y1 X2 Y2            owes a rectangle to every viewer
  docopy X1 Y1 X2 Y2 DX DY    copies to a rectangle from DX, DY before it
  schedule X1 Y1 X2 Y2 DX DY  tells the viewers of such a copy
  bell                        a bell for every open viewer
  cuttext HEX                 a text for every open viewer
  resize W H                  a new framebuffer of that size, all black
  connect V                   viewer V connects
  hear V HEX                  the server hears bytes of V
  cut V                       an update is cut for V
  close V                     V's connection is closed

A script that works:
  screen 4 3 demo
  connect 1
  hear 1 524642203030332e3030380a0101
  hear 1 03000000000000040003
  cut 1

Status: 0; 1 after a bad line or a refused screen; 2 after a refused command line,
and after this text; 3 after want of memory; 5 after a read or a write that failed,
and after a script of more than 2^24 bytes.";

/// What `serve --help` says of the viewers, behind the usage.
const SERVE_HELP: &str = "\
Viewers connect to 127.0.0.1, with security type None. A pointer whose first button is
down paints its place white, a key that goes down rings the bell, and a text is sent
back. The server ends once so many viewers have connected and left; then it prints a
line for each, and with --check whether each was sent what it was to be sent, or the
beginning of it where its connection broke. With --forever it goes on, and prints none.
With --end-with-input it lets its viewers go and ends once standard input does, as by
Ctrl-D; no signal does that.
What is served, and on which port, stands on standard error at the start. A connection
too many is told so and closed, and one that takes 10 seconds for its opening is closed.

With --web browsers connect to a port of their own, by WebSockets, as noVNC does. Their
page is of the same host and port, as by a proxy, or of an --origin; and it names the
server as 127.0.0.1, localhost or [::1], or as a --host.

With --record all that happens to the screen is written to a new file, as a session:
pictures, keys, pointers and texts. `vncdemo replay` reads it.

In two terminals:
  vncdemo serve --port 5901
  vncviewer 127.0.0.1::5901

Status: 0; 1 after a refused screen; 2 after a refused command line, and after this
text; 3 after want of memory; 4 after a check that failed; 5 after a network fault, as
of a port that is in use, after a write that failed, where FILE can't be made, and where
the record broke.";

/// What `self --help` says of the run, behind the usage.
const OWN_HELP: &str = "\
A server and its viewers run in one process, over loopback. Once every viewer is open, a
picture is drawn; then each viewer asks for everything, takes one update and leaves. It
prints `viewer V shows the screen` for each, and then `finish ok`, which says that each
viewer was sent what it was to be sent, or the beginning of it where its connection broke.

Status: 0; 2 after a refused command line, and after this text; 3 after want of memory;
4 where a viewer doesn't show the screen, or the check failed; 5 after a network fault,
and after a write that failed.";

/// What `--help` says of the commands but `play`, whose options are read by commands of their own.
const OTHER_HELP: &str =
    "  serve  shows a screen to viewers over TCP; `vncdemo serve --help` tells its options
  self   serves viewers of its own; `vncdemo self --help` tells its options
  replay reads a recorded session; `vncdemo replay --help` tells its options
  mirror shows another server's picture; `vncdemo mirror --help` tells its options";

/// What is said to more viewers than threads serve.
const TOO_MANY: &str = "more than 64 viewers are served by '--one-thread' alone";

/// What is said where threads are to record.
const NO_THREADS: &str = "a session is recorded with '--one-thread' alone";

/// What is said where threads are to serve browsers.
const NO_BROWSERS: &str = "browsers are served with '--one-thread' alone";

/// What is said where names are let in at no port.
const NO_PORT: &str = "'--host' and '--origin' are of browsers, which come by '--web'";

/// What is said where a run without end is to be judged at its end.
const NO_END: &str = "what '--check' judges at the end, '--forever' doesn't come to";

/// What `replay --help` says, behind the usage.
const REPLAY_HELP: &str = "\
FILE is what `serve --record` wrote. Without an option it prints a line for each viewer,
with the lines of its first event and of its last one, and how much it was given:
  viewer V lines A B encoding E bits N heard N updates N sent N END
With --viewer it writes the very bytes that the viewer was given: it was sent them, but for
what still waited at its end. With --picture it writes a pixmap (PPM): what the viewer
shows by these, or what was drawn. With --redacted it writes the session again, with zeros
for what viewers typed, pointed at and copied: each viewer is given the same by it. What
the application drew stays, also what it drew for an input, and so do its own texts. What
stands behind the last line feed is left out: it may be the beginning of a line.

Status: 0; 1 after a line that says nothing that a session may say there, as is told on
standard error; 2 after a refused command line, and after this text; 3 after want of
memory; 5 where FILE can't be read, after a write that failed, and after a line of more
than 2^27 bytes.";

/// Returns an option that takes a value.
pub(crate) fn option<'a>(alloc: Global, name: &'a str, help: &'a str) -> Arg<'a> {
    Arg::new(alloc, name).long(name).help(help)
}

/// Returns an option that takes none.
pub(crate) fn flag<'a>(alloc: Global, name: &'a str, help: &'a str) -> Arg<'a> {
    option(alloc, name, help).action(ArgAction::SetTrue)
}

/// Returns the option that is for `serve` and for `self`.
fn one_thread_option<'a>(alloc: Global) -> Arg<'a> {
    flag(
        alloc,
        "one-thread",
        "serves all viewers in one thread, by an event loop",
    )
}

/// Returns an option that takes a number of places, rows or rectangles.
fn number<'a>(alloc: Global, name: &'a str, help: &'a str, default: &'a str) -> Arg<'a> {
    option(alloc, name, help)
        .value_parser(value_parser!(u32))
        .default_value(default)
}

/// Adds the options of `serve` that say which screen is shown, and on which port.
fn with_screen<'a>(alloc: Global, command: Command<'a>) -> Result<Command<'a>, AllocError> {
    let port = option(alloc, "port", "the port").value_parser(value_parser!(u16));
    let height = "rows of the screen, 1 to 8192; at most 2^24 places in all";
    let name = "the desktop's name, at most 255 bytes";
    command
        .arg(port.default_value("5900"))?
        .arg(number(alloc, "width", "columns of the screen, 1 to 8192", "640"))?
        .arg(number(alloc, "height", height, "480"))?
        .arg(option(alloc, "name", name).default_value("demo"))?
        .arg(number(alloc, "limit", "rectangles in an update, 1 to 1000", "50"))
}

/// Adds those that say to whom it is shown and until when, and what is kept of that.
fn with_viewers<'a>(alloc: Global, command: Command<'a>) -> Result<Command<'a>, AllocError> {
    let viewers = option(
        alloc,
        "viewers",
        "how many viewers are served, 1 to 64; with --one-thread to 1024",
    )
    .value_parser(value_parser!(u32).range(1..=1024))
    .default_value("1");
    let check = "keeps what was drawn, heard and sent, and judges it at the end";
    let forever = "takes viewers without end, at most --viewers at once";
    let record =
        "a new file that the session is recorded in, with --one-thread: pictures, and what is typed";
    command
        .arg(viewers)?
        .arg(flag(alloc, "check", check))?
        .arg(flag(alloc, "forever", forever))?
        .arg(flag(alloc, "end-with-input", "ends once standard input does"))?
        .arg(option(alloc, "record", record))?
        .arg(one_thread_option(alloc))
}

/// Adds those that say where browsers connect, with a help for the first, and who is let in.
pub(crate) fn with_web<'a>(
    alloc: Global,
    command: Command<'a>,
    help: &'a str,
) -> Result<Command<'a>, AllocError> {
    let host = "names of the server besides this machine's, with commas in between";
    let origin = "origins whose pages are let in besides the server's own, likewise";
    command
        .arg(option(alloc, "web", help).value_parser(value_parser!(u16)))?
        .arg(option(alloc, "host", host))?
        .arg(option(alloc, "origin", origin))
}

/// Returns the command `serve`.
fn serve_command<'a>(alloc: Global) -> Result<Command<'a>, AllocError> {
    let command = Command::new(alloc, "serve")
        .about("shows a screen to viewers over TCP")
        .after_help(SERVE_HELP);
    let command = with_viewers(alloc, with_screen(alloc, command)?)?;
    with_web(
        alloc,
        command,
        "a port for browsers, by WebSockets, with --one-thread",
    )
}

/// How many viewers threads serve, and one thread, at most.
const MOST_BY_THREADS: u32 = 64;

pub(crate) const MOST_BY_ONE: u32 = 1024;

/// Returns how many viewers the options of `serve` ask for.
fn viewers_of(matches: &ArgMatches<'_>) -> u32 {
    matches.get_one("viewers").unwrap_or(1)
}

/// Returns what the options of `serve` say of the screen, for so many `viewers`.
fn options_of(
    alloc: Global,
    matches: &ArgMatches<'_>,
    viewers: u32,
) -> Result<ServeOptions, AllocError>
    ensures { IfOk result (λ o. o.viewers ≡ viewers) }
{
    let name = matches.get_str("name").unwrap_or("demo");
    Ok(ServeOptions {
        width: matches.get_one("width").unwrap_or(640),
        height: matches.get_one("height").unwrap_or(480),
        name: Listed::from_slice(alloc, name.as_bytes())?,
        limit: matches.get_one("limit").unwrap_or(50),
        viewers,
        check: matches.get_flag("check"),
    })
}

/// Returns the file in which the options of `serve` have the session recorded, or `None` if they name none.
fn record_of(alloc: Global, matches: &ArgMatches<'_>) -> Result<Option<String>, AllocError> {
    match matches.get_str("record") {
        Some(path) => Ok(Some(String::from_str(alloc, path)?)),
        None => Ok(None),
    }
}

/// Returns a list of names that an option has, or an empty one.
fn names_of(alloc: Global, matches: &ArgMatches<'_>, name: &str) -> Result<Listed<u8>, AllocError> {
    Listed::from_slice(alloc, matches.get_str(name).unwrap_or("").as_bytes())
}

/// Returns the port at which options let browsers in, or `None` if they name none.
pub(crate) fn web_of(
    alloc: Global,
    matches: &ArgMatches<'_>,
) -> Result<Option<WebPort>, AllocError> {
    let Some(port) = matches.get_one::<u16>("web") else {
        return Ok(None);
    };
    let let_in = LetIn {
        hosts: names_of(alloc, matches, "host")?,
        origins: names_of(alloc, matches, "origin")?,
    };
    Ok(Some(WebPort { port, let_in }))
}

/// Returns what the options of `serve` choose. clap and `objection` refuse all other numbers of viewers before.
fn serve_of(alloc: Global, matches: &ArgMatches<'_>) -> Result<Chosen, AllocError>
    ensures { IfOk result HasViewers }
{
    let port = matches.get_one("port").unwrap_or(5900);
    let viewers = viewers_of(matches);
    let forever = matches.get_flag("forever");
    let ends_with_input = matches.get_flag("end-with-input");
    if matches.get_flag("one-thread") {
        let options = options_of(alloc, matches, viewers.clamp(1, MOST_BY_ONE))?;
        let record = record_of(alloc, matches)?;
        let web = web_of(alloc, matches)?;
        return Ok(Chosen::ServeInOneThread {
            port,
            options,
            record,
            web,
            forever,
            ends_with_input,
        });
    }
    let options = options_of(alloc, matches, viewers.clamp(1, MOST_BY_THREADS))?;
    Ok(Chosen::Serve {
        port,
        options,
        forever,
        ends_with_input,
    })
}

/// Returns what is wrong where browsers are named, and no port is for them.
pub(crate) fn objection_to_names(matches: &ArgMatches<'_>) -> Option<&'static str> {
    let has_names = matches.get_str("host").is_some() || matches.get_str("origin").is_some();
    let has_port = matches.get_one::<u16>("web").is_some();
    (has_names && !has_port).then_some(NO_PORT)
}

/// Returns what is wrong with options of `serve` that are of browsers.
fn objection_to_web(matches: &ArgMatches<'_>) -> Option<&'static str> {
    if matches.get_one::<u16>("web").is_some() && !matches.get_flag("one-thread") {
        return Some(NO_BROWSERS);
    }
    objection_to_names(matches)
}

/// Returns what is wrong with options of `serve` of which each is fine alone, or `None` if they are fine together.
fn objection(matches: &ArgMatches<'_>) -> Option<&'static str> {
    let by_threads = !matches.get_flag("one-thread");
    if by_threads && viewers_of(matches) > MOST_BY_THREADS {
        return Some(TOO_MANY);
    }
    if by_threads && matches.get_str("record").is_some() {
        return Some(NO_THREADS);
    }
    if matches.get_flag("forever") && matches.get_flag("check") {
        return Some(NO_END);
    }
    objection_to_web(matches)
}

/// Returns what a line that begins with `serve` chooses.
fn serve_line(alloc: Global, words: &[String]) -> Result<Chosen, Error>
    ensures { IfOk result HasViewers }
{
    let command = Command::new(alloc, "vncdemo")
        .version(VERSION)
        .subcommand_required(true)
        .subcommand(serve_command(alloc)?)?;
    let matches = command.try_get_matches_from(words)?;
    let Some(matches) = matches.subcommand_matches("serve") else {
        return Err(Error::from(AllocError));
    };
    if let Some(objection) = objection(matches) {
        let mut command = serve_command(alloc)?.bin_name("vncdemo serve")?;
        return Err(command.error(ErrorKind::ValueValidation, objection)?);
    }
    Ok(serve_of(alloc, matches)?)
}

/// Returns the command `self`.
fn own_command<'a>(alloc: Global) -> Result<Command<'a>, AllocError> {
    let viewers = option(alloc, "viewers", "how many viewers there are, 1 to 8")
        .value_parser(value_parser!(u32).range(1..=8))
        .default_value("2");
    Command::new(alloc, "self")
        .about("serves viewers of its own, and says what they show")
        .after_help(OWN_HELP)
        .arg(viewers)?
        .arg(one_thread_option(alloc))
}

/// Returns what the options of `self` choose. clap refuses all other numbers, and says so.
fn own_of(matches: &ArgMatches<'_>) -> Chosen
    ensures { HasViewers result }
{
    let viewers = matches.get_one::<u32>("viewers").unwrap_or(2).clamp(1, 8);
    if matches.get_flag("one-thread") {
        Chosen::OwnInOneThread { viewers }
    } else {
        Chosen::Own { viewers }
    }
}

/// Returns what a line that begins with `self` chooses.
fn own_line(alloc: Global, words: &[String]) -> Result<Chosen, Error>
    ensures { IfOk result HasViewers }
{
    let command = Command::new(alloc, "vncdemo")
        .version(VERSION)
        .subcommand_required(true)
        .subcommand(own_command(alloc)?)?;
    let matches = command.try_get_matches_from(words)?;
    match matches.subcommand_matches("self") {
        Some(matches) => Ok(own_of(matches)),
        None => Err(Error::from(AllocError)),
    }
}

/// Returns the option that `--viewer` and `--picture` go ill with.
fn redacted_option<'a>(alloc: Global) -> Result<Arg<'a>, AllocError> {
    flag(
        alloc,
        "redacted",
        "writes the session without what was typed, pointed at and copied",
    )
    .conflicts_with("viewer")?
    .conflicts_with("picture")
}

/// Returns the command `replay`.
fn replay_command<'a>(alloc: Global) -> Result<Command<'a>, AllocError> {
    let file = Arg::new(alloc, "FILE").help("the file of the session");
    Command::new(alloc, "replay")
        .about("replays a session that was recorded")
        .after_help(REPLAY_HELP)
        .arg(file.required(true))?
        .arg(option(alloc, "viewer", "the number of a viewer").value_parser(value_parser!(u64)))?
        .arg(option(alloc, "line", "the last line that is read").value_parser(value_parser!(u64)))?
        .arg(flag(alloc, "picture", "writes a picture"))?
        .arg(redacted_option(alloc)?)
}

/// Returns what the options of `replay` ask.
fn question_of(matches: &ArgMatches<'_>) -> Question {
    if matches.get_flag("redacted") {
        return Question::Redacted;
    }
    match (matches.get_one("viewer"), matches.get_flag("picture")) {
        (Some(viewer), true) => Question::Seen(viewer),
        (Some(viewer), false) => Question::Sent(viewer),
        (None, true) => Question::Drawn,
        (None, false) => Question::Viewers,
    }
}

/// Returns what the options of `replay` choose.
fn replay_of(alloc: Global, matches: &ArgMatches<'_>) -> Result<Chosen, AllocError>
    ensures { IfOk result HasViewers }
{
    let file = String::from_str(alloc, matches.get_str("FILE").unwrap_or("-"))?;
    let asked = Asked {
        question: question_of(matches),
        lines: matches.get_one("line").unwrap_or(u64::MAX),
    };
    Ok(Chosen::Replay { file, asked })
}

/// Returns what a line that begins with `replay` chooses.
fn replay_line(alloc: Global, words: &[String]) -> Result<Chosen, Error>
    ensures { IfOk result HasViewers }
{
    let command = Command::new(alloc, "vncdemo")
        .version(VERSION)
        .subcommand_required(true)
        .subcommand(replay_command(alloc)?)?;
    let matches = command.try_get_matches_from(words)?;
    match matches.subcommand_matches("replay") {
        Some(matches) => Ok(replay_of(alloc, matches)?),
        None => Err(Error::from(AllocError)),
    }
}

/// Returns what each other line chooses.
fn other_line(alloc: Global, words: &[String]) -> Result<Chosen, Error>
    ensures play { (program : List ℕ) → map string_bytes words.now ≡ program ∷ codes "play" ∷ [] →
        IfErr result (λ e. kind_of e ≡ ErrorKind.OutOfMemory) }
    ensures alone { (program : List ℕ) → map string_bytes words.now ≡ program ∷ [] → IsErr result }
    ensures chosen { IfOk result (λ c. c ≡ chosen.Play) }
{
    let play = Command::new(alloc, "play")
        .about("answers a script from standard input")
        .after_help(SCRIPT_HELP);
    let command = Command::new(alloc, "vncdemo")
        .about("a server of remote framebuffers")
        .after_help(OTHER_HELP)
        .version(VERSION)
        .subcommand_required(true)
        .arg_required_else_help(true)
        .subcommand(play)?;
    let _matches = command.try_get_matches_from(words)?;
    Ok(Chosen::Play)
}

/// Says whether a line's first word behind the program's name is `serve`.
fn is_serve(words: &[String]) -> bool
    ensures { result ≡ option_map_or (λ word. bytes_eq word (codes "serve")) (slice_get (map string_bytes words.now) 1) false }
{
    match words.get(1) {
        Some(word) => word.as_str() == "serve",
        None => false,
    }
}

/// Says whether that word is `self`.
fn is_self(words: &[String]) -> bool
    ensures { result ≡ option_map_or (λ word. bytes_eq word (codes "self")) (slice_get (map string_bytes words.now) 1) false }
{
    match words.get(1) {
        Some(word) => word.as_str() == "self",
        None => false,
    }
}

/// Says whether that word is `replay`.
fn is_replay(words: &[String]) -> bool
    ensures { result ≡ option_map_or (λ word. bytes_eq word (codes "replay")) (slice_get (map string_bytes words.now) 1) false }
{
    match words.get(1) {
        Some(word) => word.as_str() == "replay",
        None => false,
    }
}

/// Returns what a command line chooses; its first word is the program's name. An error's text is what is to be printed,
/// of `--help` and `--version` too.
pub fn line_of(alloc: Global, words: &[String]) -> Result<Chosen, Error>
    // `play` is refused for want of memory alone, and a line without a command always.
    ensures play { (program : List ℕ) → map string_bytes words.now ≡ program ∷ codes "play" ∷ [] →
        IfErr result (λ e. kind_of e ≡ ErrorKind.OutOfMemory) }
    ensures alone { (program : List ℕ) → map string_bytes words.now ≡ program ∷ [] → IsErr result }
    ensures viewers { IfOk result HasViewers }
{
    if is_serve(words) {
        serve_line(alloc, words)
    } else if is_self(words) {
        own_line(alloc, words)
    } else if is_replay(words) {
        replay_line(alloc, words)
    } else if is_mirror(words) {
        mirror_line(alloc, words)
    } else {
        other_line(alloc, words)
    }
}
