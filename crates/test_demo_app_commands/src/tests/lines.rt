// What command lines choose, and what is printed where they choose nothing.

use demo_app::{Chosen, MirrorOptions, ServeOptions, WebPort, line_of};
use std::alloc::{AllocError, Global};
use std::net::SocketAddr;
use std::test::Fail;

/// What a command line comes to, as a text.
#[derive(Clone, Copy)]
enum Outcome {
    Is(&'static str),
    /// It begins so, and has these parts.
    Has(&'static str, &'static [&'static str]),
}

// Nothing is chosen, whatever is printed.
const REFUSED: Outcome = Has("refused: ", &[]);

use Outcome::{Has, Is};

// What is chosen for `serve`, as a text.
fn text_of_serve(
    alloc: Global,
    command: &str,
    port: u16,
    options: &ServeOptions,
) -> Result<String, AllocError> {
    let ServeOptions {
        width,
        height,
        name,
        limit,
        viewers,
        check,
    } = options;
    let name = str::from_utf8(name.as_slice()).unwrap_or("no text");
    format!(in alloc;
        "{command} {port}, {width} by {height}, {name}, {limit}, {viewers}, check: {check}"
    )
}

// The name of a way of serving, until its viewers have left, without end, or until standard input ends.
fn command_of(by_one: bool, forever: bool, ends_with_input: bool) -> &'static str {
    match (by_one, forever, ends_with_input) {
        (false, false, false) => "serve",
        (false, true, false) => "serve without end",
        (false, false, true) => "serve with input",
        (false, true, true) => "serve without end with input",
        (true, false, false) => "serve in one thread",
        (true, true, false) => "serve in one thread without end",
        (true, false, true) => "serve in one thread with input",
        (true, true, true) => "serve in one thread without end with input",
    }
}

// A text, and where browsers are let in behind it.
fn with_web(alloc: Global, text: String, web: &Option<WebPort>) -> Result<String, AllocError> {
    let Some(WebPort { port, let_in }) = web else {
        return Ok(text);
    };
    let hosts = str::from_utf8(let_in.hosts.as_slice()).unwrap_or("no text");
    let origins = str::from_utf8(let_in.origins.as_slice()).unwrap_or("no text");
    format!(in alloc; "{text}, browsers on {port} by '{hosts}' of '{origins}'")
}

// What is chosen, as a text.
fn text_of(alloc: Global, chosen: &Chosen) -> Result<String, AllocError> {
    match chosen {
        Chosen::Play => String::from_str(alloc, "play"),
        Chosen::Serve {
            port,
            options,
            forever,
            ends_with_input,
        } => text_of_serve(
            alloc,
            command_of(false, *forever, *ends_with_input),
            *port,
            options,
        ),
        Chosen::ServeInOneThread {
            port,
            options,
            record,
            web,
            forever,
            ends_with_input,
        } => {
            let command = command_of(true, *forever, *ends_with_input);
            let text = text_of_serve(alloc, command, *port, options)?;
            let text = with_web(alloc, text, web)?;
            match record {
                Some(file) => format!(in alloc; "{text}, recorded in {file}"),
                None => Ok(text),
            }
        }
        Chosen::Own { viewers } => format!(in alloc; "self {viewers}"),
        Chosen::OwnInOneThread { viewers } => format!(in alloc; "self in one thread {viewers}"),
        Chosen::Replay { file, asked } => format!(in alloc; "replay {file}, {asked:?}"),
        Chosen::Mirror {
            listen,
            web,
            options,
        } => {
            let text = text_of_mirror(alloc, *listen, options)?;
            with_web(alloc, text, web)
        }
    }
}

// What is chosen for `mirror`, as a text.
fn text_of_mirror(
    alloc: Global,
    listen: SocketAddr,
    options: &MirrorOptions,
) -> Result<String, AllocError> {
    let MirrorOptions {
        address,
        viewers,
        view_only,
        raw,
        once,
    } = options;
    format!(in alloc;
        "mirror {address} on {listen}, {viewers}, view only: {view_only}, raw: {raw}, once: {once}"
    )
}

// The same of a line's words, or what is printed where nothing is chosen.
fn text_of_line(alloc: Global, words: &[String]) -> Result<String, AllocError> {
    match line_of(alloc, words) {
        Ok(chosen) => text_of(alloc, &chosen),
        Err(error) => format!(in alloc; "refused: {error}"),
    }
}

// Puts a line's words, which are separated by single blanks.
fn put_words(alloc: Global, line: &str, words: &mut Vec<String>) -> Result<(), AllocError> {
    for word in line.split(' ') {
        words.push(String::from_str(alloc, word)?)?;
    }
    Ok(())
}

// Whether a line comes to what is said.
fn comes_to(alloc: Global, line: &str, outcome: &Outcome) -> Result<bool, AllocError> {
    let mut words = Vec::new(alloc);
    put_words(alloc, line, &mut words)?;
    let text = text_of_line(alloc, &words)?;
    Ok(match outcome {
        Is(wanted) => text.as_str() == *wanted,
        Has(start, parts) => {
            text.starts_with(*start) && parts.iter().all(|part| text.contains(*part))
        }
    })
}

#[test]
fn command_lines_come_to_what_they_say(rt: HostRuntime) -> Result<(), Fail> {
    for (line, outcome) in &LINES {
        assert!(rt; comes_to(rt.alloc(), line, outcome)?, "{line}");
    }
    Ok(())
}

// Each command of a script as its line is written, that the script is read whole first, and a script that works: the first one of
// `tour.txt` in `examples`, which plays it.
const HELP_OF_PLAY: &[&str] = &[
    "\nThe script is read whole before its first line runs. ",
    "\n  screen W H NAME [LIMIT]  ",
    "\n  paint X Y W H PIXELS  ",
    "\n  write X Y W H PIXELS  ",
    "\n  mark X1 Y1 X2 Y2  ",
    "\n  docopy X1 Y1 X2 Y2 DX DY  ",
    "\n  schedule X1 Y1 X2 Y2 DX DY  ",
    "\n  bell  ",
    "\n  cuttext HEX  ",
    "\n  connect V  ",
    "\n  hear V HEX  ",
    "\n  cut V  ",
    "\n  close V  ",
    "\nA script that works:\n  screen 4 3 demo\n  connect 1\n  hear 1 524642203030332e3030380a0101\n\
        \x20 hear 1 03000000000000040003\n  cut 1\n\n",
    "\nStatus: 0; 1 after a bad line or a refused screen; 2 after a refused command line,\n",
];

// The commands whose options are read by commands of their own.
const OTHER_COMMANDS: &[&str] = &[
    "\n  serve  shows ",
    "\n  self   serves ",
    "\n  replay reads ",
    "\n  mirror shows ",
];

const VIEWERS_OF_SELF: &str = " how many viewers there are, 1 to 8 [default: 2]\n";

static LINES: [(&str, Outcome); 63] = [
    ("vncdemo play", Is("play")),
    ("vncdemo", REFUSED),
    ("vncdemo --help", Has("refused: ", OTHER_COMMANDS)),
    ("vncdemo --version", Is("refused: vncdemo 0.2\n")),
    (
        "vncdemo play --help",
        Has(
            "refused: answers a script from standard input\n\nUsage: vncdemo play\n",
            HELP_OF_PLAY,
        ),
    ),
    ("vncdemo self --help", Has("refused: ", &[VIEWERS_OF_SELF])),
    ("vncdemo play --version", REFUSED),
    ("vncdemo draw", REFUSED),
    ("vncdemo play script", REFUSED),
    ("vncdemo play --loud", REFUSED),
    // the options of `serve`: none, all, and such as are refused
    (
        "vncdemo serve",
        Is("serve 5900, 640 by 480, demo, 50, 1, check: false"),
    ),
    // with an empty name
    (
        "vncdemo serve --port 5901 --width 1 --height=2 --name  --limit 3 --viewers 64 --check --one-thread",
        Is("serve in one thread 5901, 1 by 2, , 3, 64, check: true"),
    ),
    ("vncdemo serve --viewers 0", REFUSED),
    ("vncdemo serve --viewers 65", REFUSED),
    (
        "vncdemo serve --viewers 1024 --one-thread",
        Is("serve in one thread 5900, 640 by 480, demo, 50, 1024, check: false"),
    ),
    ("vncdemo serve --viewers 1025 --one-thread", REFUSED),
    ("vncdemo serve --port 65536", REFUSED),
    ("vncdemo serve --width 4294967296", REFUSED),
    ("vncdemo serve --height -1", REFUSED),
    ("vncdemo serve --limit many", REFUSED),
    ("vncdemo serve --name", REFUSED),
    // the options of `self`
    ("vncdemo self", Is("self 2")),
    ("vncdemo self --viewers 1", Is("self 1")),
    ("vncdemo self --viewers 8", Is("self 8")),
    ("vncdemo self --one-thread", Is("self in one thread 2")),
    ("vncdemo self --viewers 0", REFUSED),
    ("vncdemo self --viewers 9", REFUSED),
    ("vncdemo self --viewers two", REFUSED),
    // the options of `mirror`
    (
        "vncdemo mirror 127.0.0.1:5901",
        Is(
            "mirror 127.0.0.1:5901 on 127.0.0.1:5900, 1024, view only: false, raw: false, once: false",
        ),
    ),
    (
        "vncdemo mirror [::1]:1 --listen :: --port 0 --viewers 1 --view-only --raw --once",
        Is("mirror [::1]:1 on [::]:0, 1, view only: true, raw: true, once: true"),
    ),
    (
        "vncdemo mirror 127.0.0.1:5901 --web 5800 --host here --origin http://there",
        Is(
            "mirror 127.0.0.1:5901 on 127.0.0.1:5900, 1024, view only: false, raw: false, once: false, browsers on 5800 by 'here' of 'http://there'",
        ),
    ),
    ("vncdemo mirror", REFUSED),
    (
        "vncdemo mirror localhost:5901",
        Has("refused: ", &["an address is as 127.0.0.1:5901"]),
    ),
    ("vncdemo mirror 127.0.0.1", REFUSED),
    ("vncdemo mirror 127.0.0.1:5901 --listen here", REFUSED),
    ("vncdemo mirror 127.0.0.1:5901 --viewers 0", REFUSED),
    ("vncdemo mirror 127.0.0.1:5901 --viewers 1025", REFUSED),
    (
        "vncdemo mirror 127.0.0.1:5901 --host here",
        Has(
            "refused: error: ",
            &["'--host' and '--origin' are of browsers, which come by '--web'"],
        ),
    ),
    // records
    (
        "vncdemo serve --one-thread --record kept.txt",
        Is("serve in one thread 5900, 640 by 480, demo, 50, 1, check: false, recorded in kept.txt"),
    ),
    (
        "vncdemo serve --record kept.txt",
        Has(
            "refused: ",
            &["a session is recorded with '--one-thread' alone"],
        ),
    ),
    ("vncdemo serve --one-thread --record", REFUSED),
    // browsers
    (
        "vncdemo serve --one-thread --web 5800",
        Is(
            "serve in one thread 5900, 640 by 480, demo, 50, 1, check: false, browsers on 5800 by '' of ''",
        ),
    ),
    (
        "vncdemo serve --one-thread --web 0 --host desk.example:5800 --origin https://desk.example,null",
        Is(
            "serve in one thread 5900, 640 by 480, demo, 50, 1, check: false, browsers on 0 by 'desk.example:5800' of 'https://desk.example,null'",
        ),
    ),
    (
        "vncdemo serve --web 5800",
        Has(
            "refused: ",
            &["browsers are served with '--one-thread' alone"],
        ),
    ),
    (
        "vncdemo serve --one-thread --origin http://desk.example",
        Has(
            "refused: ",
            &["'--host' and '--origin' are of browsers, which come by '--web'"],
        ),
    ),
    ("vncdemo serve --one-thread --web 65536", REFUSED),
    // without end
    (
        "vncdemo serve --one-thread --forever --viewers 9",
        Is("serve in one thread without end 5900, 640 by 480, demo, 50, 9, check: false"),
    ),
    (
        "vncdemo serve --one-thread --forever --end-with-input",
        Is(
            "serve in one thread without end with input 5900, 640 by 480, demo, 50, 1, check: false",
        ),
    ),
    (
        "vncdemo serve --end-with-input --check",
        Is("serve with input 5900, 640 by 480, demo, 50, 1, check: true"),
    ),
    (
        "vncdemo serve --forever --end-with-input --viewers 64",
        Is("serve without end with input 5900, 640 by 480, demo, 50, 64, check: false"),
    ),
    ("vncdemo serve --forever --viewers 65", REFUSED),
    (
        "vncdemo serve --forever --check",
        Has(
            "refused: ",
            &["what '--check' judges at the end, '--forever' doesn't come to"],
        ),
    ),
    (
        "vncdemo serve --one-thread --forever --check",
        Has(
            "refused: ",
            &["what '--check' judges at the end, '--forever' doesn't come to"],
        ),
    ),
    (
        "vncdemo replay kept.txt",
        Is("replay kept.txt, Asked { question: Viewers, lines: 18446744073709551615 }"),
    ),
    (
        "vncdemo replay kept.txt --viewer 3",
        Is("replay kept.txt, Asked { question: Sent(3), lines: 18446744073709551615 }"),
    ),
    (
        "vncdemo replay --viewer 3 --picture --line 7 kept.txt",
        Is("replay kept.txt, Asked { question: Seen(3), lines: 7 }"),
    ),
    (
        "vncdemo replay kept.txt --picture",
        Is("replay kept.txt, Asked { question: Drawn, lines: 18446744073709551615 }"),
    ),
    (
        "vncdemo replay kept.txt --redacted --line 7",
        Is("replay kept.txt, Asked { question: Redacted, lines: 7 }"),
    ),
    ("vncdemo replay kept.txt --redacted --viewer 3", REFUSED),
    ("vncdemo replay kept.txt --redacted --picture", REFUSED),
    ("vncdemo replay", REFUSED),
    ("vncdemo replay kept.txt --viewer -1", REFUSED),
    ("vncdemo replay kept.txt --line last", REFUSED),
];
