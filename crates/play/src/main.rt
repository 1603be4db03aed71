//! Plays a script from standard input and answers it on standard output: `vncdemo play`, as a program that is built in half the time.
//! The status is that of `play_over`; 3 also where there is no memory for the output's buffer.
#![tactic(auto)]

use play_script::play_over;
use std::io;
use std::io::BufWriter;
use std::process::ExitCode;

fn main(rt: HostRuntime) -> ExitCode {
    let alloc = rt.alloc();
    let Ok(mut writer) = BufWriter::new(alloc, io::writer(&rt)) else {
        return ExitCode::from(3);
    };
    let status = play_over(alloc, &mut rt.reader(), &mut writer);
    // After a write fault nothing more is written: what the buffer holds is let go.
    let _ = writer.into_parts();
    ExitCode::from(status)
}
