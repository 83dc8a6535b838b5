//! Plays scripts, each of one HTTP/2 connection: the client's bytes, and what the server's caller gives. It says behind
//! each line what the connection tells and which frames it writes.
//!
//! `tests/connections.txt` has the scripts with what is wanted, worked out by hand from the standard, and says what each
//! line means; `tests/connections` makes of them what this program reads and has to write.
#![tactic(auto)]

mod answers;
mod events;
mod lines;
mod session;
mod spelled;
mod stop;
mod told;

use lines::line_of;
use session::Session;
use std::io;
use std::process::ExitCode;
use stop::Stop;
use told::Told;

/// The status where memory is refused.
const WANT_OF_MEMORY: u8 = 4;

/// The status where standard input or output fails.
const FAULT: u8 = 3;

/// Plays the scripts of standard input.
fn play(rt: &HostRuntime) -> Result<(), Stop> {
    let alloc = rt.alloc();
    let script = io::read_to_string(alloc, rt.reader())?;
    let mut session = Session::begin(alloc)?;
    let mut told = Told::new(rt);
    for text in script.lines() {
        session.act(alloc, &mut told, line_of(text), text)?;
        told.flush()?;
    }
    Ok(())
}

fn main(rt: HostRuntime) -> ExitCode {
    match play(&rt) {
        Ok(()) => ExitCode::SUCCESS,
        Err(Stop::Memory) => {
            let _ = println!(rt; "memory");
            ExitCode::from(WANT_OF_MEMORY)
        }
        Err(Stop::Fault) => ExitCode::from(FAULT),
    }
}
