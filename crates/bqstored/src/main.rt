//! The program `bqstored`: BigQuery's bulk interface over typed tables in memory.
//!
//! Its commands stand in the crate `program`; here is the process around them: its words, its standard input and output,
//! its sockets and its clock.
#![tactic(auto)]

use links::{OpenGate, StdLink, SystemClock};
use net_edge::TcpDoor;
use outside::{StdSink, StdSource};
use program::{USAGE, WANT_OF_MEMORY, run};
use std::io::ErrorKind;
use std::process::ExitCode;
use std::{env, io};

/// The words behind the program's name.
fn given_words(rt: &HostRuntime) -> io::Result<Vec<String>> {
    Ok(env::args(rt)?.skip(1).collect(rt.alloc())?)
}

/// The status where the words can't be had.
fn status_without_words(fault: &io::Error) -> u8 {
    if fault.kind() == ErrorKind::OutOfMemory {
        WANT_OF_MEMORY
    } else {
        USAGE
    }
}

/// Runs the command of the words over standard input and output and the machine's sockets, by its clock.
fn main(rt: HostRuntime) -> ExitCode {
    let alloc = rt.alloc();
    let pipe = StdLink::new(alloc, rt.reader(), io::writer(&rt));
    let status = match (given_words(&rt), pipe) {
        (Ok(words), Ok(mut pipe)) => {
            let mut door = TcpDoor::new(&rt, alloc);
            let mut clock = SystemClock::new(&rt);
            let mut input = StdSource::new(rt.reader());
            let mut out = StdSink::new(io::writer(&rt));
            run(
                &rt,
                alloc,
                words.as_slice(),
                &mut door,
                &mut pipe,
                &mut clock,
                &OpenGate,
                &mut input,
                &mut out,
            )
        }
        (Err(fault), _) => status_without_words(&fault),
        (Ok(_), Err(_)) => WANT_OF_MEMORY,
    };
    if status != 0 {
        let _ = eprintln!(rt; "bqstored: status {status}");
    }
    ExitCode::from(status)
}
