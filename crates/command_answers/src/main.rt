//! Plays scripts, each of one table: commands and reads. Each line is given to the plain table and to the engine, and it
//! says behind each what both tell, or where they differ.
//!
//! `tests/commands.txt` has the scripts with what is wanted, worked out by hand from `docs/TABLE.md`, and says what each
//! line means; `tests/commands` makes of them what this program reads and has to write.
#![tactic(auto)]

mod asked;
mod columns;
mod growing;
mod reading;
mod rows;
mod stop;
mod tables;
mod told;
mod words;

use growing::tell_groups;
use std::io;
use std::process::ExitCode;
use stop::Stop;
use tables::Tables;
use words::cut;

/// The status where memory is refused.
const WANT_OF_MEMORY: u8 = 4;

/// The status where standard input or output fails.
const FAULT: u8 = 3;

/// The status where a line can't be read.
const UNREAD: u8 = 2;

/// Does what a line asks for.
fn act(rt: &HostRuntime, tables: &mut Tables, text: &str) -> Result<(), Stop> {
    let alloc = rt.alloc();
    let (mark, rest) = cut(text);
    let told = match mark {
        "=" => {
            *tables = Tables::begin(alloc)?;
            String::from_str(alloc, text)?
        }
        "history" => tables.history(alloc)?,
        "groups" => tell_groups(alloc, rest)?,
        _ => tables.act(alloc, text)?,
    };
    println!(rt; "{told}")?;
    Ok(())
}

/// Plays the scripts of standard input.
fn play(rt: &HostRuntime) -> Result<(), Stop> {
    let alloc = rt.alloc();
    let script = io::read_to_string(alloc, rt.reader())?;
    let mut tables = Tables::begin(alloc)?;
    for text in script.lines() {
        act(rt, &mut tables, text)?;
    }
    Ok(())
}

fn main(rt: HostRuntime) -> ExitCode {
    match play(&rt) {
        Ok(()) => ExitCode::SUCCESS,
        Err(Stop::Memory) => {
            let _ = println!(rt; "memory");
            ExitCode::from(WANT_OF_MEMORY)
        }
        Err(Stop::Fault) => ExitCode::from(FAULT),
        Err(Stop::Unread) => ExitCode::from(UNREAD),
    }
}
