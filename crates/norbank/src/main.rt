//! norbank: reads and programs banks of parallel NOR flash chips from their images.
//!
//! `main` hands the words, the files and the output to `norbank`, which does the work and carries the
//! promises: how each command ends, with which text and status, by the words and the bytes of the
//! files, as `specs/Does.antt` and `specs/AsAsked.antt` say. It races a script itself and hands every other
//! command to `quiet`, which waits for nobody. `words` reads the words. Each command has a body of its own in
//! `read`, `show`, `run` and `drill`, which ends with what was done or with the first thing that stopped it: `stop`
//! has these things and the status of each, `specs/Stops.antt` their order. They share `open`, which loads
//! files and makes banks of them, and `jobs`, which takes the bank and the script of a run or a race. `telling`
//! puts the text of what stopped a command. It stands on nor_image for the file, on nor_probe, nor_show and
//! nor_bank for the bank, on nor_script, nor_run and nor_race for scripts, on nor_drill for drills, and on nor_io
//! for files and output.
#![tactic(auto)]

mod drill;
mod emptying;
mod jobs;
mod open;
mod printing;
mod program;
mod quiet;
mod read;
mod run;
mod show;
mod stop;
mod telling;
#[cfg(test)]
mod tests;
mod words;

use nor_buffer::Buffered;
use nor_io::{FsShelf, StdSink};
use nor_race::OpenGate;
use std::io::ErrorKind;
use std::process::ExitCode;
use std::{env, io};

// The words after the program's name.
fn words_of(rt: &HostRuntime) -> io::Result<Vec<String>> {
    let mut words = Vec::new(rt.alloc());
    for word in env::args(rt)?.skip(1) {
        words.push(word)?;
    }
    Ok(words)
}

fn main(rt: HostRuntime) -> ExitCode {
    let alloc = rt.alloc();
    let mut shelf = FsShelf::new(&rt);
    let mut out = Buffered::new(StdSink::new(io::writer(&rt)));
    let status = match words_of(&rt) {
        Ok(words) => program::norbank(&rt, alloc, &words, &mut shelf, &mut out, &OpenGate),
        Err(error) if error.kind() == ErrorKind::OutOfMemory => {
            let status = telling::say_no_memory(&mut out);
            emptying::said(status, &mut out)
        }
        // A word that isn't UTF-8 matches no form.
        Err(_) => program::norbank(&rt, alloc, &[], &mut shelf, &mut out, &OpenGate),
    };
    ExitCode::from(status.code)
}
