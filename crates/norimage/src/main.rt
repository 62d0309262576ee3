//! norimage: makes the image of a bank of parallel NOR flash chips from a dump of its bytes and a query
//! table, and takes both out again.
//!
//! `main` hands the words, the files and the output to `norimage`, which does the work and carries the
//! promises: what is saved under which name, and else the status and the text of what stopped it, as
//! `specs/Ends.antt` says. `words` and `options` read the words. `work` has a body for each command, which
//! ends with the bytes to save or with the first thing that stopped it: `stop` has these things and the
//! status of each, `specs/Stops.antt` their order. `telling` puts the text. The work on banks is nor_dump's;
//! numbers are those of nor_script, refusals of a query table those of nor_show.
#![tactic(auto)]

mod drawing;
mod options;
mod program;
mod shapes;
mod stop;
mod telling;
#[cfg(test)]
mod tests;
mod words;
mod work;

use nor_io::{FsShelf, StdSink};
use std::io::ErrorKind;
use std::process::ExitCode;
use std::{env, io};

// The words after the program's name.
fn words_of(rt: &HostRuntime) -> io::Result<Vec<String>> {
    let mut words = Vec::new(rt.alloc());
    for word in env::args(rt)?.skip(1) {
        words.push(word)?;
    }
    Ok(words)
}

fn main(rt: HostRuntime) -> ExitCode {
    let alloc = rt.alloc();
    let mut shelf = FsShelf::new(&rt);
    let mut out = StdSink::new(io::writer(&rt));
    let status = match words_of(&rt) {
        Ok(words) => program::norimage(alloc, &words, &mut shelf, &mut out),
        Err(error) if error.kind() == ErrorKind::OutOfMemory => telling::say_no_memory(&mut out),
        // A word that isn't UTF-8 matches no form.
        Err(_) => program::norimage(alloc, &[], &mut shelf, &mut out),
    };
    ExitCode::from(status.code)
}
