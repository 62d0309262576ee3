//! `run` and `race`: a script on a bank, by one thread or by one for each caller.
ghost use Rattle.std.specs.Prelude.{◌≡◌, ◌≤◌, true, false, IsOk};
ghost use Rattle.nor_image.specs.Loaded.{bus_of, loaded_width};
ghost use Rattle.nor_run.specs.Scripts.{IsLoaded, HasRoom};
ghost use Rattle.nor_script.specs.Racing.{IsRaceScript};
ghost use Rattle.nor_script.specs.Script.{IsScript};
ghost use Rattle.norbank.specs.Does.{Does, Saved};
ghost use Rattle.norbank.specs.Opened.{RunsJob};
ghost use Rattle.norbank.specs.Words.{Script as ScriptAsked};

use crate::emptying::reported;
use crate::jobs::{Job, job_of};
use crate::stop::{Done, Stop};
use nor_buffer::Output;
use nor_image::Loaded;
use nor_io::Shelf;
use nor_race::{Gate, race_image};
use nor_run::{Ran, run_image};
use nor_script::Script;
use std::alloc::Global;
use std::sync::Wait;
use std::thread::Threads;

// Saves the bank under its name.
fn save<H: Shelf>(name: &str, file: &[u8], ran: Ran, shelf: &mut H) -> Result<Done, Stop>
    ensures saved { Saved name.now file.now ran (H.state shelf.old) (H.state shelf.new) result }
{
    shelf.save(name, file)?;
    Ok(Done::of_run(ran))
}

// Runs the script of a job on its bank, and saves the bank under its name.
fn run_job<H: Shelf, K: Output>(
    name: &str,
    file: &mut [u8],
    loaded: Loaded,
    script: &Script,
    shelf: &mut H,
    out: &mut K,
) -> Result<Done, Stop>
    requires loaded { IsLoaded loaded }
    requires room { HasRoom file.old loaded }
    requires script { IsScript script.now }
    ensures runs { RunsJob false (loaded_width loaded) script.now (bus_of loaded) name.now
        (H.state shelf.old) (H.state shelf.new) (K.state out.old) (K.state out.new) result }
    ensures emptied { IsOk result → K.out out.new ≡ (K.state out.new).taken }
    ensures later { (K.state out.old).faults ≤ (K.state out.new).faults }
{
    let ran = run_image(loaded, file, script.lines(), out);
    let ran = reported(ran, out)?;
    save(name, file, ran, shelf)
}

/// Runs the script under one name on the bank that the file under another stands for, puts the report,
/// and saves the bank under its name.
pub fn run<H: Shelf, K: Output>(
    alloc: Global,
    image: &str,
    script: &str,
    shelf: &mut H,
    out: &mut K,
) -> Result<Done, Stop>
    ensures does { Does (ScriptAsked false image.now script.now)
        (H.state shelf.old) (H.state shelf.new) (K.state out.old) (K.state out.new) result }
    ensures emptied { IsOk result → K.out out.new ≡ (K.state out.new).taken }
    ensures later { (K.state out.old).faults ≤ (K.state out.new).faults }
{
    let job = job_of(alloc, image, script, false, shelf)?;
    let Job {
        file,
        loaded,
        script,
    } = job;
    let mut file = file;
    run_job(image, &mut file, loaded, &script, shelf, out)
}

// Races the script of a job for its bank, and saves the bank under its name.
fn race_job<R: Threads + Wait + Sync, H: Shelf, K: Output, G: Gate + Sync>(
    rt: &R,
    alloc: Global,
    name: &str,
    file: &mut [u8],
    loaded: Loaded,
    script: &Script,
    shelf: &mut H,
    out: &mut K,
    gate: &G,
) -> Result<Done, Stop>
    requires loaded { IsLoaded loaded }
    requires room { HasRoom file.old loaded }
    requires script { IsRaceScript script.now }
    ensures runs { RunsJob true (loaded_width loaded) script.now (bus_of loaded) name.now
        (H.state shelf.old) (H.state shelf.new) (K.state out.old) (K.state out.new) result }
    ensures emptied { IsOk result → K.out out.new ≡ (K.state out.new).taken }
    ensures later { (K.state out.old).faults ≤ (K.state out.new).faults }
{
    let ran = race_image(rt, alloc, loaded, file, script, gate, out);
    let ran = reported(ran, out)?;
    save(name, file, ran, shelf)
}

/// Races the script under one name for the bank that the file under another stands for, puts the report,
/// and saves the bank under its name.
pub fn race<R: Threads + Wait + Sync, H: Shelf, K: Output, G: Gate + Sync>(
    rt: &R,
    alloc: Global,
    image: &str,
    script: &str,
    shelf: &mut H,
    out: &mut K,
    gate: &G,
) -> Result<Done, Stop>
    ensures does { Does (ScriptAsked true image.now script.now)
        (H.state shelf.old) (H.state shelf.new) (K.state out.old) (K.state out.new) result }
    ensures emptied { IsOk result → K.out out.new ≡ (K.state out.new).taken }
    ensures later { (K.state out.old).faults ≤ (K.state out.new).faults }
{
    let job = job_of(alloc, image, script, true, shelf)?;
    let Job {
        file,
        loaded,
        script,
    } = job;
    let mut file = file;
    race_job(
        rt, alloc, image, &mut file, loaded, &script, shelf, out, gate,
    )
}
