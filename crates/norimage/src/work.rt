//! The work of each command: the bytes to save, or what stops it.
ghost use Rattle.std.specs.Prelude.{◌≡◌, ◌≤◌, ◌^◌, ◌⊎◌, ℕ, List, IfOk, IfErr, OnOk, IfSome, IsTrue, Some, None, length};
ghost use Rattle.std.specs.Option.{option_map};
ghost use Rattle.nor_cell.specs.Wiring.{is_wiring};
ghost use Rattle.nor_dump.specs.Changes.{change_error};
ghost use Rattle.nor_query.specs.Checks.{first_error};
ghost use Rattle.norimage.specs.Ends.{FailsLoad, IsLoaded, Gives, Stops, StopsBy, IsTableIn, IsRawIn, IsMadeIn, IsToldIn};
ghost use Rattle.norimage.specs.Options.{changes_of as changes_in};
ghost use Rattle.norimage.specs.Stops.{first_some, table_stops, raw_stops, bank_stops};
ghost use Rattle.norimage.specs.Words.{Make as MakeAsked, Raw as RawAsked, Table as TableAsked, Draw as DrawAsked, asked_by};

use crate::drawing;
use crate::options::changes_of;
use crate::stop::{File, Stop};
use crate::words::Command;
use nor_cell::{Device, Geometry, make_geometry};
use nor_dump::{Change, Survey, check, chip_len, dump, lane_table, make_bank, survey_of, table_of};
use nor_io::Shelf;
use std::alloc::Global;

/// The bytes of a file that a command names.
fn load<H: Shelf>(alloc: Global, file: File, name: &str, shelf: &mut H) -> Result<Vec<u8>, Stop>
    ensures loaded { IfOk result (λ bytes. IsLoaded (H.state shelf.old) name.now bytes.items) }
    ensures stops { IfErr result (FailsLoad file name.now (H.state shelf.old) (H.state shelf.new)) }
    ensures same { (H.state shelf.new).files ≡ (H.state shelf.old).files }
    ensures later { (H.state shelf.old).faults ≤ (H.state shelf.new).faults }
{
    match shelf.load(alloc, name) {
        Ok(bytes) => Ok(bytes),
        Err(error) => Err(Stop::of_load(file, error)),
    }
}

/// The bytes of the bank that the file under a name stands for.
fn raw<H: Shelf>(alloc: Global, image: &str, shelf: &mut H) -> Result<Vec<u8>, Stop>
    ensures gives { IfOk result (λ bytes. (out : List ℕ)
        → Gives (RawAsked image.now out) bytes.items (H.state shelf.old)) }
    ensures stops { IfErr result (λ stop. (out : List ℕ)
        → Stops (RawAsked image.now out) (H.state shelf.old) (H.state shelf.new) stop) }
    ensures same { (H.state shelf.new).files ≡ (H.state shelf.old).files }
    ensures later { (H.state shelf.old).faults ≤ (H.state shelf.new).faults }
{
    let file = load(alloc, File::Image, image, shelf)?;
    match dump(alloc, file) {
        Ok(raw) => Ok(raw),
        Err(error) => Err(Stop::of_image(error)),
    }
}

/// The query table of a lane of that bank.
fn table<H: Shelf>(alloc: Global, image: &str, lane: u8, shelf: &mut H) -> Result<Vec<u8>, Stop>
    ensures gives { IfOk result (λ bytes. (out : List ℕ)
        → Gives (TableAsked image.now lane out) bytes.items (H.state shelf.old)) }
    ensures stops { IfErr result (λ stop. (out : List ℕ)
        → Stops (TableAsked image.now lane out) (H.state shelf.old) (H.state shelf.new) stop) }
    ensures same { (H.state shelf.new).files ≡ (H.state shelf.old).files }
    ensures later { (H.state shelf.old).faults ≤ (H.state shelf.new).faults }
{
    let file = load(alloc, File::Image, image, shelf)?;
    match lane_table(alloc, file, lane) {
        Ok(Some(table)) => match table.to_vec(alloc) {
            Ok(bytes) => Ok(bytes),
            Err(_) => Err(Stop::NoMemory),
        },
        Ok(None) => Err(Stop::NoLane),
        Err(error) => Err(Stop::of_image(error)),
    }
}

// The survey of the bank that the file under a name stands for.
fn survey<H: Shelf>(alloc: Global, image: &str, shelf: &mut H) -> Result<Survey, Stop>
    ensures told { IfOk result (λ survey. IfSome (H.state shelf.old).files (IsToldIn image.now survey)) }
    ensures few { IfOk result (λ survey. length survey.bars.items ≤ 512) }
    ensures stops { IfErr result (λ stop. (out : List ℕ)
        → Stops (DrawAsked image.now out) (H.state shelf.old) (H.state shelf.new) stop) }
    ensures same { (H.state shelf.new).files ≡ (H.state shelf.old).files }
    ensures later { (H.state shelf.old).faults ≤ (H.state shelf.new).faults }
{
    let file = load(alloc, File::Image, image, shelf)?;
    match survey_of(alloc, file) {
        Ok(survey) => Ok(survey),
        Err(error) => Err(Stop::of_image(error)),
    }
}

/// A drawing of that bank.
fn draw<H: Shelf>(alloc: Global, image: &str, shelf: &mut H) -> Result<Vec<u8>, Stop>
    ensures gives { IfOk result (λ bytes. (out : List ℕ)
        → Gives (DrawAsked image.now out) bytes.items (H.state shelf.old)) }
    ensures stops { IfErr result (λ stop. (out : List ℕ)
        → Stops (DrawAsked image.now out) (H.state shelf.old) (H.state shelf.new) stop) }
    ensures same { (H.state shelf.new).files ≡ (H.state shelf.old).files }
    ensures later { (H.state shelf.old).faults ≤ (H.state shelf.new).faults }
{
    let survey = survey(alloc, image, shelf)?;
    match drawing::draw(alloc, &survey) {
        Ok(svg) => Ok(svg),
        Err(_) => Err(Stop::NoMemory),
    }
}

// The dump of a bank of so many bytes: that under a name, or ones where the name is a dash.
fn raw_of<H: Shelf>(alloc: Global, name: &str, bank: u32, shelf: &mut H) -> Result<Vec<u8>, Stop>
    ensures raw { IfOk result (λ raw.
        IfSome (H.state shelf.old).files (IsRawIn name.now bank raw.items)) }
    ensures whole { IfOk result (λ raw. length raw.items ≡ bank) }
    ensures stops { IfErr result (StopsBy (λ files. first_some (raw_stops name.now (files name.now) bank))
        (H.state shelf.old) (H.state shelf.new)) }
    ensures same { (H.state shelf.new).files ≡ (H.state shelf.old).files }
    ensures later { (H.state shelf.old).faults ≤ (H.state shelf.new).faults }
{
    if name == "-" {
        return match vec![in alloc; 0xFF; bank as usize] {
            Ok(raw) => Ok(raw),
            Err(_) => Err(Stop::NoMemory),
        };
    }
    let raw = load(alloc, File::Raw, name, shelf)?;
    if raw.len() == bank as usize {
        Ok(raw)
    } else {
        Err(Stop::RawLength {
            raw: raw.len(),
            bank,
        })
    }
}

// The query table under a name.
fn table_named<H: Shelf>(alloc: Global, name: &str, shelf: &mut H) -> Result<[u8; 512], Stop>
    ensures table { IfOk result (λ table.
        IfSome (H.state shelf.old).files (IsTableIn name.now table)) }
    ensures accepted { IfOk result (λ table. first_error table ≡ None) }
    ensures stops { IfErr result (StopsBy (λ files. first_some (table_stops (files name.now)))
        (H.state shelf.old) (H.state shelf.new)) }
    ensures same { (H.state shelf.new).files ≡ (H.state shelf.old).files }
    ensures later { (H.state shelf.old).faults ≤ (H.state shelf.new).faults }
{
    let file = load(alloc, File::Table, name, shelf)?;
    match table_of(&file) {
        Ok(table) => Ok(table),
        Err(error) => Err(Stop::BadTable(error)),
    }
}

// What is wrong with changes of a bank whose chips have so many bytes.
fn check_changes(alloc: Global, g: Geometry, size: u32, changes: &[Change]) -> Result<(), Stop>
    ensures fit { OnOk result (change_error g size changes.now ≡ None) }
    ensures stops { IfErr result (λ stop.
        (option_map Stop.BadChange (change_error g size changes.now) ≡ Some stop) ⊎ (stop ≡ Stop.NoMemory)) }
{
    match check(alloc, g, size, changes) {
        Ok(None) => Ok(()),
        Ok(Some(error)) => Err(Stop::BadChange(error)),
        Err(_) => Err(Stop::NoMemory),
    }
}

// The image of a bank of such changes.
fn make_with<H: Shelf>(
    alloc: Global,
    width: u8,
    g: Geometry,
    changes: &[Change],
    table: &str,
    raw: &str,
    shelf: &mut H,
) -> Result<Vec<u8>, Stop>
    requires { IsTrue (is_wiring width g.lanes g.device) }
    ensures gives { IfOk result (λ bytes. IfSome (H.state shelf.old).files
        (IsMadeIn width g changes.now table.now raw.now bytes.items)) }
    ensures stops { IfErr result (StopsBy
        (λ files. first_some (bank_stops g changes.now raw.now (files table.now) (files raw.now)))
        (H.state shelf.old) (H.state shelf.new)) }
    ensures same { (H.state shelf.new).files ≡ (H.state shelf.old).files }
    ensures later { (H.state shelf.old).faults ≤ (H.state shelf.new).faults }
{
    let table = table_named(alloc, table, shelf)?;
    let size = chip_len(&table);
    check_changes(alloc, g, size, changes)?;
    let raw = raw_of(alloc, raw, u32::from(g.lanes) * size, shelf)?;
    match make_bank(alloc, width, g, &table, changes, raw) {
        Ok(file) => Ok(file),
        Err(_) => Err(Stop::NoMemory),
    }
}

// The changes that options ask for.
fn changes_asked(alloc: Global, options: &[String]) -> Result<Vec<Change>, Stop>
    ensures changes { IfOk result (λ changes. changes_in options.now ≡ Some changes.items) }
    ensures stops { IfErr result (λ stop.
        ((changes_in options.now ≡ None) × (stop ≡ Stop.Usage)) ⊎ (stop ≡ Stop.NoMemory)) }
{
    match changes_of(alloc, options) {
        Ok(Some(changes)) => Ok(changes),
        Ok(None) => Err(Stop::Usage),
        Err(_) => Err(Stop::NoMemory),
    }
}

/// The image of the bank that is made of the files under two names.
fn make<H: Shelf>(
    alloc: Global,
    width: u8,
    device: Device,
    lanes: u8,
    options: &[String],
    table: &str,
    raw: &str,
    shelf: &mut H,
) -> Result<Vec<u8>, Stop>
    ensures gives { IfOk result (λ bytes. (out : List ℕ)
        → Gives (MakeAsked out width device lanes table.now raw.now options.now) bytes.items
        (H.state shelf.old)) }
    ensures stops { IfErr result (λ stop. (out : List ℕ)
        → Stops (MakeAsked out width device lanes table.now raw.now options.now)
        (H.state shelf.old) (H.state shelf.new) stop) }
    ensures same { (H.state shelf.new).files ≡ (H.state shelf.old).files }
    ensures later { (H.state shelf.old).faults ≤ (H.state shelf.new).faults }
{
    let changes = changes_asked(alloc, options)?;
    match make_geometry(width, lanes, device) {
        Ok(g) => make_with(alloc, width, g, &changes, table, raw, shelf),
        Err(_) => Err(Stop::BadWiring),
    }
}

/// The bytes that a command saves.
pub fn work<H: Shelf>(alloc: Global, command: Command, shelf: &mut H) -> Result<Vec<u8>, Stop>
    ensures gives { IfOk result (λ bytes.
        Gives (asked_by command.entry) bytes.items (H.state shelf.old)) }
    ensures stops { IfErr result
        (Stops (asked_by command.entry) (H.state shelf.old) (H.state shelf.new)) }
    ensures same { (H.state shelf.new).files ≡ (H.state shelf.old).files }
    ensures later { (H.state shelf.old).faults ≤ (H.state shelf.new).faults }
{
    match command {
        Command::Make {
            width,
            device,
            lanes,
            table,
            raw,
            options,
            ..
        } => make(alloc, width, device, lanes, options, table, raw, shelf),
        Command::Raw { image, .. } => raw(alloc, image, shelf),
        Command::Table { image, lane, .. } => table(alloc, image, lane, shelf),
        Command::Draw { image, .. } => draw(alloc, image, shelf),
        Command::Unknown => Err(Stop::Usage),
    }
}
