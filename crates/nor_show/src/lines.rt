ghost use Rattle.std.specs.Prelude.{◌≡◌, ◌<◌, ◌≤◌, ◌*◌, ◌^◌, ◌++◌, List, ℕ, OnOk, IfOk, string_bytes};
ghost use Rattle.nor_cell.specs.Bits.{unit_len};
ghost use Rattle.nor_show.specs.Lines.{wiring_lines, size_lines, buffer_len, buffer_lines, times_line, version_lines, offer_lines, query_lines, region_lines, limit_lines, shown_lines, spaced};

use crate::{DeviceName, HexWord, SetName, SuspendName, YesOrNo};
use nor_cell::{Device, Geometry};
use nor_query::{Query, Work};
use nor_region::{BlockMap, Region};
use std::alloc::{AllocError, Global};
use std::fmt::Write;

fn write_wiring(text: &mut String, width: u8, g: Geometry) -> Result<(), AllocError>
    ensures { OnOk result (string_bytes text.new
        ≡ string_bytes text.old ++ wiring_lines width g) }
{
    let lanes = g.lanes;
    let device = DeviceName(g.device);
    write!(text, "width {width}\nlanes {lanes}\ndevice {device}\n")
}

fn write_sizes(text: &mut String, query: &Query, map: &BlockMap) -> Result<(), AllocError>
    requires size { query.now.size_log ≤ 27 }
    ensures { OnOk result (string_bytes text.new
        ≡ string_bytes text.old ++ size_lines query.now map.now) }
{
    let set = SetName(query.set);
    let size = 1u32 << query.size_log;
    let bank = map.size();
    write!(text, "set {set}\nsize {size}\nbank {bank}\n")
}

// How many bytes of a chip's write buffer a driver uses.
fn buffer_bytes(device: Device, query: &Query) -> u32
    ensures { result ≡ buffer_len device query.now }
{
    let units = u32::from(query.buffer_units(device));
    match device {
        Device::X8 | Device::X16Byte => units,
        Device::X16 => 2 * units,
    }
}

fn write_buffer(text: &mut String, device: Device, query: &Query) -> Result<(), AllocError>
    ensures { OnOk result (string_bytes text.new
        ≡ string_bytes text.old ++ buffer_lines device query.now) }
{
    let interface = query.interface;
    let buffer = buffer_bytes(device, query);
    write!(text, "interface {interface}\nbuffer {buffer}\n")
}

// Numbers with a space before each.
fn write_spaced(text: &mut String, numbers: &[u8]) -> Result<(), AllocError>
    ensures { OnOk result (string_bytes text.new
        ≡ string_bytes text.old ++ spaced numbers.now) }
{
    for number in numbers {
        write!(text, " {number}")?;
    }
    Ok(())
}

fn write_times(text: &mut String, times: [u8; 8]) -> Result<(), AllocError>
    ensures { OnOk result (string_bytes text.new
        ≡ string_bytes text.old ++ times_line times) }
{
    write!(text, "times")?;
    write_spaced(text, &times)?;
    write!(text, "\n")
}

fn write_version(text: &mut String, query: &Query) -> Result<(), AllocError>
    ensures { OnOk result (string_bytes text.new
        ≡ string_bytes text.old ++ version_lines query.now) }
{
    let minor = query.minor;
    let set = HexWord(query.alt_set);
    let table = HexWord(query.alt_ext);
    write!(text, "version 1.{minor}\nalternate {set} {table}\n")
}

fn write_offers(text: &mut String, query: &Query) -> Result<(), AllocError>
    ensures { OnOk result (string_bytes text.new
        ≡ string_bytes text.old ++ offer_lines query.now) }
{
    let suspend = SuspendName(query.suspend_kind());
    let locks = YesOrNo(query.has_locks());
    write!(text, "suspend {suspend}\nlocks {locks}\n")
}

fn write_regions(text: &mut String, regions: &[Region]) -> Result<(), AllocError>
    ensures { OnOk result (string_bytes text.new
        ≡ string_bytes text.old ++ region_lines 0 regions.now) }
{
    for (k, region) in regions.iter().enumerate() {
        let (count, size) = (region.count, region.size);
        write!(text, "region {k} {count} {size}\n")?;
    }
    Ok(())
}

fn write_limits(text: &mut String, query: &Query, map: &BlockMap) -> Result<(), AllocError>
    ensures { OnOk result (string_bytes text.new
        ≡ string_bytes text.old ++ limit_lines query.now map.now) }
{
    let blocks = map.blocks();
    let word = query.limit(Work::Word);
    let buffer = query.limit(Work::Buffer);
    let block = query.limit(Work::Block);
    write!(text, "blocks {blocks}\nlimits {word} {buffer} {block}\n")
}

// What the query table says of a device.
fn write_query(text: &mut String, device: Device, query: &Query) -> Result<(), AllocError>
    ensures { OnOk result (string_bytes text.new
        ≡ string_bytes text.old ++ query_lines device query.now) }
{
    write_buffer(text, device, query)?;
    write_times(text, query.times)?;
    write_version(text, query)?;
    write_offers(text, query)
}

/// The lines that tell what a bank is: the bytes of its bus word and its wiring, its chips' query
/// table, and its map of erase regions, of the whole bank. Numbers are decimal, but for identifiers.
/// A chip has at most 2^27 bytes.
pub fn show_text(
    alloc: Global,
    width: u8,
    g: Geometry,
    query: &Query,
    map: &BlockMap,
) -> Result<String, AllocError>
    requires { query.now.size_log ≤ 27 }
    ensures { IfOk result (λ text. string_bytes text ≡ shown_lines width g query.now map.now) }
{
    let mut text = String::new(alloc);
    write_wiring(&mut text, width, g)?;
    write_sizes(&mut text, query, map)?;
    write_query(&mut text, g.device, query)?;
    write_regions(&mut text, map.regions())?;
    write_limits(&mut text, query, map)?;
    Ok(text)
}
