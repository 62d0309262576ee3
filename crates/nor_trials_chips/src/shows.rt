//! What is shown of three banks, and of what is refused.
use crate::tables;
use nor_cell::{Device, Geometry};
use nor_query::{QueryError, QueryKind, decode};
use nor_show::{QueryText, difference_text, show_text};
use std::alloc::Global;
use std::process::Abort;
use std::test::Fail;

// A chip of set 0002 in byte mode.
fn byte_mode() -> [u8; 512] {
    let mut table = tables::amd();
    table[0x28] = 2;
    table
}

// What is shown of a bank of one chip.
fn shown(
    rt: &impl Abort,
    alloc: Global,
    width: u8,
    device: Device,
    table: &[u8; 512],
) -> Result<String, Fail> {
    let query = decode(table)?;
    let map = query.block_map();
    let geometry = Geometry { lanes: 1, device };
    let text = show_text(alloc, width, geometry, &query, &map)?;
    assert!(rt; text.is_ascii());
    Ok(text)
}

#[test]
fn each_line_says_what_the_bank_is(rt: HostRuntime) -> Result<(), Fail> {
    let alloc = rt.alloc();
    let text = shown(&rt, alloc, 1, Device::X16Byte, &byte_mode())?;
    assert!(rt;
        text.as_str()
            == "width 1\nlanes 1\ndevice x16-byte\nset 0002\nsize 8192\nbank 8192\ninterface 2\nbuffer 0\ntimes 4 6 10 0 2 2 2 0\nversion 1.3\nalternate 0000 0000\nsuspend program\nlocks yes\nregion 0 8 1024\nblocks 8\nlimits 80 272 4112\n"
    );
    let text = shown(&rt, alloc, 2, Device::X16, &tables::top_boot())?;
    assert!(rt;
        text.as_str().contains("region 0 3 1024\nregion 1 7 128\nregion 2 1 128\nblocks 11\n")
    );
    let text = shown(&rt, alloc, 2, Device::X16, &tables::large())?;
    assert!(rt;
        text.as_str()
            == "width 2\nlanes 1\ndevice x16\nset 0001\nsize 8388608\nbank 8388608\ninterface 1\nbuffer 32\ntimes 8 9 10 0 1 1 2 0\nversion 1.3\nalternate 0000 0000\nsuspend program\nlocks yes\nregion 0 4 32768\nregion 1 63 131072\nblocks 67\nlimits 528 1040 4112\n"
    );
    Ok(())
}

// Places and kinds of refusals, and what they say.
const REFUSALS: [(u16, QueryKind, &str); 9] = [
    (0x10, QueryKind::NoQry, "query at 0x10: no qry"),
    (0x13, QueryKind::UnknownSet(3), "query at 0x13: set 0003"),
    (0x27, QueryKind::BadSize(11), "query at 0x27: size 11"),
    (
        0x28,
        QueryKind::BadInterface(3),
        "query at 0x28: interface 3",
    ),
    (0x2C, QueryKind::NoRegions, "query at 0x2c: no regions"),
    (
        0x2C,
        QueryKind::TooManyRegions(9),
        "query at 0x2c: 9 regions",
    ),
    (0x15, QueryKind::BadExtended, "query at 0x15: extended"),
    (0x34, QueryKind::UnknownVersion, "query at 0x34: version"),
    (0x2D, OTHER_SUM, "query at 0x2d: sum 7168 size 8192"),
];

const OTHER_SUM: QueryKind = QueryKind::SizeMismatch {
    sum: 7168,
    size: 8192,
};

#[test]
fn refusals_name_the_byte(rt: HostRuntime) -> Result<(), Fail> {
    for (at, kind, text) in REFUSALS {
        let error = QueryText(QueryError { at, kind });
        let said = format!(in rt.alloc(); "{error}")?;
        assert!(rt; said.as_str() == text);
    }
    let said = difference_text(rt.alloc(), 1, 0x1B, 0x27, 0x30)?;
    assert!(rt; said.as_str() == "lane 1 differs at 0x1b: 27 30");
    Ok(())
}
