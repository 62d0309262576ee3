ghost use Rattle.std.specs.Prelude.{◌≡◌, ◌<◌, ◌≤◌, ◌*◌, ◌^◌, length, IsTrue};
ghost use Rattle.nor_region.specs.Regions.{are_regions, total_len};

/// How many erase regions a chip has at most.
pub const MAX_REGIONS: usize = 8;

/// So many blocks of one size, in bytes. The default is no region of a map.
#[derive(Clone, Copy, Debug, Default, PartialEq, Eq)]
pub struct Region {
    pub count: u32,
    pub size: u32,
}

/// Why regions are no map of a chip.
#[derive(Clone, Copy, Debug, PartialEq, Eq)]
pub enum RegionError {
    NoRegions,
    TooManyRegions,
    /// The regions have `sum` bytes, and the chip has `size`.
    SizeMismatch { sum: u64, size: u64 },
}

/// How many bytes at most eight regions have in all.
pub fn total_len(regions: &[Region]) -> u64
    requires few { length regions.now ≤ 8 }
    requires ranges { IsTrue (are_regions regions.now) }
    ensures { result ≡ total_len regions.now }
{
    sum_lens(regions)
}

// The bytes of regions, where they fit.
pub(crate) fn sum_lens(regions: &[Region]) -> u64
    requires { total_len regions.now < 2 ^ 64 }
    ensures { result ≡ total_len regions.now }
{
    let mut total = 0;
    for region in regions {
        total += u64::from(region.count) * u64::from(region.size);
    }
    total
}
