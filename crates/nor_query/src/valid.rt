//! Which queries a table can stand for.
ghost use Rattle.std.specs.Prelude.{◌≡◌, ◌<◌, ◌≤◌, ◌+◌, ◌*◌, ◌^◌, ◌==◌, ◌↔◌, ℕ, length, slice_index, IsTrue};
ghost use Rattle.std.specs.List.{list_all};
ghost use Rattle.nor_region.specs.Regions.{total_len};
ghost use Rattle.nor_query.specs.Fields.{named_len, is_named};
ghost use Rattle.nor_query.specs.Valid.{IsValid, is_table_region, set_of_extended};

use crate::decoding::is_named;
use crate::field::named_len;
use crate::{Extended, Query, place};
use nor_cell::Set;
use nor_region::{Region, total_len};

impl Query {
    /// Whether a table can stand for it: each field is in the range that `decode` checks, the set
    /// is that of the extended part, the minor version is 0 to 5, each region has 1 to 65,536 blocks
    /// of 128 bytes or of a multiple of 256 up to 16,776,960, and `rest` is 0 in each place that has
    /// a name.
    pub fn valid(&self) -> bool
        ensures { IsTrue result ↔ IsValid self.now }
    {
        self.has_numbers()
            && self.has_regions()
            && self.has_size()
            && self.has_place()
            && self.has_free_rest()
    }

    fn has_numbers(&self) -> bool
        ensures { IsTrue result ↔ (
            (self.now.set ≡ set_of_extended self.now.extended)
            × (12 ≤ self.now.size_log) × (self.now.size_log ≤ 27)
            × (self.now.interface ≤ 2) × (self.now.minor ≤ 5)) }
    {
        self.set == set_of_extended(self.extended)
            && self.size_log >= 12
            && self.size_log <= 27
            && self.interface <= 2
            && self.minor <= 5
    }

    fn has_regions(&self) -> bool
        ensures regions { let regions = self.now.regions.items in
            IsTrue result ↔ ((0 < length regions) × IsTrue (list_all is_table_region regions)) }
        ensures few { length self.now.regions.items ≤ 8 }
    {
        !self.regions.is_empty() && are_table_regions(&self.regions)
    }

    // Whether the regions have as many bytes as the chip.
    fn has_size(&self) -> bool
        requires ranges { IsTrue (list_all is_table_region self.now.regions.items) }
        requires size { self.now.size_log ≤ 27 }
        ensures { result ≡ (total_len self.now.regions.items == 2 ^ self.now.size_log) }
    {
        total_len(&self.regions) == 1 << self.size_log
    }

    fn has_place(&self) -> bool
        ensures { IsTrue result ↔ (
            (0x2D + 4 * length self.now.regions.items ≤ self.now.ext)
            × (self.now.ext + named_len self.now.set ≤ 512)) }
    {
        let ext = usize::from(self.ext);
        place::REGIONS + place::REGION_LEN * self.regions.len() <= ext
            && ext + named_len(self.set) <= place::TABLE_LEN
    }

    fn has_free_rest(&self) -> bool
        ensures { IsTrue result ↔ ((at : ℕ) → at < 512
            → IsTrue (is_named self.now.set (length self.now.regions.items) self.now.ext at)
            → slice_index self.now.rest at ≡ 0) }
    {
        for at in 0..self.rest.len() {
            if self.rest[at] != 0
                && is_named(self.set, self.regions.len(), usize::from(self.ext), at)
            {
                return false;
            }
        }
        true
    }
}

fn set_of_extended(extended: Extended) -> Set
    ensures { result ≡ set_of_extended extended }
{
    match extended {
        Extended::Intel { .. } => Set::Intel,
        Extended::Amd { .. } => Set::Amd,
    }
}

fn are_table_regions(regions: &[Region]) -> bool
    ensures { result ≡ list_all is_table_region regions.now }
{
    regions.iter().all(is_table_region)
}

fn is_table_region(region: &Region) -> bool
    ensures { result ≡ is_table_region region.now }
{
    let in_range = (1..=65_536).contains(&region.count)
        && (128..=16_776_960).contains(&region.size);
    in_range && (region.size == 128 || region.size % 256 == 0)
}
