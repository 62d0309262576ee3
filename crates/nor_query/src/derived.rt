//! What a query says beyond its fields.
ghost use Rattle.std.specs.Prelude.{◌≡◌, ◌<◌, ◌≤◌, ◌^◌, ℕ, List, length};
ghost use Rattle.nor_cell.specs.Table.{set_of, suspend_kind, has_locks, has_chip_erase};
ghost use Rattle.nor_cell.specs.Table.{buffer_units_of, buffer_units, limit};
ghost use Rattle.nor_query.specs.Derived.{suspend_of, locks_of, chip_erase_of};
ghost use Rattle.nor_query.specs.Derived.{is_reversed, is_reversed_in, table_blocks, time_of, limit_of};
ghost use Rattle.nor_query.specs.Stands.{StandsFor};
ghost use Rattle.nor_query.specs.Valid.{IsValid};
ghost use Rattle.nor_region.specs.Map.{in_order, spans_of};
ghost use Rattle.nor_region.specs.Regions.{total_len};

use crate::{Extended, Query};
use nor_cell::{
    Device, Set, SuspendKind, Work, amd_suspend, buffer_units_of, has_bit, intel_suspend,
    most_reads,
};
use nor_region::{BlockMap, block_map};

// A feature bit of the Intel set.
const INSTANT_LOCKING: u32 = 5;

// Numbers of the Amd set: for advanced sector protection, and for a chip that boots from its top.
const ADVANCED_PROTECTION: u8 = 8;

const TOP_BOOT: u8 = 3;

impl Query {
    /// What may be done in other blocks while an erase is suspended.
    pub fn suspend_kind(&self) -> SuspendKind
        ensures value { result ≡ suspend_of self.now.extended }
        ensures chip { (table : List ℕ) → StandsFor table self.now
            → result ≡ suspend_kind table }
    {
        suspend_of(self.extended)
    }

    /// Whether blocks can be locked one by one.
    pub fn has_locks(&self) -> bool
        ensures value { result ≡ locks_of self.now.extended }
        ensures chip { (table : List ℕ) → StandsFor table self.now
            → result ≡ has_locks table }
    {
        locks_of(self.extended)
    }

    /// Whether the whole chip can be erased at once: an Amd chip that gives a typical time for it.
    pub fn has_chip_erase(&self) -> bool
        ensures value { result ≡ chip_erase_of self.now.set self.now.times }
        ensures chip { (table : List ℕ) → StandsFor table self.now
            → result ≡ has_chip_erase table }
    {
        match self.set {
            Set::Intel => false,
            Set::Amd => self.times[time_of(Work::Chip)] != 0,
        }
    }

    /// Whether the last region lies at the lowest address: an Amd chip of version 1.1 or later that
    /// boots from its top, with more than one region.
    pub fn reversed(&self) -> bool
        ensures value { result
            ≡ is_reversed self.now.extended self.now.minor (length self.now.regions.items) }
        ensures chip { (table : List ℕ) → StandsFor table self.now
            → result ≡ is_reversed_in (set_of table) table }
    {
        is_reversed(self.extended, self.minor, self.regions.len())
    }

    /// The blocks of the chip, in the order of their addresses.
    pub fn block_map(&self) -> BlockMap
        requires { IsValid self.now }
        ensures regions { let regions = self.now.regions.items in
            result ≡ in_order (is_reversed self.now.extended self.now.minor (length regions)) regions }
        ensures size { total_len result ≡ 2 ^ self.now.size_log }
        ensures chip { (table : List ℕ) → StandsFor table self.now
            → spans_of result ≡ table_blocks table }
    {
        block_map(&self.regions, self.reversed(), 1 << self.size_log).unwrap()
    }

    /// How many device words the write buffer takes at once, for a chip that is wired so. 0: words
    /// are programmed one by one.
    pub fn buffer_units(&self, device: Device) -> u16
        ensures value { result ≡ buffer_units_of device self.now.buffer_log }
        ensures chip { (table : List ℕ) → StandsFor table self.now
            → result ≡ buffer_units device table }
    {
        buffer_units_of(device, self.buffer_log)
    }

    /// How many status reads a driver makes at most before it takes a chip for stuck: 16 more than
    /// a chip that isn't shows a job of this kind working.
    pub fn limit(&self, work: Work) -> u32
        ensures value { result ≡ limit_of self.now.times work }
        ensures chip { (table : List ℕ) → StandsFor table self.now
            → result ≡ limit work table }
    {
        let time = time_of(work);
        most_reads(self.times[time], self.times[time + 4]) + 16
    }
}

fn suspend_of(extended: Extended) -> SuspendKind
    ensures { result ≡ suspend_of extended }
{
    match extended {
        Extended::Intel {
            features,
            in_suspend,
        } => intel_suspend(features, in_suspend),
        Extended::Amd { suspend, .. } => amd_suspend(suspend),
    }
}

fn locks_of(extended: Extended) -> bool
    ensures { result ≡ locks_of extended }
{
    match extended {
        Extended::Intel { features, .. } => has_bit(features, INSTANT_LOCKING),
        Extended::Amd { protect, .. } => protect == ADVANCED_PROTECTION,
    }
}

fn is_reversed(extended: Extended, minor: u8, regions: usize) -> bool
    ensures { result ≡ is_reversed extended minor regions }
{
    match extended {
        Extended::Intel { .. } => false,
        Extended::Amd { boot, .. } => minor >= 1 && boot == TOP_BOOT && regions > 1,
    }
}

// Where the typical exponent of a time stands among the eight, the greatest being four further.
fn time_of(work: Work) -> usize
    ensures { result ≡ time_of work }
{
    match work {
        Work::Word => 0,
        Work::Buffer => 1,
        Work::Block => 2,
        Work::Chip => 3,
    }
}
