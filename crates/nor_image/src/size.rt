ghost use Rattle.std.specs.Prelude.{◌≡◌};
ghost use Rattle.nor_cell.specs.Ranges.{is_chip_size};
ghost use Rattle.nor_image.specs.Image.{is_size_by};

// The place in the query table of the chip's size as a power of two.
const SIZE_LOG: usize = 0x27;

// The powers of two from 4 KiB to 128 MiB.
const CHIP_SIZES: [u32; 16] = [
    0x1000, 0x2000, 0x4000, 0x8000, 0x1_0000, 0x2_0000, 0x4_0000, 0x8_0000, 0x10_0000, 0x20_0000,
    0x40_0000, 0x80_0000, 0x100_0000, 0x200_0000, 0x400_0000, 0x800_0000,
];

// Whether a chip may have so many bytes.
fn is_chip_size(size: u32) -> bool
    ensures { result ≡ is_chip_size size }
{
    CHIP_SIZES.contains(&size)
}

/// Whether a chip with this table may have so many bytes.
pub fn is_size_by(table: &[u8; 512], size: u32) -> bool
    ensures { result ≡ is_size_by table.now size }
{
    let log = table[SIZE_LOG];
    is_chip_size(size) && (log < 12 || log > 27 || size == 1 << log)
}
