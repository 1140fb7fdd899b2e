// A column as a word of four bytes, the first the lowest, and two columns as a word of eight.
ghost use Rattle.std.specs.Prelude.{◌≡◌, ◌<◌, ◌/◌, ◌%◌, map};
ghost use Rattle.cipher.specs.Field.{xtime};
ghost use Rattle.cipher.specs.KeyExpansion.{rot_word};
ghost use Rattle.cipher.specs.Words.{high_halves, mix_word, OnHalves};

// Two columns.
pub(crate) fn joined(a: u32, b: u32) -> u64
    ensures { (result % 4294967296 ≡ a) × (result / 4294967296 ≡ b) }
{
    u64::from(b) << 32 | u64::from(a)
}

pub(crate) fn low_half(w: u64) -> u32
    ensures { result ≡ w % 4294967296 }
{
    (w % 4294967296) as u32
}

pub(crate) fn high_half(w: u64) -> u32
    ensures { result ≡ w / 4294967296 }
{
    (w >> 32) as u32
}

// RotWord of two columns: each byte moved one place down, the lowest to the top.
pub(crate) fn turned(w: u64) -> u64
    ensures { OnHalves rot_word w result }
{
    joined(low_half(w).rotate_right(8), high_half(w).rotate_right(8))
}

// Bit 7 of each byte, as a byte 0 or 1.
fn high_bits(w: u64) -> u64
    ensures { result ≡ high_halves w }
{
    (w >> 7) & 0x0101010101010101
}

// Each byte times x, all eight at once: what leaves a byte at bit 8 comes back as 1b in the same byte.
fn doubled(w: u64) -> u64
    ensures { OnHalves (map xtime) w result }
{
    let h = high_bits(w);
    ((w - h * 128) * 2) ^ (h * 0x1b)
}

// MixColumns of two columns. Twice a byte, three times the next and once the other two: twice the sum of the first two, once more the
// second, and the sum of the other two.
pub(crate) fn mixed(w: u64) -> u64
    ensures { OnHalves mix_word w result }
{
    let q = turned(w);
    let t = w ^ q;
    doubled(t) ^ q ^ turned(turned(t))
}
