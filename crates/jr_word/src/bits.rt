//! Bits of a word.

ghost use Rattle.std.specs.Prelude.{◌≡◌, ◌/◌, ◌%◌, ◌^◌, ◌<◌};

/// The 16 bits from a bit up.
#[inline]
pub(crate) fn u16_at(word: u64, bit: u32) -> u16
    requires { bit < 64 }
    ensures { result ≡ word / 2 ^ bit % 2 ^ 16 }
{
    ((word >> bit) & 0xffff) as u16
}

/// The 32 bits from a bit up.
#[inline]
pub(crate) fn u32_at(word: u64, bit: u32) -> u32
    requires { bit < 64 }
    ensures { result ≡ word / 2 ^ bit % 2 ^ 32 }
{
    ((word >> bit) & 0xffff_ffff) as u32
}

/// The 24 bits from a bit up.
#[inline]
pub(crate) fn u24_at(word: u64, bit: u32) -> u32
    requires { bit < 64 }
    ensures { result ≡ word / 2 ^ bit % 2 ^ 24 }
{
    ((word >> bit) & 0xff_ffff) as u32
}
