ghost use Rattle.std.specs.Prelude.{◌≡◌};
ghost use Rattle.shapers_buffer.specs.Properties.{set_bit};

// Sixteen bits with one of them on or off.
#[inline]
pub(super) fn set_bit(bits: u16, bit: u16, on: bool) -> u16
    ensures { result ≡ set_bit bit on bits }
{
    if on { bits | bit } else { bits & !bit }
}
