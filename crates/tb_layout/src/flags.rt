//! Flags of an event.

ghost use Rattle.std.specs.Prelude.{◌≡◌};
ghost use Rattle.tb_layout.specs.claim.Bytes as spec;

/// The flags that stand for something, bits 0 to 3. An account and a transfer of the requests reference have further
/// ones (imported, balancing and closing events); they are reserved here.
const KNOWN_FLAGS: u16 = 0b1111;

/// Returns whether a bit is set that stands for nothing, one of 4 to 15.
pub(crate) fn has_reserved_flag(flags: u16) -> bool
    ensures { result ≡ spec.has_reserved_flag flags }
{
    flags > KNOWN_FLAGS
}
