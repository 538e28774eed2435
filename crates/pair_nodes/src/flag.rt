//! Flags as one number.
ghost use Rattle.std.specs.Prelude.{◌≡◌, ◌<◌};
ghost use Rattle.tdb_base.specs.History.{has_bit};

/// Whether flag `b` of a vector is set, by its flags as one number.
#[inline]
pub fn has_flag(flags: u64, b: u32) -> bool
    requires { b < 64 }
    ensures { result ≡ has_bit flags b }
{
    flags / (1 << b) % 2 == 1
}
