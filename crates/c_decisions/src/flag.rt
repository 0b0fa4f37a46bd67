//! Flags.
ghost use Rattle.std.specs.Prelude.{◌≡◌};
ghost use Rattle.c_decisions.specs.Flags.{flag_of};

/// Returns 1 if the flag is set, else 0.
pub fn flag_of(is_set: bool) -> u8
    ensures { result ≡ flag_of is_set }
{
    if is_set { 1 } else { 0 }
}
