//! Numbers that may be unknown.
ghost use Rattle.std.specs.Prelude.{◌≡◌};
ghost use Rattle.c_decisions.specs.Numbers.{known};

/// Returns the number, if it is known.
pub fn known(is_known: bool, number: u64) -> Option<u64>
    ensures { result ≡ known is_known number }
{
    if is_known { Some(number) } else { None }
}
