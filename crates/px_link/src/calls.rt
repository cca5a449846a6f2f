//! Numbers of calls that are to fail.
ghost use Rattle.std.specs.Prelude.{◌≡◌};
ghost use Rattle.px_link.specs.Calls.{is_listed};

/// Whether a number is among these.
pub(crate) fn is_among(calls: &[u64], call: u64) -> bool
    ensures { result ≡ is_listed call calls.now }
{
    calls.contains(&call)
}
