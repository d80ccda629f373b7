//! Which calls of a shelf or a sink in memory are to fail.
ghost use Rattle.std.specs.Prelude.{◌≡◌};
ghost use Rattle.stack_shelf.specs.InMemory.{kept_by};

/// How many bytes the call with this number keeps, where it is to fail: the second number of the
/// first pair that begins with the call's.
pub fn kept_at(failing: &[(u64, u64)], call: u64) -> Option<u64>
    ensures { result ≡ kept_by failing.now call }
{
    failing
        .iter()
        .find(|pair| pair.0 == call)
        .map(|pair| pair.1)
}
