//! Certificates.

ghost use Rattle.std.specs.Prelude.{IsTrue};
ghost use Rattle.space_cert.specs.Bounded.{are_bounds};

/// How many words of the stacks runs of a source's procedures take.
///
/// Whether the bounds are right is for `accepts` to say.
#[derive(Debug, Drop)]
pub struct Certificate {
    /// For each procedure, in the order of the source, a bound on the words of the temporary stack and one on those of
    /// the control stack, beside the procedure's own words; or nothing. No bound is above 2^40.
    pub bounds: Vec<Option<(u64, u64)>>,
    ghost within: { IsTrue (are_bounds bounds.items) },
}
