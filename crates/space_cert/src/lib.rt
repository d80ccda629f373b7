//! Certificates that the calls of a source have room: what they are, what they are good for, and the least one.
//!
//! `specs/` has what a certificate is (`Covers`), that `spaceerror` is never raised in the runs that it covers (`Never`),
//! what each state of such a run keeps (`CoveredStates`), which procedures reach which (`Reaches`), which certificate is the least
//! (`Least`), and its text (`CertText`).
#![tactic(auto)]

mod accepting;
mod certificate;
mod certifying;
mod filling;
mod laws;
mod printing;
mod reading;
mod search;

pub use accepting::{accepts, sizes_for};
pub use certificate::Certificate;
pub use certifying::{CertFault, certify};
pub use laws::{
    certificates_are_read_again, certificates_hold, computed_as_defined,
    larger_stacks_change_nothing, least_at_main, recursion_has_none,
};
pub use printing::print_certificate;
pub use reading::{CertTextFault, read_certificate};
