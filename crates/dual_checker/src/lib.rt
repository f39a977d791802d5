//! Certificates checked, printed and read.
#![tactic(auto)]

mod checking;
mod laws;
mod printing;
mod reading;
mod verdict;

pub use checking::check;
pub use laws::texts_are_certificates;
pub use printing::print_certificate;
pub use reading::{CertificateFault, read_certificate};
pub use verdict::Verdict;
