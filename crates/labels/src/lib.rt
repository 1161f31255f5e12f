//! Cycles of forced pairs with labels that show that none is shorter.
#![tactic(auto)]

mod certificate;
mod cycle;
mod labelling;
mod parallel;
mod shortest;

pub use certificate::Certificate;
pub use labelling::is_labelling;
pub use parallel::check_par;
pub use shortest::check;
