//! Tests of the judge and of what it stands on: rows of bits, forced pairs, orders, certificates, texts of verdicts,
//! and texts of values alone.
#![tactic(auto)]

#[cfg(test)]
mod alone;
#[cfg(test)]
mod answers;
#[cfg(test)]
mod bound;
#[cfg(test)]
mod memory;
#[cfg(test)]
mod recordings;
#[cfg(test)]
mod rows;
#[cfg(test)]
mod workers;
