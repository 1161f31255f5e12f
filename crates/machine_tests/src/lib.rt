//! Tests of the machine and its parts and its threads, together with the rules of TSO.
#![tactic(auto)]

#[cfg(test)]
mod buffers;
#[cfg(test)]
mod gates;
#[cfg(test)]
mod lines;
#[cfg(test)]
mod memory;
#[cfg(test)]
mod plain;
#[cfg(test)]
mod runs;
#[cfg(test)]
mod traces;
