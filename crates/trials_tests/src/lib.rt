//! Tests of random programs and their trials, and of surveys.
#![tactic(auto)]

#[cfg(test)]
mod campaigns;
#[cfg(test)]
mod desks;
#[cfg(test)]
mod judged;
#[cfg(test)]
mod judged_twice;
#[cfg(test)]
mod lasting;
#[cfg(test)]
mod meetings;
#[cfg(test)]
mod memory;
#[cfg(test)]
mod progress_lines;
#[cfg(test)]
mod reproduced;
#[cfg(test)]
mod told;
#[cfg(test)]
mod words;
