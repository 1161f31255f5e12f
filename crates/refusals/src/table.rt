//! The table of all refusals.
ghost use Rattle.std.specs.Prelude.{◌≡◌, map, option_map};
ghost use Rattle.refusals.specs.Table.{group_of, kind_group, named_in, refusal_named, texts_of};

use crate::cycle_words::of_cycles;
use crate::event_labels::of_labels;
use crate::merges::of_merges;
use crate::observations::of_observations;
use crate::options::of_options;
use crate::programs::of_programs;
use crate::recordings::of_recordings;
use crate::refusal::{Group, Refusal};
use crate::scripts::of_scripts;

/// What is refused.
#[derive(Clone, Copy, Drop)]
pub enum Kind {
    /// A program.
    Program,
    /// A script.
    Script,
    /// A recording.
    Recording,
    /// Texts that are added up.
    Merge,
    /// Labels.
    Labels,
    /// What was observed, or a condition.
    Observation,
    /// The words of a cycle.
    Cycle,
    /// Options.
    Options,
}

/// All kinds, in the order of the help.
pub const KINDS: &[Kind] = &[
    Kind::Program,
    Kind::Script,
    Kind::Recording,
    Kind::Merge,
    Kind::Labels,
    Kind::Observation,
    Kind::Cycle,
    Kind::Options,
];

/// The refusals of a kind.
pub fn kind_group(kind: Kind) -> Group
    ensures { group_of result ≡ kind_group kind }
{
    match kind {
        Kind::Program => of_programs(),
        Kind::Script => of_scripts(),
        Kind::Recording => of_recordings(),
        Kind::Merge => of_merges(),
        Kind::Labels => of_labels(),
        Kind::Observation => of_observations(),
        Kind::Cycle => of_cycles(),
        Kind::Options => of_options(),
    }
}

/// The first of these refusals with this name.
fn named_in(refusals: &'static [Refusal<&'static str>], name: &str) -> Option<Refusal<&'static str>>
    ensures { option_map texts_of result ≡ named_in name.now (map texts_of refusals.entry.now) }
{
    for refusal in refusals {
        if refusal.name == name {
            return Some(*refusal);
        }
    }
    None
}

/// The refusal with this name; none where no refusal has it.
pub fn refusal_named(name: &str) -> Option<Refusal<&'static str>>
    ensures { option_map texts_of result ≡ refusal_named name.now }
{
    for kind in KINDS {
        let (_, refusals) = kind_group(*kind);
        if let Some(refusal) = named_in(refusals, name) {
            return Some(refusal);
        }
    }
    None
}
