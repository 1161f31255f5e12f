//! A recording with names of its addresses.

use event_texts::Names;
use recording::Recording;

/// A recording, and names of its addresses: what is put into words.
#[derive(Drop)]
pub(crate) struct Named<'a> {
    pub(crate) recording: &'a Recording,
    pub(crate) names: &'a Names,
}
