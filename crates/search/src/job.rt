//! Sources whose rows are to be made.

use common::{EventId, OutOfMemory};
use relations::Relation;
use std::marker::Model;
use std::sync::Arc;

/// An event of a relation whose row is to be made. The jobs of a relation share it.
pub struct SourceJob {
    relation: Arc<Relation>,
    source: EventId,
}

impl Model for SourceJob {
    ghost use Rattle.std.specs.Prelude.{◌<◌, length};
    ghost use Rattle.std.specs.Arc.{arc_value};
    ghost use Rattle.search.specs.SourceRow.{Job, job_of};

    ghost Value = { Job };

    ghost view = { λ j. job_of (arc_value j.relation) j.source };

    ghost invariant = { λ j. j.source < length (arc_value j.relation) };
}

impl Drop for SourceJob {
    fn drop(self) {
        let SourceJob {
            relation: _,
            source: _,
        } = self;
    }
}

impl SourceJob {
    ghost use Rattle.std.specs.Prelude.{◌≡◌, ◌<◌, length, IfOk};
    ghost use Rattle.std.specs.Arc.{arc_value};
    ghost use Rattle.search.specs.SourceRow.{job_of};

    /// A job for one event.
    pub(crate) fn new(relation: &Arc<Relation>, source: EventId) -> Result<SourceJob, OutOfMemory>
        requires { source < length (arc_value relation.now) }
        ensures { IfOk result (λ job. job ≡ job_of (arc_value relation.now) source) }
    {
        Ok(SourceJob {
            relation: Arc::try_clone(relation)?,
            source,
        })
    }

    /// The event.
    pub fn source(&self) -> EventId
        ensures { result ≡ self.now.source }
    {
        self.source
    }

    /// The relation.
    pub(crate) fn relation(&self) -> &Arc<Relation>
        ensures value { arc_value result.now ≡ self.now.relation }
        ensures source { self.now.source < length self.now.relation }
    {
        &self.relation
    }
}
