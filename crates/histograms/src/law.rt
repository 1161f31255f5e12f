//! What makes histograms reproducible.

ghost use Rattle.histograms.specs.OneHistogram.{EveryProgramHasOneHistogram};

/// The random runs of a program have one histogram, however many workers make them. It does nothing.
pub(crate) fn runs_have_one_histogram()
    ensures { EveryProgramHasOneHistogram }
{}
