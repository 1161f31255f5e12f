//! What makes surveys reproducible.

ghost use Rattle.surveys.specs.OneSurvey.{EveryLineHasOneFinding, EverySurveyCountsTheSame};
ghost use Rattle.surveys.specs.OneSurvey.{EverySurveyTellsTheSame};

/// What holds of all surveys. It does nothing.
pub(crate) fn a_survey_is_one()
    ensures findings { EveryLineHasOneFinding }
    ensures counts { EverySurveyCountsTheSame }
    ensures texts { EverySurveyTellsTheSame }
{}
