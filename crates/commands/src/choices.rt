//! What options choose, by name.
ghost use Rattle.std.specs.Prelude.{◌≡◌};
ghost use Rattle.commands.specs.Choices.{cycle_choice, progress_visibility, unseen_form, violation_form};

use answers::ViolationForm;
use devices::Visibility;
use outcome_texts::UnseenForm;
use program_answers::CycleChoice;

/// How a violation is answered, by `--reduce`.
pub(crate) fn violation_form(reduce: bool) -> ViolationForm
    ensures { result ≡ violation_form reduce }
{
    if reduce {
        ViolationForm::Reduced
    } else {
        ViolationForm::Whole
    }
}

/// Which critical cycles are listed, by `--forbidden`.
pub(crate) fn cycle_choice(forbidden: bool) -> CycleChoice
    ensures { result ≡ cycle_choice forbidden }
{
    if forbidden {
        CycleChoice::Forbidden
    } else {
        CycleChoice::Each
    }
}

/// What is printed of the outcomes that no line of a log shows, by `--unseen`.
pub(crate) fn unseen_form(unseen: bool) -> UnseenForm
    ensures { result ≡ unseen_form unseen }
{
    if unseen {
        UnseenForm::Lines
    } else {
        UnseenForm::Count
    }
}

/// Whether progress is shown, by `--quiet`.
pub(crate) fn progress_visibility(quiet: bool) -> Visibility
    ensures { result ≡ progress_visibility quiet }
{
    if quiet {
        Visibility::Hidden
    } else {
        Visibility::Shown
    }
}
