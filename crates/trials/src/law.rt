//! What makes campaigns reproducible.

ghost use Rattle.trials.specs.OneLedger.{EveryTrialHasOneCode, EveryCampaignHasOneLedger};
ghost use Rattle.trials.specs.OneLedger.{EveryCampaignAddsUp, EveryTrialHasItsKind};
ghost use Rattle.trials.specs.Parts.{AllShardsAreTheCampaign, EveryTwoPartsAreOne};

use program::shards_have_all_trials;

/// What holds of the codes and the ledgers of every campaign. It does nothing.
pub(crate) fn a_campaign_has_one_ledger()
    ensures codes { EveryTrialHasOneCode }
    ensures kinds { EveryTrialHasItsKind }
    ensures ledgers { EveryCampaignHasOneLedger }
    ensures sum { EveryCampaignAddsUp }
    ensures parts { EveryTwoPartsAreOne }
    ensures shards { AllShardsAreTheCampaign }
{
    shards_have_all_trials();
}
