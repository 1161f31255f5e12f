//! Trials with their codes.

use ledger::is_violation;
use program::Campaign;
use std::marker::Model;

/// A trial of a campaign with its code, which its type keeps to be that of the trial.
#[derive(Drop)]
pub struct Filed {
    campaign: Campaign,
    trial: usize,
    code: u64,
}

impl Model for Filed {
    ghost use Rattle.trials.specs.Codes.{IsCode};
    ghost use Rattle.trials.specs.Filing.{Filing};

    ghost Value = { Filing };

    ghost view = { λ f. record { campaign = f.campaign; trial = f.trial; code = f.code } };

    ghost invariant = { λ f. IsCode f.campaign f.trial f.code };
}

impl Filed {
    ghost use Rattle.std.specs.Prelude.{◌≡◌};
    ghost use Rattle.trials.specs.Codes.{IsCode};
    ghost use Rattle.ledger.specs.Kinds.{is_violation};

    /// The trial with this code.
    pub(crate) fn new(campaign: &Campaign, trial: usize, code: u64) -> Filed
        requires { IsCode campaign.now trial code }
        ensures { result ≡ record { campaign = campaign.now; trial = trial; code = code } }
    {
        Filed {
            campaign: *campaign,
            trial,
            code,
        }
    }

    /// The number of the trial.
    pub fn trial(&self) -> usize
        ensures { result ≡ self.now.trial }
    {
        self.trial
    }

    /// The code of the trial: 2 unfinished, 3 ordered, 16 and the length of its cycle, or 1,048,576 and
    /// 1,024 times the load and the store of its overlook.
    pub fn code(&self) -> u64
        ensures value { result ≡ self.now.code }
        ensures right { IsCode self.now.campaign self.now.trial result }
    {
        self.code
    }

    /// Whether the trial's recording has an overlook or a cycle.
    pub fn is_violation(&self) -> bool
        ensures { result ≡ is_violation self.now.code }
    {
        is_violation(self.code)
    }
}
