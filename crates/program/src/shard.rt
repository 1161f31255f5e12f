//! Shards of a campaign.

ghost use Rattle.std.specs.Prelude.{◌≡◌, ◌<◌, ◌≤◌};
ghost use Rattle.program.specs.Shards.{AllShardsHaveAllTrials, EveryShardEndsAfterItsBeginning, trials_of_first};

/// One of the parts of a campaign, of which some have one trial more than others.
#[derive(Clone, Copy, Drop, PartialEq, Eq)]
pub struct Shard {
    /// Which it is, from 1.
    pub number: u32,
    /// How many there are.
    pub count: u32,
}

/// Trials of a campaign that follow each other.
#[derive(Clone, Copy, Drop, PartialEq, Eq)]
pub struct Part {
    /// The number of the first, from 0.
    pub first: u64,
    /// How many there are.
    pub trials: u64,
}

/// How many trials the first `number` of `count` shards have, with one trial more in the first ones of them.
fn trials_of_first(number: u32, count: u32, trials: u64) -> u64
    requires some { 0 < count }
    requires few { number ≤ count }
    ensures { result ≡ trials_of_first number count trials }
{
    let each = trials / count as u64;
    let larger = trials % count as u64;
    number as u64 * each + larger.min(number as u64)
}

impl Shard {
    ghost use Rattle.std.specs.Prelude.{◌≡◌};
    ghost use Rattle.program.specs.Shards.{IsShard, part_of};

    /// The trials of the shard, of a campaign of `trials`. Each shard has as many, or one more, and those with one more
    /// come first.
    pub fn part(self, trials: u64) -> Part
        requires { IsShard self }
        ensures { result ≡ part_of self trials }
    {
        let first = trials_of_first(self.number - 1, self.count, trials);
        let end = trials_of_first(self.number, self.count, trials);
        Part {
            first,
            trials: end - first,
        }
    }
}

/// What holds of the shards of every campaign. It does nothing.
pub fn shards_have_all_trials()
    ensures ends { EveryShardEndsAfterItsBeginning }
    ensures all { AllShardsHaveAllTrials }
{}
