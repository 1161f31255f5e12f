//! What is answered of campaigns that are run.

ghost use Rattle.std.specs.Prelude.{◌≤◌, IfOk};
ghost use Rattle.run_answers.specs.Campaign.{IsCampaignAnswer};

use answers::trials_answer;
use common::{Gate, MAX_WORKERS, OutOfMemory};
use std::alloc::Global;
use std::sync::Wait;
use std::thread::Threads;
use trials::{Campaign, run_campaign};
use verdicts::Answer;

/// The answer to the ledger of all trials of a campaign, by 1 to `MAX_WORKERS` workers; the gate hears of each
/// claim, each violation and each filing. Fails only if out of memory.
pub fn campaign_answer<R: Threads + Wait + Sync, G: Gate>(
    rt: &R,
    alloc: Global,
    campaign: &Campaign,
    workers: usize,
    gate: &G,
) -> Result<Answer, OutOfMemory>
    requires { (1 ≤ workers) × (workers ≤ MAX_WORKERS) }
    ensures { IfOk result (IsCampaignAnswer campaign.now) }
{
    let Ok(ledger) = run_campaign(rt, alloc, campaign, workers, gate) else {
        return Err(OutOfMemory);
    };
    trials_answer(alloc, &ledger)
}
