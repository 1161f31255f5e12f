//! Campaigns run by workers.

ghost use Rattle.std.specs.Prelude.{◌≡◌, ◌<◌, ◌≤◌, ℕ, List, IfOk};
ghost use Rattle.ledger.specs.Counts.{IsLedger};
ghost use Rattle.trials.specs.LegalDesk.{AreDeskWords, IsDeskWord};
ghost use Rattle.trials.specs.Codes.{AreCodes, IsCode};
ghost use Rattle.trials.specs.Looking.{IsDeskSeatOf, SitsAt};
ghost use Rattle.trials.specs.OneLedger.{EveryTrialHasOneCode, EveryCampaignHasOneLedger};
ghost use Rattle.trials.specs.OneLedger.{EveryCampaignAddsUp, EveryTrialHasItsKind};
ghost use Rattle.trials.specs.Parts.{AllShardsAreTheCampaign, EveryTwoPartsAreOne};
ghost use Rattle.trials.specs.declared.desk_table.SeatKnowledge.{SeatKnowledge};

use crate::law::a_campaign_has_one_ledger;
use crate::one_trial::trial;
use crate::seat::{Desk, DeskSeat, Look};
use crate::workers::work_all;
use common::{Gate, MAX_WORKERS, OutOfMemory};
use ledger::Ledger;
use program::Campaign;
use std::alloc::Global;
use std::sync::Wait;
use std::thread::Threads;

/// Why a campaign has no ledger.
#[derive(Clone, Copy, Drop, PartialEq, Eq)]
pub enum CampaignError {
    /// There was no memory.
    OutOfMemory {
        /// How many trials the workers had filed.
        filed: usize,
    },
}

/// How many trials are filed.
fn filed_count(desk: &Desk, seat: &mut DeskSeat, trials: usize) -> usize
    requires seat { IsDeskSeatOf desk.now seat.old }
    requires trials { trials ≡ seat.old.seat.me.0.campaign.trials }
    ensures seat { IsDeskSeatOf desk.now seat.new }
    ensures campaign { seat.new.seat.me.0.campaign ≡ seat.old.seat.me.0.campaign }
{
    let mut filed = 0;
    for k in 0..trials {
        if let Look::Filed(_) = desk.look(seat, k) {
            filed += 1;
        }
    }
    filed
}

/// The code of a trial: its word, and where that is none, that of the trial made here.
#[tactic(auto, using(crate::proofs::Completed::is_code))]
fn filed_code(alloc: Global, campaign: &Campaign, k: usize, word: u64) -> Result<u64, OutOfMemory>
    requires trial { k < campaign.now.trials }
    requires word { IsDeskWord campaign.now k word }
    ensures { IfOk result (IsCode campaign.now k) }
{
    if word >= 2 {
        return Ok(word);
    }
    let filed = trial(alloc, campaign, k)?;
    Ok(filed.code())
}

/// The codes of all trials, from the words of a closed desk.
fn complete(
    alloc: Global,
    campaign: &Campaign,
    mut words: Vec<u64>,
) -> Result<Vec<u64>, OutOfMemory>
    requires { (v : SeatKnowledge) × (v.campaign ≡ campaign.now) × AreDeskWords v words.items }
    ensures { IfOk result (λ codes. AreCodes campaign.now codes.items) }
{
    for k in 0..words.len() {
        let word = words[k];
        words[k] = filed_code(alloc, campaign, k, word)?;
    }
    Ok(words)
}

/// The ledger of the codes of a desk that all workers have left.
fn ledger_of(
    alloc: Global,
    campaign: &Campaign,
    desk: Desk,
    seat: DeskSeat,
) -> Result<Ledger, OutOfMemory>
    requires { SitsAt desk campaign.now seat }
    ensures { IfOk result (λ l. (codes : List ℕ) × AreCodes campaign.now codes × IsLedger codes l) }
{
    let words = desk.close(alloc, seat)?;
    let codes = complete(alloc, campaign, words)?;
    let ledger = Ledger::count(alloc, &codes)?;
    Ok(ledger)
}

/// Runs the trials of a campaign by this many workers, 1 to `MAX_WORKERS`, of which the calling thread is
/// worker 0, and a worker whose thread doesn't start is left out. Each worker claims trials in ascending order,
/// from the first of its share on, and then those before it; the gate hears of each claim, each violation
/// and each filing. What they left out the calling thread computes. Fails only if out of memory.
///
/// A trial of a campaign has one code, however often and wherever it is run, so any two ledgers of a
/// campaign's codes say the same. What has no verdict are its unfinished trials, and a violation is what is
/// neither one of these nor ordered. Its counts of ordered and unfinished trials, of overlooks and of cycles
/// of each length add up to the trials of the campaign. The codes of two parts of a campaign of which one follows
/// the other are those of both as one, and the codes of all its shards, one after the other, are its codes.
pub fn run_campaign<R: Threads + Wait + Sync, G: Gate>(
    rt: &R,
    alloc: Global,
    campaign: &Campaign,
    workers: usize,
    gate: &G,
) -> Result<Ledger, CampaignError>
    requires { (1 ≤ workers) × (workers ≤ MAX_WORKERS) }
    ensures counted { IfOk result (λ l. (codes : List ℕ) × AreCodes campaign.now codes × IsLedger codes l) }
    ensures codes { EveryTrialHasOneCode }
    ensures kinds { EveryTrialHasItsKind }
    ensures ledgers { EveryCampaignHasOneLedger }
    ensures sum { EveryCampaignAddsUp }
    ensures parts { EveryTwoPartsAreOne }
    ensures shards { AllShardsAreTheCampaign }
{
    a_campaign_has_one_ledger();
    let Ok((desk, seat)) = Desk::open(alloc, campaign) else {
        return Err(CampaignError::OutOfMemory { filed: 0 });
    };
    let mut seat = work_all(rt, alloc, campaign, &desk, seat, workers, gate);
    let filed = filed_count(&desk, &mut seat, campaign.trials());
    match ledger_of(alloc, campaign, desk, seat) {
        Ok(ledger) => Ok(ledger),
        Err(_refused) => Err(CampaignError::OutOfMemory { filed }),
    }
}
