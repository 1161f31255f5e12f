//! The command `trials`.
ghost use Rattle.std.specs.Prelude.{◌≡◌, IfErr, IfOk, List};
ghost use Rattle.clap.specs.Words.{Row};
ghost use Rattle.command_line.specs.Options.{AreTrialsOptions};
ghost use Rattle.inputs.specs.declared.command_error.CommandError.TheVariants as error;
ghost use Rattle.inputs.specs.declared.command_stop.CommandStop.TheVariants.{Failed};
ghost use Rattle.commands.specs.Run.{IsTrials, campaign_header};

use crate::choices::{progress_visibility, violation_form};
use crate::headed::with_header;
use command_line::TrialsOptions;
use devices::Host;
use headers::Header;
use inputs::CommandStop;
use report::Answer;
use run_answers::{campaign_answer, shown_answer};
use std::alloc::Global;
use std::sync::Wait;
use std::thread::Threads;

/// The header of a campaign, where one is asked for.
fn campaign_header(options: &TrialsOptions) -> Option<Header>
    ensures { result ≡ campaign_header options.now }
{
    if options.header {
        Some(Header::of_campaign(&options.campaign))
    } else {
        None
    }
}

/// Runs the trials of a campaign and counts their codes, of which the host shows progress unless the options are
/// quiet, or shows one of them.
pub fn trials_command<R: Threads + Wait + Sync, H: Host>(
    rt: &R,
    alloc: Global,
    options: &TrialsOptions,
    host: &H,
) -> Result<Answer, CommandStop>
    requires { (rows : List Row) × AreTrialsOptions options.now rows }
    ensures ok { IfOk result (IsTrials options.now options.now.show) }
    ensures err { IfErr result (λ stop. stop ≡ Failed error.OutOfMemory) }
{
    match options.show {
        Some(k) => Ok(shown_answer(alloc, &options.campaign, k, violation_form(options.reduce))?),
        None => {
            let visibility = progress_visibility(options.quiet);
            let progress = host.progress(Some(options.campaign.trials()), visibility);
            let counts = campaign_answer(rt, alloc, &options.campaign, options.workers, &progress)?;
            Ok(with_header(alloc, campaign_header(options), counts)?)
        }
    }
}
