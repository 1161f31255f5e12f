//! Headers of counts.

ghost use Rattle.std.specs.Prelude.{◌≡◌, ◌++◌, OnOk, Some};
ghost use Rattle.headers.specs.Headers.{campaign_words, count_name, counted_words, fault_words, header_line};
ghost use Rattle.headers.specs.Headers.{machine_words, option_words, size_words};

use crate::fault::fault_name;
use common::OutOfMemory;
use program::{Campaign, Fault};
use texts::{put_number, put_text};

/// What the trials of a campaign have in common beside their number and their seeds.
#[derive(Clone, Copy, Drop, PartialEq, Eq)]
pub struct Setup {
    /// How many cores each program has.
    pub cores: usize,
    /// How many operations each core has.
    pub ops: usize,
    /// How many addresses operations are drawn from.
    pub addresses: usize,
    /// What is wrong with the machine.
    pub fault: Fault,
    /// How many stores a buffer holds.
    pub buffer: usize,
    /// How many steps a trial attempts at most.
    pub attempts: usize,
}

/// What is counted.
#[derive(Clone, Copy, Drop, PartialEq, Eq)]
pub enum Counted {
    /// Trials of campaigns with this in common.
    Campaign(Setup),
    /// Recordings of a survey.
    Survey,
    /// Recordings of a survey within the large limits.
    LongSurvey,
}

/// What is counted, and which of them.
#[derive(Clone, Copy, Drop, PartialEq, Eq)]
pub struct Header {
    /// What is counted.
    pub counted: Counted,
    /// The seed of the first trial; or the first line, from 1.
    pub first: u64,
    /// How many trials, or how many lines at most.
    pub count: u64,
}

impl Header {
    ghost use Rattle.std.specs.Prelude.{◌≡◌};
    ghost use Rattle.headers.specs.Headers.{IsHeader, header_of};

    /// The header of the counts of a campaign.
    pub fn of_campaign(campaign: &Campaign) -> Header
        ensures value { result ≡ header_of campaign.now }
        ensures within { IsHeader result }
    {
        campaign.sound();
        let shape = campaign.shape();
        shape.sound();
        Header {
            counted: Counted::Campaign(Setup {
                cores: shape.cores(),
                ops: shape.ops(),
                addresses: shape.addresses(),
                fault: campaign.fault(),
                buffer: campaign.capacity(),
                attempts: campaign.attempts(),
            }),
            first: campaign.base(),
            count: campaign.trials() as u64,
        }
    }
}

/// Adds the name of an option, its number, and what stands before them.
fn put_option(out: &mut Vec<u8>, name: &[u8], number: usize) -> Result<(), OutOfMemory>
    ensures { OnOk result (out.new.items ≡ out.old.items ++ option_words name.now number) }
{
    put_text(out, name)?;
    put_number(out, number)
}

/// Adds the sizes of programs.
fn put_sizes(out: &mut Vec<u8>, setup: &Setup) -> Result<(), OutOfMemory>
    ensures { OnOk result (out.new.items ≡ out.old.items ++ size_words setup.now) }
{
    put_option(out, b"# tsotest trials --cores ", setup.cores)?;
    put_option(out, b" --ops ", setup.ops)?;
    put_option(out, b" --addresses ", setup.addresses)
}

/// Adds the fault of machines.
fn put_fault(out: &mut Vec<u8>, fault: Fault) -> Result<(), OutOfMemory>
    ensures { OnOk result (out.new.items ≡ out.old.items ++ fault_words fault) }
{
    put_text(out, b" --fault ")?;
    put_text(out, fault_name(fault))
}

/// Adds the fault and the rest, up to the first seed.
fn put_machine(out: &mut Vec<u8>, setup: &Setup) -> Result<(), OutOfMemory>
    ensures { OnOk result (out.new.items ≡ out.old.items ++ machine_words setup.now) }
{
    put_fault(out, setup.fault)?;
    put_option(out, b" --buffer ", setup.buffer)?;
    put_option(out, b" --attempts ", setup.attempts)?;
    put_text(out, b" --seed ")
}

/// Adds the words of a campaign up to its first seed.
fn put_campaign(out: &mut Vec<u8>, setup: &Setup) -> Result<(), OutOfMemory>
    ensures { OnOk result (out.new.items ≡ out.old.items ++ campaign_words setup.now) }
{
    put_sizes(out, setup)?;
    put_machine(out, setup)
}

/// Adds the words up to the first seed or line.
fn put_counted(out: &mut Vec<u8>, counted: &Counted) -> Result<(), OutOfMemory>
    ensures { OnOk result (out.new.items ≡ out.old.items ++ counted_words counted.now) }
{
    match counted {
        Counted::Campaign(setup) => put_campaign(out, setup),
        Counted::Survey => put_text(out, b"# tsotest survey --from "),
        Counted::LongSurvey => put_text(out, b"# tsotest survey --long --from "),
    }
}

/// The name of the option of how many there are.
pub fn count_name(counted: &Counted) -> &'static [u8]
    ensures { result.now ≡ count_name counted.now }
{
    match counted {
        Counted::Campaign(_) => b" --trials ",
        Counted::Survey => b" --lines ",
        Counted::LongSurvey => b" --lines ",
    }
}

/// Adds the line of a header. Fails only if out of memory.
pub fn put_header(out: &mut Vec<u8>, header: &Header) -> Result<(), OutOfMemory>
    ensures { OnOk result (out.new.items ≡ out.old.items ++ header_line header.now) }
{
    put_counted(out, &header.counted)?;
    put_number(out, header.first as usize)?;
    put_option(out, count_name(&header.counted), header.count as usize)?;
    put_text(out, b"\n")
}
