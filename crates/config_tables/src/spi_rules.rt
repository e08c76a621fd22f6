ghost use Rattle.std.specs.Prelude.{OnOk, ◌≡◌, ◌==◌, ◌&&◌, not, Some, length, ◌<◌, ◌^◌};
ghost use Rattle.std.specs.List.{list_any};
ghost use Rattle.config_keys.specs.Checks.{Gives};
ghost use Rattle.config_facts.specs.Valid as valid;
ghost use Rattle.config_tables.specs.SpiRules as spec;

use crate::rows::{Element, Rule, check_references, check_rule};
use crate::spi_tables::{Channels, Jobs, Sequences};
use config_keys::{ConfigFault, KeyName};
use mcal_base::{SpiChannel, SpiConfig, SpiJob, SpiSequence};

/// The references of the jobs to their channels.
fn channel_references(channels: &[SpiChannel], jobs: &[SpiJob]) -> Result<(), ConfigFault>
    requires { length jobs.now < 2 ^ 32 }
    ensures gives { Gives result (spec.channel_references channels.now 0 jobs.now) (Some tt) }
    ensures refer { OnOk result (valid.ReferToChannels channels.now jobs.now) }
{
    for (number, job) in jobs.iter().enumerate() {
        let at = Jobs::place()
            .of_element(number as u32)
            .of_key(KeyName::SpiChannelList);
        check_references::<Channels>(channels, at, job.channel_list.as_slice())?;
    }
    Ok(())
}

/// The references of the sequences to their jobs.
fn job_references(jobs: &[SpiJob], sequences: &[SpiSequence]) -> Result<(), ConfigFault>
    requires { length sequences.now < 2 ^ 32 }
    ensures gives { Gives result (spec.job_references jobs.now 0 sequences.now) (Some tt) }
    ensures refer { OnOk result (valid.ReferToJobs jobs.now sequences.now) }
{
    for (number, sequence) in sequences.iter().enumerate() {
        let at = Sequences::place()
            .of_element(number as u32)
            .of_key(KeyName::SpiJobAssignment);
        check_references::<Jobs>(jobs, at, sequence.job_assignment.as_slice())?;
    }
    Ok(())
}

/// The references of the module.
#[tactic(auto, unfolding(crate::specs::SpiRules::reference_checks))]
pub fn references(spi: &SpiConfig) -> Result<(), ConfigFault>
    ensures gives { Gives result (spec.reference_checks spi.now) (Some tt) }
    ensures refer { OnOk result (valid.RefersInSpi spi.now) }
{
    channel_references(spi.channels.as_slice(), spi.jobs.as_slice())?;
    job_references(spi.jobs.as_slice(), spi.sequences.as_slice())
}

/// Whether an id is among these.
fn is_among(id: u32, ids: &[u32]) -> bool
    ensures { result ≡ spec.is_among id ids.now }
{
    ids.iter().any(|other| *other == id)
}

/// Whether an id stands twice.
fn repeats(ids: &[u32]) -> bool
    ensures { result ≡ spec.repeats ids.now }
{
    for (index, id) in ids.iter().enumerate() {
        if is_among(*id, &ids[index + 1..]) {
            return true;
        }
    }
    false
}

/// Rule 9: a job names a channel twice.
struct NamesChannelTwice;

impl Rule<SpiJob> for NamesChannelTwice {
    ghost breaks = { λ r. spec.names_channel_twice };

    fn breaks(&self, _earlier: &[SpiJob], value: &SpiJob) -> bool {
        repeats(value.channel_list.as_slice())
    }
}

/// Rule 10: a sequence names a job twice.
struct NamesJobTwice;

impl Rule<SpiSequence> for NamesJobTwice {
    ghost breaks = { λ r. spec.names_job_twice };

    fn breaks(&self, _earlier: &[SpiSequence], value: &SpiSequence) -> bool {
        repeats(value.job_assignment.as_slice())
    }
}

/// Whether a job with one of these ids has another unit.
fn has_other_unit(ids: &[u32], unit: u32, jobs: &[SpiJob]) -> bool
    ensures { result ≡ spec.has_other_unit ids.now unit jobs.now }
{
    jobs.iter()
        .any(|job| is_among(job.id, ids) && job.unit != unit)
}

/// Whether the jobs with these ids have different units.
fn have_different_units(jobs: &[SpiJob], ids: &[u32]) -> bool
    ensures { result ≡ list_any (λ j. spec.is_among j.id ids.now && spec.has_other_unit ids.now j.unit jobs.now) jobs.now }
{
    jobs.iter().any(|job| is_among(job.id, ids) && has_other_unit(ids, job.unit, jobs))
}

/// Rule 11: the jobs of a sequence have different units.
#[derive(Drop)]
struct MixesUnits<'a> {
    jobs: &'a [SpiJob],
}

impl<'a> Rule<SpiSequence> for MixesUnits<'a> {
    ghost breaks = { λ r. spec.mixes_units r.jobs.now };

    fn breaks(&self, _earlier: &[SpiSequence], value: &SpiSequence) -> bool {
        have_different_units(self.jobs, value.job_assignment.as_slice())
    }
}

/// Whether an id is among both.
fn share_channel(one: &[u32], other: &[u32]) -> bool
    ensures { result ≡ spec.share_channel one.now other.now }
{
    one.iter().any(|id| is_among(*id, other))
}

/// Whether two jobs share a channel and have different units.
fn are_apart(one: &SpiJob, other: &SpiJob) -> bool
    ensures { result ≡ (not (one.now.unit == other.now.unit) && spec.share_channel one.now.channel_list other.now.channel_list) }
{
    one.unit != other.unit
        && share_channel(one.channel_list.as_slice(), other.channel_list.as_slice())
}

/// Rule 12: two jobs that share a channel have different units.
struct SharesChannel;

impl Rule<SpiJob> for SharesChannel {
    ghost breaks = { λ r. spec.shares_channel };

    fn breaks(&self, earlier: &[SpiJob], value: &SpiJob) -> bool {
        earlier.iter().any(|other| are_apart(other, value))
    }
}

/// The rules of the module.
#[tactic(auto, unfolding(crate::specs::SpiRules::rule_checks))]
pub fn rules(spi: &SpiConfig) -> Result<(), ConfigFault>
    ensures gives { Gives result (spec.rule_checks spi.now) (Some tt) }
    ensures keeps { OnOk result (valid.KeepsSpiRules spi.now) }
{
    let jobs = spi.jobs.as_slice();
    let sequences = spi.sequences.as_slice();
    check_rule(&NamesChannelTwice, 9, Jobs::place(), jobs)?;
    check_rule(&NamesJobTwice, 10, Sequences::place(), sequences)?;
    check_rule(&MixesUnits { jobs }, 11, Sequences::place(), sequences)?;
    check_rule(&SharesChannel, 12, Jobs::place(), jobs)
}
