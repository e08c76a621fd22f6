ghost use Rattle.std.specs.Prelude.{◌≡◌, ◌≤◌, ℕ, List, Err, Ok, IfOk, length, vec_len};
ghost use Rattle.mcal_base.specs.declared.config.whole.Config as records;
ghost use Rattle.config_facts.specs.Valid.{IsValid};
ghost use Rattle.bench_script.specs.Lines.{file};
ghost use Rattle.bench_script.specs.Script as spec_script;
ghost use Rattle.bench_top.specs.Judged as spec;
ghost use Rattle.bench_top.specs.Judged.{IsRead, Prints};
ghost use Rattle.bench_top.specs.declared.words.Task.{Task};

use crate::refusal::Refusal;
use bench_script::{ScriptFault, read_script, split_file};
use mcal_base::{Config, Directive};
use mcal_config::{ConfigFault, read_config};
use std::alloc::Global;

/// A bench file that was read.
#[derive(Drop)]
pub struct BenchFile {
    /// Its configuration.
    pub config: Config,
    /// Its script.
    pub script: Vec<Directive>,
}

/// Why no bench file was read.
#[derive(Clone, Copy)]
pub enum FileEnd {
    /// It is refused.
    Refused(Refusal),
    /// Memory was not found.
    NoMemory,
}

/// The configuration of a text.
#[tactic(auto, using(crate::proofs::Configurations::record_is, crate::proofs::Configurations::fault_is))]
pub(crate) fn configuration(alloc: Global, text: &[u8]) -> Result<Config, FileEnd>
    ensures read { IfOk result (λ config. (script : List ℕ) (task : Task) → spec.judged_parts task (spec.configuration_of text.now) script ≡ spec.judged_script task config (spec_script.script script)) }
    ensures valid { IfOk result IsValid }
    ensures refused { (refusal : Refusal) → result ≡ Err (FileEnd.Refused refusal) → (script : List ℕ) (task : Task) → spec.judged_parts task (spec.configuration_of text.now) script ≡ Prints (spec.ending_of refusal) }
    // The same of an audit.
    ensures audited { IfOk result (λ config. (script report : List ℕ) → spec.audited_config (spec.configuration_of text.now) script report ≡ spec.audited_script config (spec_script.script script) report) }
    ensures unaudited { (refusal : Refusal) → result ≡ Err (FileEnd.Refused refusal) → (script report : List ℕ) → spec.audited_config (spec.configuration_of text.now) script report ≡ Prints (spec.ending_of refusal) }
{
    match read_config(alloc, text) {
        Ok(config) => Ok(config),
        Err(ConfigFault::NoMemory) => Err(FileEnd::NoMemory),
        Err(fault) => Err(FileEnd::Refused(Refusal::Configuration(fault))),
    }
}

/// The directives of a text, with no room for more.
pub(crate) fn directives(alloc: Global, text: &[u8]) -> Result<Vec<Directive>, FileEnd>
    requires { length text.now ≤ 1048576 }
    ensures read { IfOk result (λ directives. spec_script.script text.now ≡ Ok directives.items) }
    ensures refused { (refusal : Refusal) → result ≡ Err (FileEnd.Refused refusal) → (task : Task) (config : records.Config) → spec.judged_script task config (spec_script.script text.now) ≡ Prints (spec.ending_of refusal) }
    ensures unaudited { (refusal : Refusal) → result ≡ Err (FileEnd.Refused refusal) → (config : records.Config) (report : List ℕ) → spec.audited_script config (spec_script.script text.now) report ≡ Prints (spec.ending_of refusal) }
{
    match read_script(alloc, text) {
        Ok(mut directives) => {
            directives.shrink_to_fit();
            Ok(directives)
        }
        Err(ScriptFault::NoMemory) => Err(FileEnd::NoMemory),
        Err(fault) => Err(FileEnd::Refused(Refusal::Script(fault))),
    }
}

/// Reads a bench file: its configuration first, and then its script.
pub fn read_file(alloc: Global, bytes: &[u8]) -> Result<BenchFile, FileEnd>
    requires { length bytes.now ≤ 1048576 }
    ensures whole { IfOk result (λ read. (task : Task) → spec.judged_file task (file bytes.now) ≡ spec.judged_whole task read.config read.script.items) }
    ensures valid { IfOk result (λ read. IsValid read.config) }
    ensures script { IfOk result (λ read. IsRead read.script.items) }
    ensures refused { (refusal : Refusal) → result ≡ Err (FileEnd.Refused refusal) → (task : Task) → spec.judged_file task (file bytes.now) ≡ Prints (spec.ending_of refusal) }
{
    let Some((first, second)) = split_file(bytes) else {
        return Err(FileEnd::Refused(Refusal::NoSeparator));
    };
    let config = configuration(alloc, first)?;
    let script = directives(alloc, second)?;
    Ok(BenchFile { config, script })
}

/// Reads a bench file to its end, and lets its bytes go: a run needs their room.
pub fn read_whole(alloc: Global, bytes: Vec<u8>) -> Result<BenchFile, FileEnd>
    requires { vec_len bytes ≤ 1048576 }
    ensures whole { IfOk result (λ read. (task : Task) → spec.judged_file task (file bytes.items) ≡ spec.judged_whole task read.config read.script.items) }
    ensures valid { IfOk result (λ read. IsValid read.config) }
    ensures script { IfOk result (λ read. IsRead read.script.items) }
    ensures refused { (refusal : Refusal) → result ≡ Err (FileEnd.Refused refusal) → (task : Task) → spec.judged_file task (file bytes.items) ≡ Prints (spec.ending_of refusal) }
{
    read_file(alloc, &bytes)
}
