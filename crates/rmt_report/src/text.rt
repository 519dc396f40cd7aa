//! What a configuration uses of the chip, as a JSON object.

ghost use Rattle.std.specs.Prelude.{◌≡◌, IfOk, IsOkUnless, Some, map};
ghost use Rattle.serde_json.specs.View.{view};
ghost use Rattle.serde_json.specs.Read.{read};
ghost use Rattle.serde_json.specs.Written.{compact_text};
ghost use Rattle.rmt_config.specs.Limits.{IsWithinLimits};
ghost use Rattle.rmt_report.specs.Report.{report_of, report_from, words_report, parser_report};

use crate::fault::ReportFault;
use crate::named::{WordCounts, word_counts};
use crate::stages::stage_objects;
use rmt_bits::answer::Bytes;
use rmt_bits::fault::OutOfMemory;
use rmt_bits::sequence::Sequence;
use rmt_config::config::{Config, ParserConfig};
use rmt_config::latency::latency;
use serde_json::{Value, json};
use std::alloc::{AllocError, Global};

fn parser_object(alloc: Global, parser: &ParserConfig) -> Result<Value, AllocError>
    ensures { IfOk result (λ v. view v ≡ parser_report parser.now) }
{
    json!(in alloc; {"entries": parser.entries.len(), "states": parser.states.len()})
}

fn words_array(alloc: Global, counts: &WordCounts) -> Result<Value, AllocError>
    ensures { IfOk result (λ v. view v ≡ words_report counts.now) }
{
    json!(in alloc; [counts.bytes, counts.halves, counts.wholes])
}

/// The object of a report's parts.
fn joined(
    alloc: Global,
    latency: u32,
    parser: Value,
    stages: Vec<Value>,
    words: Value,
) -> Result<Value, AllocError>
    ensures { IfOk result (λ v. view v ≡ report_from latency (view parser) (map view stages.items) (view words)) }
{
    json!(in alloc; {"latency": latency, "parser": parser, "stages": stages, "words": words})
}

fn report_object(alloc: Global, config: &Config) -> Result<Value, AllocError>
    requires { IsWithinLimits config.now }
    ensures { IfOk result (λ v. view v ≡ report_of config.now) }
{
    let latency = latency(config.stages.as_slice());
    let parser = parser_object(alloc, &config.parser)?;
    let stages = stage_objects(alloc, config.stages.as_slice())?;
    let words = words_array(alloc, &word_counts(config))?;
    joined(alloc, latency, parser, stages, words)
}

fn report_text(alloc: Global, config: &Config) -> Result<Bytes, AllocError>
    requires { IsWithinLimits config.now }
    ensures bytes { IfOk result (λ text. text ≡ compact_text (report_of config.now)) }
    ensures reads_back { IfOk result (λ text. read text ≡ Some (report_of config.now)) }
{
    let object = report_object(alloc, config)?;
    let text = object.to_string(alloc)?;
    Ok(Sequence::from_vec(text.into_bytes()))
}

/// What a configuration uses of the chip, as the text of one JSON object without spaces, its keys in the order of
/// their bytes. Its only refusal is `NoMemory`.
pub fn report(alloc: Global, config: &Config) -> Result<Bytes, ReportFault>
    requires { IsWithinLimits config.now }
    ensures bytes { IfOk result (λ text. text ≡ compact_text (report_of config.now)) }
    ensures reads_back { IfOk result (λ text. read text ≡ Some (report_of config.now)) }
    ensures only_memory { IsOkUnless result OutOfMemory.NoMemory }
{
    Ok(report_text(alloc, config)?)
}
