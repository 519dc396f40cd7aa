//! The part of a report on stages.

ghost use Rattle.std.specs.Prelude.{◌≡◌, All, IfOk, map};
ghost use Rattle.serde_json.specs.View.{view};
ghost use Rattle.rmt_report.specs.StageUse.{use_of};
ghost use Rattle.rmt_report.specs.Report.{stage_report};
ghost use Rattle.rmt_report.specs.Fits.{StageFits};
ghost use Rattle.rmt_config.specs.declared.config.Stage.{Stage};

use crate::stage_use::{StageUse, stage_use};
use rmt_config::config::Stage;
use serde_json::{Value, json};
use std::alloc::{AllocError, Global};

/// The object that tells what a stage uses.
fn stage_object(alloc: Global, used: &StageUse) -> Result<Value, AllocError>
    ensures { IfOk result (λ v. view v ≡ stage_report used.now) }
{
    json!(in alloc; {
        "data": used.data_bits,
        "exact_bits": used.exact_bits,
        "gates": used.gates,
        "instructions": used.instructions,
        "slots": used.slots,
        "sram": used.sram,
        "start": used.start,
        "tcam": used.tcam,
        "ternary_bits": used.ternary_bits
    })
}

/// The objects of stages, one for each in their order.
pub fn stage_objects(alloc: Global, stages: &[Stage]) -> Result<Vec<Value>, AllocError>
    requires { All StageFits stages.now }
    ensures { IfOk result (λ objects. map view objects.items ≡ map (λ (stage : Stage). stage_report (use_of stage)) stages.now) }
{
    let mut objects = Vec::new(alloc);
    for stage in stages {
        let object = stage_object(alloc, &stage_use(stage))?;
        objects.push(object)?;
    }
    Ok(objects)
}
