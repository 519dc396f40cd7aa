//! The stages of the chip while nodes are placed.

ghost use Rattle.std.specs.Prelude.{◌≡◌, ℕ, ◌+◌, ◌≤◌, ◌<◌, ◌++◌, [], List, IfOk, OnOk, All, length};
ghost use Rattle.rmt_place.specs.declared.demand.Demand.{Demand};
ghost use Rattle.rmt_place.specs.Needs.{demand_at};
ghost use Rattle.rmt_pack.specs.declared.placement.Part.{Part};
ghost use Rattle.rmt_place.specs.Placing.{fitting, hit_list, hits_from, spread as spread_of, stages_from, standing_in, taken_part};
ghost use Rattle.rmt_place.specs.Steps.{IsWithin, HoldStages};

use crate::demand::Demand;
use crate::load::{Load, hit, most_that_fit, nothing, with_quanta};
use rmt_bits::sequence::Sequence;
use rmt_config::limits::LimitHit;
use rmt_pack::placement::Part;
use std::alloc::{AllocError, Global};

/// The stages of the chip while nodes are placed.
#[derive(Drop)]
pub struct Stages {
    /// The parts, in the order of placing.
    pub parts: Vec<Part>,
    /// What the parts of each of the 32 stages take together.
    pub loads: Vec<Load>,
    /// Of each node, by its number, the last stage in which it has a part; 0 where it has none.
    pub last: Vec<u32>,
}

impl Stages {
    ghost use Rattle.rmt_place.specs.StagesSoFar.{AreFilled};

    /// The stages in which none of so many nodes stands.
    pub fn new(alloc: Global, nodes: usize) -> Result<Stages, AllocError>
        ensures parts { IfOk result (λ stages. stages.parts.items ≡ []) }
        ensures stands { IfOk result (λ stages. (demands : List Demand) → length demands ≡ nodes → AreFilled demands stages) }
    {
        Ok(Stages {
            parts: Vec::new(alloc),
            loads: vec![in alloc; nothing(); 32]?,
            last: vec![in alloc; 0; nodes]?,
        })
    }

    /// Gives a node in a stage the most quanta that fit, of those that are left, and tells how many.
    fn take(
        &mut self,
        demands: &[Demand],
        node: u32,
        stage: u32,
        left: u32,
    ) -> Result<u32, AllocError>
        requires stands { AreFilled demands.now self.old }
        requires node { node < length demands.now }
        requires stage { stage < 32 }
        ensures taken { IfOk result (λ taken. taken ≡ fitting (standing_in demands.now self.old.parts.items stage) (demand_at demands.now node) left) }
        ensures few { IfOk result (λ taken. taken ≤ left) }
        ensures parts { IfOk result (λ taken. self.new.parts.items ≡ self.old.parts.items ++ taken_part node stage taken) }
        ensures stands { OnOk result (AreFilled demands.now self.new) }
    {
        if left == 0 {
            return Ok(0);
        }
        let demand = &demands[node as usize];
        let load = self.loads[stage as usize];
        let quanta = most_that_fit(&load, demand, left);
        if quanta > 0 {
            self.parts.push(Part {
                node,
                stage,
                quanta,
            })?;
            self.loads[stage as usize] = with_quanta(&load, demand, quanta as u64);
            self.last[node as usize] = self.last[node as usize].max(stage);
        }
        Ok(quanta)
    }

    /// Gives a node from its earliest stage on in each the most quanta that fit, until it has all, and tells how many
    /// are left.
    pub fn spread(
        &mut self,
        demands: &[Demand],
        node: u32,
        earliest: u32,
    ) -> Result<u32, AllocError>
        requires stands { AreFilled demands.now self.old }
        requires node { node < length demands.now }
        ensures left { IfOk result (λ left. left ≡ (spread_of demands.now self.old.parts.items node (stages_from earliest) (demand_at demands.now node).quanta).left) }
        ensures parts { OnOk result (self.new.parts.items ≡ self.old.parts.items ++ (spread_of demands.now self.old.parts.items node (stages_from earliest) (demand_at demands.now node).quanta).parts) }
        ensures stands { OnOk result (AreFilled demands.now self.new) }
    {
        let mut left = demands[node as usize].quanta;
        for stage in earliest..32 {
            let taken = self.take(demands, node, stage, left)?;
            left -= taken;
        }
        Ok(left)
    }
}

/// Why a node doesn't stand in the stages that are left for it, beside what they take: a hit for each from its earliest
/// on, or that there are only 32.
pub fn hits(
    alloc: Global,
    loads: &[Load],
    demand: &Demand,
    earliest: u32,
) -> Result<Sequence<LimitHit>, AllocError>
    requires count { length loads.now ≡ 32 }
    requires within { All IsWithin loads.now }
    ensures { IfOk result (λ hits. (demands : List Demand) (parts : List Part) (n : ℕ) → HoldStages demands parts loads.now → demand_at demands n ≡ demand.now → hits ≡ hits_from demands parts n earliest) }
{
    let mut hits = Sequence::new(alloc);
    if earliest >= 32 {
        hits.push(LimitHit {
            limit: 1,
            stage: 32,
            sum: 32,
            need: 1,
        })?;
        return Ok(hits);
    }
    let mut left = demand.quanta;
    for stage in earliest..32 {
        let load = &loads[stage as usize];
        let taken = most_that_fit(load, demand, left);
        push_hit(&mut hits, hit(load, demand, taken, stage as u8))?;
        left -= taken;
    }
    Ok(hits)
}

/// Adds a hit, if there is one.
fn push_hit(hits: &mut Sequence<LimitHit>, hit: Option<LimitHit>) -> Result<(), AllocError>
    ensures { OnOk result (hits.new ≡ hits.old ++ hit_list hit) }
{
    match hit {
        Some(hit) => hits.push(hit),
        None => Ok(()),
    }
}
