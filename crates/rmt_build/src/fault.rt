//! Why a program doesn't fit the chip.

ghost use Rattle.std.specs.Prelude.{◌≡◌};
ghost use Rattle.rmt_build.specs.Refusals.{IsNoMemory, action_told, parser_told, phv_told, stage_told};

use rmt_bits::fault::OutOfMemory;
use rmt_bits::sequence::Sequence;
use rmt_config::limits::LimitHit;
use rmt_phv::fault::PhvFull;
use rmt_place::fault::StageFull;
use rmt_ptcam::fault::ParserFault;
use rmt_vliw::fault::ActionDeep;
use std::alloc::AllocError;
use thiserror::Error;

/// Why a program with its entries doesn't fit the chip.
#[derive(Debug, Drop, Error)]
pub enum NoFit {
    /// There is not enough memory.
    #[error("out of memory")]
    NoMemory,
    /// A header selects by fields that have bits in more than 4 bytes.
    #[error("header {header} selects by {bytes} bytes; the chip looks at 4 at most")]
    Lookup {
        /// The header's number, from 0 on.
        header: u32,
        /// How many bytes these are.
        bytes: u32,
    },
    /// A header has more than 64 extracts: one, and one for each piece of each field.
    #[error("header {header} has {extracts} pieces with its valid; the chip takes 64 at most")]
    Step {
        /// The header's number, from 0 on.
        header: u32,
        /// How many extracts it has.
        extracts: u32,
    },
    /// The headers have more than 256 entries: one for each case, and one for each header.
    #[error("the headers have {entries} cases and `else`s; the chip holds 256 at most")]
    Parser {
        /// How many these are; 4,294,967,295 where there are more.
        entries: u32,
    },
    /// The value that an action leaves in a field takes more than one operation.
    #[error("action {action} leaves more than one operation in field {field}")]
    Action {
        /// The action's number, from 0 on.
        action: u32,
        /// The number of the first such field, in the order of first assignment.
        field: u32,
    },
    /// No word is left for a piece of a field.
    #[error("no word of {class} bits or more is left for field {field}")]
    Phv {
        /// The field's number, from 0 on.
        field: u32,
        /// The size of the least words that hold the piece: 8, 16 or 32 bits.
        class: u8,
    },
    /// A node doesn't stand in the stages that are left for it.
    #[error("node {node} doesn't stand in the stages that are left for it")]
    Stage {
        /// The number of the node, from 0 on.
        node: u32,
        /// For each stage from the node's earliest on, the first limit that one more of its quanta would pass.
        hits: Sequence<LimitHit>,
    },
    /// Under none of the seeds 0 to 7 all exact tables are loaded: some table has entries with fewer cells than they are.
    #[error("under no seed the keys of all exact tables find cells; of the table of node {table} some {members} keys have {cells} cells")]
    Load {
        /// The number of the node that applies the first such table of seed 7.
        table: u32,
        /// How many of its entries these are.
        members: u32,
        /// How many cells they have together, fewer than they are.
        cells: u64,
    },
}

impl From<AllocError> for NoFit {
    ghost from_gives = { λ _. IsNoMemory };

    fn from(_error: AllocError) -> NoFit {
        NoFit::NoMemory
    }
}

impl From<OutOfMemory> for NoFit {
    ghost from_gives = { λ _. IsNoMemory };

    fn from(_error: OutOfMemory) -> NoFit {
        NoFit::NoMemory
    }
}

impl From<ParserFault> for NoFit {
    ghost from_gives = { λ fault e. e ≡ parser_told fault };

    fn from(error: ParserFault) -> NoFit {
        match error {
            ParserFault::NoMemory => NoFit::NoMemory,
            ParserFault::LookupWide { header, bytes } => NoFit::Lookup { header, bytes },
            ParserFault::StepWide { header, extracts } => NoFit::Step { header, extracts },
            ParserFault::ParserFull { entries } => NoFit::Parser { entries },
        }
    }
}

impl From<ActionDeep> for NoFit {
    ghost from_gives = { λ fault e. e ≡ action_told fault };

    fn from(error: ActionDeep) -> NoFit {
        match error {
            ActionDeep::NoMemory => NoFit::NoMemory,
            ActionDeep::At { action, field } => NoFit::Action { action, field },
        }
    }
}

impl From<PhvFull> for NoFit {
    ghost from_gives = { λ fault e. e ≡ phv_told fault };

    fn from(error: PhvFull) -> NoFit {
        match error {
            PhvFull::NoMemory => NoFit::NoMemory,
            PhvFull::At { field, class } => NoFit::Phv { field, class },
        }
    }
}

impl From<StageFull> for NoFit {
    ghost from_gives = { λ fault e. e ≡ stage_told fault };

    fn from(error: StageFull) -> NoFit {
        match error {
            StageFull::NoMemory => NoFit::NoMemory,
            StageFull::At { node, hits, .. } => NoFit::Stage { node, hits },
        }
    }
}
