//! The limits of the chip, by the numbers that an image's fault and a refusal tell.

/// A limit of the chip.
#[derive(Clone, Copy)]
pub struct Limit {
    /// Its number.
    pub number: u64,
    /// What is counted.
    pub what: &'static str,
    /// How many the chip has.
    pub most: u64,
    /// Whether each stage has so many of its own.
    pub is_of_stage: bool,
}

/// The limits, by number.
pub const LIMITS: [Limit; 17] = [
    Limit {
        number: 1,
        what: "stages",
        most: 32,
        is_of_stage: false,
    },
    Limit {
        number: 2,
        what: "words of the header vector",
        most: 224,
        is_of_stage: false,
    },
    Limit {
        number: 3,
        what: "entries and states of the parser",
        most: 256,
        is_of_stage: false,
    },
    Limit {
        number: 4,
        what: "bytes that one state of the parser looks at",
        most: 4,
        is_of_stage: false,
    },
    Limit {
        number: 5,
        what: "bytes (128) or extracts (64) of one parser entry",
        most: 128,
        is_of_stage: false,
    },
    Limit {
        number: 6,
        what: "SRAM blocks",
        most: 106,
        is_of_stage: true,
    },
    Limit {
        number: 7,
        what: "TCAM blocks",
        most: 16,
        is_of_stage: true,
    },
    Limit {
        number: 8,
        what: "bits of words that exact keys read",
        most: 640,
        is_of_stage: true,
    },
    Limit {
        number: 9,
        what: "bits of words that prefix and ternary keys and `if`s read",
        most: 640,
        is_of_stage: true,
    },
    Limit {
        number: 10,
        what: "tables",
        most: 16,
        is_of_stage: true,
    },
    Limit {
        number: 11,
        what: "instructions, one an action of a table and one its default",
        most: 32,
        is_of_stage: true,
    },
    Limit {
        number: 12,
        what: "bits of action parameters",
        most: 1280,
        is_of_stage: true,
    },
    Limit {
        number: 13,
        what: "`if`s",
        most: 16,
        is_of_stage: true,
    },
    Limit {
        number: 14,
        what: "`apply`s and `if`s",
        most: 128,
        is_of_stage: false,
    },
    Limit {
        number: 15,
        what: "SRAM blocks side by side for one key",
        most: 8,
        is_of_stage: true,
    },
    Limit {
        number: 16,
        what: "cycles before the last stage starts",
        most: 372,
        is_of_stage: false,
    },
    Limit {
        number: 17,
        what: "listings of one memory block",
        most: 1,
        is_of_stage: true,
    },
];

/// The limit of a number.
pub fn limit_of(number: u64) -> Option<&'static Limit> {
    for limit in LIMITS.iter() {
        if limit.number == number {
            return Some(limit);
        }
    }
    None
}
