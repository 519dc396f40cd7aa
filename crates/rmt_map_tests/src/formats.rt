//! Memory formats of tables, worked out by the rule: the fewest blocks for the whole table, then the narrowest units, then
//! the most cells a row.

use rmt_ast::name::Name;
use rmt_ast::program::{Kind, Table};
use rmt_bits::answer::Numbers;
use rmt_bits::sequence::Sequence;
use rmt_pack::format::{Format, Need, format_of};
use std::alloc::Global;

/// The format of a table of a kind; None where it needs more than a table may.
fn format_in(alloc: Global, kind: Kind, need: Need) -> Option<Format> {
    if need.key < 1 || need.key > 640 || need.held > 2048 || need.size < 1 || need.size > 1048576 {
        return None;
    }
    let table = Table {
        name: Name::new(alloc),
        kind,
        key: Numbers::new(alloc),
        actions: Numbers::new(alloc),
        default: 0,
        args: Sequence::new(alloc),
        size: need.size,
        counted: need.counted,
    };
    Some(format_of(&table, need.key, need.held))
}

/// The bits of a key, those of an entry's data, the most entries, and whether they are counted; and the blocks side by
/// side, the cells in a row, the quanta, and the SRAM and TCAM blocks of one quantum.
type Row = (u32, u32, u32, bool, u8, u32, u32, u32, u32);

const EXACT: [Row; 14] = [
    (48, 0, 65536, false, 1, 2, 9, 4, 0),
    (104, 0, 65536, false, 1, 1, 18, 4, 0),
    (105, 0, 65536, false, 7, 6, 3, 28, 0),
    (105, 0, 917504, false, 8, 7, 36, 32, 0),
    (80, 0, 900000, false, 4, 5, 50, 16, 0),
    (1, 0, 1, false, 1, 12, 1, 4, 0),
    (1, 0, 1048576, false, 1, 12, 24, 4, 0),
    (1, 0, 1048576, true, 1, 12, 24, 52, 0),
    (1, 2048, 1, true, 1, 1, 1, 84, 0),
    (640, 0, 1, false, 6, 1, 1, 24, 0),
    (640, 0, 1048576, false, 6, 1, 288, 24, 0),
    (640, 2048, 1048576, true, 6, 1, 288, 104, 0),
    (16, 57, 256, false, 1, 1, 1, 8, 0),
    (48, 9, 4096, true, 1, 2, 1, 13, 0),
];

/// A quantum has 2,048 rows, each with a head of 8 bits beside its data.
const TERNARY: [Row; 7] = [
    (1, 0, 1, false, 0, 0, 1, 1, 1),
    (1, 0, 1048576, true, 0, 0, 512, 3, 1),
    (40, 104, 2048, false, 0, 0, 1, 2, 1),
    (41, 48, 2049, false, 0, 0, 2, 1, 2),
    (640, 0, 1, false, 0, 0, 1, 1, 16),
    (640, 9, 2049, false, 0, 0, 2, 1, 16),
    (640, 2048, 1048576, true, 0, 0, 512, 40, 16),
];

/// Whether a table of a kind has the format of a row.
fn has_format(alloc: Global, kind: Kind, row: Row) -> bool {
    let (key, held, size, counted, width, per, quanta, sram, tcam) = row;
    let need = Need {
        key,
        held,
        size,
        counted,
    };
    let wanted = Format {
        width,
        per,
        quanta,
        sram,
        tcam,
    };
    format_in(alloc, kind, need) == Some(wanted)
}

#[test]
fn formats(rt: HostRuntime) {
    for &row in &EXACT {
        assert!(rt; has_format(rt.alloc(), Kind::Exact, row), "exact {}", row.0);
    }
    for &row in &TERNARY {
        assert!(rt;
            has_format(rt.alloc(), Kind::Ternary, row),
            "ternary {}",
            row.0
        );
        assert!(rt;
            has_format(rt.alloc(), Kind::Prefix, row),
            "prefix {}",
            row.0
        );
    }
    let without = (1, 0, 1, false, 0, 0, 1, 0, 0);
    assert!(rt; has_format(rt.alloc(), Kind::Keyless, without));
}
