//! Fields that are packed into the words of the header vector.

use rmt_ast::name::Name;
use rmt_ast::program::{Action, Assign, Expr, Field, Leaf, Program};
use rmt_bits::answer::Bytes;
use rmt_bits::sequence::Sequence;
use rmt_phv::fault::PhvFull;
use rmt_phv::pack_fields;
use rmt_phv::places::Places;
use std::alloc::{AllocError, Global};
use std::test::*;

/// An action that sets these fields to 0.
fn action(alloc: Global, fields: &[u32]) -> Result<Action, AllocError> {
    let mut assigns = Sequence::new(alloc);
    for field in fields {
        let expr = Expr::One(Leaf::Number(0));
        assigns.push(Assign { dest: *field, expr })?;
    }
    Ok(Action {
        name: Name::new(alloc),
        params: Bytes::new(alloc),
        assigns,
    })
}

/// The places of fields of these widths, of which there are fewer than 256, under actions that set these fields.
fn places(alloc: Global, widths: &[u8], actions: &[&[u32]]) -> Result<Places, PhvFull> {
    let mut fields = Sequence::new(alloc);
    for width in widths {
        let name = Name::new(alloc);
        fields.push(Field {
            name,
            width: *width,
        })?;
    }
    let mut all = Sequence::new(alloc);
    for fields in actions {
        all.push(action(alloc, fields)?)?;
    }
    if fields.len() > 255 || all.len() > 256 {
        return Err(PhvFull::NoMemory);
    }
    let program = Program {
        fields,
        headers: Sequence::new(alloc),
        actions: all,
        tables: Sequence::new(alloc),
        nodes: Sequence::new(alloc),
    };
    pack_fields(alloc, &program)
}

/// Widths of fields, the fields that each action sets, and of each piece the field, the word, the lowest bit and the length.
type Row<'a> = (&'a [u8], &'a [&'a [u32]], &'a [(usize, u8, u8, u8)]);

/// The fields of the smallest program; two fields of one word, and two that one action sets; two pieces of one field; a
/// rest that shares a word; no field; the fields of a switch's program of six headers, whose actions set the mark of dropping,
/// the metadata, the port with two fields of 48 bits, and the port.
const ROWS: [Row<'static>; 6] = [
    (
        &[9, 9, 1, 1, 8],
        &[&[1]],
        &[
            (0, 64, 0, 9),
            (1, 65, 0, 9),
            (2, 0, 0, 1),
            (3, 0, 1, 1),
            (4, 1, 0, 8),
        ],
    ),
    (
        &[9, 9, 1, 1, 2, 2, 4],
        &[&[4], &[5]],
        &[
            (0, 64, 0, 9),
            (1, 65, 0, 9),
            (2, 0, 0, 1),
            (3, 0, 1, 1),
            (4, 0, 2, 2),
            (5, 0, 4, 2),
            (6, 1, 0, 4),
        ],
    ),
    (
        &[2, 2, 2],
        &[&[0, 1], &[1, 1]],
        &[(0, 0, 0, 2), (1, 1, 0, 2), (2, 0, 2, 2)],
    ),
    (
        &[70, 1, 34],
        &[],
        &[
            (0, 160, 0, 32),
            (0, 161, 0, 32),
            (0, 0, 0, 6),
            (1, 0, 6, 1),
            (2, 162, 0, 32),
            (2, 1, 0, 2),
        ],
    ),
    (&[], &[], &[]),
    (
        &[
            9, 9, 1, 1, 48, 48, 16, 1, 3, 1, 12, 16, 1, 4, 4, 8, 16, 16, 3, 13, 8, 8, 16, 32, 32,
            1, 4, 8, 20, 16, 8, 8, 128, 128, 1, 16, 16, 32, 32, 4, 12, 16, 16, 16, 1, 16, 16, 16,
            16, 16,
        ],
        &[&[2], &[], &[49], &[1, 5, 4], &[1]],
        &[
            (0, 64, 0, 9),
            (1, 65, 0, 9),
            (2, 0, 0, 1),
            (3, 0, 1, 1),
            (4, 160, 0, 32),
            (4, 66, 0, 16),
            (5, 161, 0, 32),
            (5, 67, 0, 16),
            (6, 68, 0, 16),
            (7, 0, 2, 1),
            (8, 0, 3, 3),
            (9, 0, 6, 1),
            (10, 69, 0, 12),
            (11, 70, 0, 16),
            (12, 0, 7, 1),
            (13, 1, 0, 4),
            (14, 1, 4, 4),
            (15, 2, 0, 8),
            (16, 71, 0, 16),
            (17, 72, 0, 16),
            (18, 3, 0, 3),
            (19, 73, 0, 13),
            (20, 4, 0, 8),
            (21, 5, 0, 8),
            (22, 74, 0, 16),
            (23, 162, 0, 32),
            (24, 163, 0, 32),
            (25, 3, 3, 1),
            (26, 3, 4, 4),
            (27, 6, 0, 8),
            (28, 164, 0, 20),
            (29, 75, 0, 16),
            (30, 7, 0, 8),
            (31, 8, 0, 8),
            (32, 165, 0, 32),
            (32, 166, 0, 32),
            (32, 167, 0, 32),
            (32, 168, 0, 32),
            (33, 169, 0, 32),
            (33, 170, 0, 32),
            (33, 171, 0, 32),
            (33, 172, 0, 32),
            (34, 9, 0, 1),
            (35, 76, 0, 16),
            (36, 77, 0, 16),
            (37, 173, 0, 32),
            (38, 174, 0, 32),
            (39, 9, 1, 4),
            (40, 78, 0, 12),
            (41, 79, 0, 16),
            (42, 80, 0, 16),
            (43, 81, 0, 16),
            (44, 9, 5, 1),
            (45, 82, 0, 16),
            (46, 83, 0, 16),
            (47, 84, 0, 16),
            (48, 85, 0, 16),
            (49, 86, 0, 16),
        ],
    ),
];

#[test]
fn packs_fields(rt: HostRuntime) -> Result<(), Fail> {
    for &(widths, actions, pieces) in &ROWS {
        let places = places(rt.alloc(), widths, actions)?;
        let mut seen = Vec::new(rt.alloc());
        for (field, lanes) in places.as_slice().iter().enumerate() {
            for lane in lanes.as_slice() {
                seen.push((field, lane.word, lane.low, lane.len))?;
            }
        }
        assert!(rt; places.len() == widths.len());
        assert!(rt; seen.as_slice() == pieces);
    }
    Ok(())
}

/// 64 fields of 32 bits fill the words of 32 bits.
#[test]
fn tells_the_65th_wide_field(rt: HostRuntime) {
    let is_told = matches!(
        places(rt.alloc(), &[32; 65], &[]),
        Err(PhvFull::At {
            field: 64,
            class: 32
        })
    );
    assert!(rt; is_told);
    assert!(rt; places(rt.alloc(), &[32; 64], &[]).is_ok());
}
