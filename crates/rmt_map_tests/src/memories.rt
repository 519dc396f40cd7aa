//! Cells and records of parts: where they stand in the rows of blocks, and that they read back.

ghost use Rattle.std.specs.Prelude.{◌≡◌, ◌+◌, ◌*◌, ◌≤◌, IfOk, length};
ghost use Rattle.std.specs.List.{range_with_len};
ghost use Rattle.rmt_pack.specs.Shape.{IsShape, cells_in};
ghost use Rattle.rmt_pack.specs.declared.shape.Shape.{Shape as ShapeOf};

use rmt_bits::answer::Bytes;
use rmt_bits::sequence::Sequence;
use rmt_pack::cell::{read_cell, write_cell};
use rmt_pack::head::Head;
use rmt_pack::record::{read_record, write_record};
use rmt_pack::rows::Rows;
use rmt_pack::shape::{EXACT, Shape, TERNARY};
use std::alloc::{AllocError, Global};
use std::process::Abort;
use std::test::*;

/// That many blocks, numbered from one on.
fn blocks(alloc: Global, first: u8, many: u8) -> Result<Bytes, AllocError>
    requires { first + many ≤ 106 }
    ensures { IfOk result (λ list. list ≡ range_with_len first many) }
{
    let mut list = Vec::new(alloc);
    for block in first..first + many {
        list.push(block)?;
    }
    Ok(Sequence::from_vec(list))
}

/// Two quanta of keys of 48 bits, two of them a row, with records of 16 bits: 16,384 cells.
fn small_part(alloc: Global) -> Result<Shape, AllocError>
    ensures shape { IfOk result (λ (s : ShapeOf). IsShape s) }
    ensures exact { IfOk result (λ (s : ShapeOf). s.memory ≡ 1) }
    ensures cells { IfOk result (λ (s : ShapeOf). cells_in s ≡ 16384) }
    ensures key { IfOk result (λ (s : ShapeOf). s.key ≡ 48) }
    ensures held { IfOk result (λ (s : ShapeOf). s.held ≡ 16) }
{
    Ok(Shape {
        memory: EXACT,
        key: 48,
        width: 1,
        per: 2,
        quanta: 2,
        held: 16,
        keys: blocks(alloc, 0, 8)?,
        records: blocks(alloc, 8, 4)?,
    })
}

/// Keys of 112 bits, six of them in a row of seven blocks: 24,576 cells.
fn wide_part(alloc: Global) -> Result<Shape, AllocError>
    ensures shape { IfOk result (λ (s : ShapeOf). IsShape s) }
    ensures exact { IfOk result (λ (s : ShapeOf). s.memory ≡ 1) }
    ensures cells { IfOk result (λ (s : ShapeOf). cells_in s ≡ 24576) }
    ensures key { IfOk result (λ (s : ShapeOf). s.key ≡ 112) }
{
    Ok(Shape {
        memory: EXACT,
        key: 112,
        width: 7,
        per: 6,
        quanta: 1,
        held: 0,
        keys: blocks(alloc, 40, 28)?,
        records: Sequence::new(alloc),
    })
}

/// Two quanta of ternary rows with records of 24 bits: 4,096 rows.
fn ternary_part(alloc: Global) -> Result<Shape, AllocError>
    ensures shape { IfOk result (λ (s : ShapeOf). IsShape s) }
    ensures cells { IfOk result (λ (s : ShapeOf). cells_in s ≡ 4096) }
    ensures held { IfOk result (λ (s : ShapeOf). s.held ≡ 24) }
{
    Ok(Shape {
        memory: TERNARY,
        key: 40,
        width: 0,
        per: 0,
        quanta: 2,
        held: 24,
        keys: Sequence::new(alloc),
        records: blocks(alloc, 0, 2)?,
    })
}

/// A row of a block, if there is one.
fn row_at(rows: &Rows, block: u8, row: u16) -> Option<u128> {
    if block < 106 && row < 1024 {
        Some(rows.row(block, row))
    } else {
        None
    }
}

/// Writes a cell of a part whose keys have that many bytes; false where it can't be.
fn put_cell(
    rows: &mut Rows,
    part: &Shape,
    cells: u32,
    bytes: usize,
    cell: u32,
    head: Head,
    key: &[u8],
) -> bool
    requires shape { IsShape part.now }
    requires exact { part.now.memory ≡ 1 }
    requires cells { cells_in part.now ≡ cells }
    requires key { part.now.key ≡ 8 * bytes }
{
    if cell >= cells || head.visible >= 4 || head.code >= 32 || key.len() != bytes {
        return false;
    }
    write_cell(rows, part, cell, head, key);
    true
}

/// Reads a cell of such a part.
fn get_cell(
    rows: &Rows,
    part: &Shape,
    cells: u32,
    bytes: usize,
    cell: u32,
    key: &mut [u8],
) -> Option<Head>
    requires shape { IsShape part.now }
    requires exact { part.now.memory ≡ 1 }
    requires cells { cells_in part.now ≡ cells }
    requires key { part.now.key ≡ 8 * bytes }
    ensures { length key.new ≡ length key.old }
{
    if cell >= cells || key.len() != bytes {
        return None;
    }
    Some(read_cell(rows, part, cell, key))
}

/// Writes the record of a cell or row of a part whose records have that many bytes; false where it can't be.
fn put_record(
    rows: &mut Rows,
    part: &Shape,
    cells: u32,
    bytes: usize,
    cell: u32,
    held: &[u8],
) -> bool
    requires shape { IsShape part.now }
    requires cells { cells_in part.now ≡ cells }
    requires held { part.now.held ≡ 8 * bytes }
{
    if cell >= cells || held.len() != bytes {
        return false;
    }
    write_record(rows, part, cell, held);
    true
}

/// Reads the record of a cell or row of such a part; false where it can't be.
fn get_record(
    rows: &Rows,
    part: &Shape,
    cells: u32,
    bytes: usize,
    cell: u32,
    held: &mut [u8],
) -> bool
    requires shape { IsShape part.now }
    requires cells { cells_in part.now ≡ cells }
    requires held { part.now.held ≡ 8 * bytes }
    ensures { length held.new ≡ length held.old }
{
    if cell >= cells || held.len() != bytes {
        return false;
    }
    read_record(rows, part, cell, held);
    true
}

/// A cell, its head and key, and of the row where they stand the block, the number and the bits.
const CELLS: [(u32, Head, [u8; 6], u8, u16, u128); 6] = [
    (
        0,
        Head {
            occupied: true,
            visible: 0,
            code: 0,
        },
        [0, 0, 0, 0, 0, 0],
        0,
        0,
        0xffff_ffff_ffff_ff00_0000_0000_0001,
    ),
    (
        1,
        Head {
            occupied: true,
            visible: 3,
            code: 31,
        },
        [255, 255, 255, 255, 255, 255],
        0,
        0,
        0xffff_ffff_ffff_ff00_0000_0000_0001,
    ),
    (
        2046,
        Head {
            occupied: false,
            visible: 2,
            code: 21,
        },
        [0x01, 0x23, 0x45, 0x67, 0x89, 0xab],
        0,
        1023,
        0x0123_4567_89ab_ac,
    ),
    (
        2048,
        Head {
            occupied: true,
            visible: 1,
            code: 0,
        },
        [0xfe, 0xdc, 0xba, 0x98, 0x76, 0x54],
        4,
        0,
        0xfedc_ba98_7654_03,
    ),
    (
        4097,
        Head {
            occupied: true,
            visible: 0,
            code: 30,
        },
        [0, 0, 0, 0, 0, 1],
        1,
        0,
        0x1f1_0000_0000_0000_00,
    ),
    (
        16383,
        Head {
            occupied: true,
            visible: 2,
            code: 21,
        },
        [0x01, 0x23, 0x45, 0x67, 0x89, 0xab],
        7,
        1023,
        0x0123_4567_89ab_ad00_0000_0000_0000,
    ),
];

/// The first and last position of a row, the last row of a quantum, the first of the next, a second way, the last cell.
#[test]
fn cells_stand_and_read_back(rt: HostRuntime) -> Result<(), Fail> {
    let part = small_part(rt.alloc())?;
    let mut rows = Rows::new(rt.alloc())?;
    for &(cell, head, key, _, _, _) in &CELLS {
        let is_put = put_cell(&mut rows, &part, 16384, 6, cell, head, &key);
        assert!(rt; is_put, "cell {cell}");
    }
    for &(cell, head, key, block, row, bits) in &CELLS {
        let mut read = [9; 6];
        let found = get_cell(&rows, &part, 16384, 6, cell, &mut read);
        let seen = (row_at(&rows, block, row), found, read);
        assert!(rt; seen == (Some(bits), Some(head), key), "cell {cell}");
    }
    Ok(())
}

/// A key of 112 bits, its head, and the rows where the cells 5 and 24,575 stand.
const WIDE_KEY: [u8; 14] = [0x80, 0, 0, 0, 0, 0, 0, 0, 0, 0, 0, 0, 0, 5];

const WIDE_HEAD: Head = Head {
    occupied: true,
    visible: 0,
    code: 31,
};

const WIDE_ROWS: [(u8, u16, u128); 5] = [
    (45, 0, 0x5f9_0000_0000_00),
    (46, 0, 0x8000_0000_0000),
    (66, 1023, 0x5f9_0000_0000_00),
    (67, 1023, 0x8000_0000_0000),
    (44, 0, 0),
];

/// Entries across two blocks, of which the last is that of the last cell.
#[test]
fn wide_cells_stand_and_read_back(rt: HostRuntime) -> Result<(), Fail> {
    let part = wide_part(rt.alloc())?;
    let mut rows = Rows::new(rt.alloc())?;
    for &cell in &[5, 24575] {
        let mut read = [9; 14];
        let is_put = put_cell(&mut rows, &part, 24576, 14, cell, WIDE_HEAD, &WIDE_KEY);
        let found = get_cell(&rows, &part, 24576, 14, cell, &mut read);
        assert!(rt; is_put && found == Some(WIDE_HEAD) && read == WIDE_KEY);
    }
    for &(block, row, bits) in &WIDE_ROWS {
        assert!(rt; row_at(&rows, block, row) == Some(bits), "block {block}");
    }
    Ok(())
}

/// A cell, its record, and of the row where it stands the block, the number and the bits.
type Record = (u32, &'static [u8], u8, u16, u128);

/// Writes records into a part whose records have that many bytes, at most 3, and compares what stands then.
fn records_stand(
    rt: &(impl Abort + AllocGlobal),
    part: &Shape,
    cells: u32,
    bytes: usize,
    records: &[Record],
) -> Result<(), Fail>
    requires shape { IsShape part.now }
    requires cells { cells_in part.now ≡ cells }
    requires held { part.now.held ≡ 8 * bytes }
{
    assert!(rt; bytes <= 3);
    let mut rows = Rows::new(rt.alloc())?;
    for &(cell, held, _, _, _) in records {
        let is_put = put_record(&mut rows, part, cells, bytes, cell, held);
        assert!(rt; is_put, "cell {cell}");
    }
    for &(cell, held, block, row, bits) in records {
        let mut read = [9; 3];
        let is_read = get_record(&rows, part, cells, bytes, cell, &mut read[..bytes]);
        let seen = (row_at(&rows, block, row), is_read);
        assert!(rt;
            seen == (Some(bits), true) && &read[..bytes] == held,
            "cell {cell}"
        );
    }
    Ok(())
}

/// Seven records a row: the first and last of a row, the next row, the next quantum, the next unit, the last.
const RECORDS: [Record; 7] = [
    (0, &[0xbe, 0xef], 8, 0, 0xffff_0000_0000_0000_0000_8001_beef),
    (1, &[0x80, 0x01], 8, 0, 0xffff_0000_0000_0000_0000_8001_beef),
    (6, &[0xff, 0xff], 8, 0, 0xffff_0000_0000_0000_0000_8001_beef),
    (7, &[0x12, 0x34], 8, 1, 0x1234),
    (2048, &[0x01, 0x00], 10, 0, 0x0100),
    (12288, &[0x00, 0x01], 8, 877, 0x1_0000_0000_0000_0000_0000),
    (16383, &[0xbe, 0xef], 11, 146, 0xbeef_0000),
];

#[test]
fn records_stand_and_read_back(rt: HostRuntime) -> Result<(), Fail> {
    let part = small_part(rt.alloc())?;
    records_stand(&rt, &part, 16384, 2, &RECORDS)
}

/// The records of the first and the last row of a ternary part.
const TERNARY_RECORDS: [Record; 2] = [
    (0, &[0x01, 0x02, 0xff], 0, 0, 0x0102ff),
    (
        4095,
        &[0xab, 0xcd, 0xef],
        1,
        511,
        0xab_cdef_0000_0000_0000_0000_00,
    ),
];

#[test]
fn ternary_records_stand_and_read_back(rt: HostRuntime) -> Result<(), Fail> {
    let part = ternary_part(rt.alloc())?;
    records_stand(&rt, &part, 4096, 3, &TERNARY_RECORDS)
}
