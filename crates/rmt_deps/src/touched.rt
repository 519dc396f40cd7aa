//! The fields that nodes look at, read and write, and the words of their pieces.

ghost use Rattle.std.specs.Prelude.{◌≡◌, ◌++◌, ◌∷◌, [], IfOk, OnOk, map};
ghost use Rattle.std.specs.List.{flat_map};
ghost use Rattle.rmt_bits.specs.declared.lane.Lane.{Lane};
ghost use Rattle.rmt_ast.specs.declared.program.Assign.{Assign};
ghost use Rattle.rmt_ast.specs.Places.{lanes_of};
ghost use Rattle.rmt_phv.specs.Places.{written_by};
ghost use Rattle.rmt_deps.specs.Edges.{leaf_fields, expr_fields, read_by, of_action, of_table as of_table_by, keys_of, reads_of, writes_of, words_of_fields};

use rmt_ast::program::{Assign, Expr, Leaf, Program, Table, What};
use rmt_bits::answer::Numbers;
use rmt_bits::lane::Lane;
use rmt_phv::places::Places;
use std::alloc::{AllocError, Global};

/// The fields that a node touches, each as often as it stands there.
#[derive(Drop)]
pub struct Touched {
    /// Those of its key, or the one that it tests.
    pub keys: Numbers,
    /// Those that its actions read.
    pub reads: Numbers,
    /// Those that its actions assign.
    pub writes: Numbers,
}

/// The fields that the node of a number touches.
pub fn fields_of(alloc: Global, program: &Program, node: usize) -> Result<Touched, AllocError>
    ensures keys { IfOk result (λ touched. touched.keys ≡ keys_of program.now node) }
    ensures reads { IfOk result (λ touched. touched.reads ≡ reads_of program.now node) }
    ensures writes { IfOk result (λ touched. touched.writes ≡ writes_of program.now node) }
{
    let Some(node) = program.nodes.get(node) else {
        return Ok(of_nothing(alloc));
    };
    match node.what {
        What::Apply(table) => {
            let Some(table) = program.tables.get(table as usize) else {
                return Ok(of_nothing(alloc));
            };
            of_table(alloc, program, table)
        }
        What::Gate { field, .. } => of_gate(alloc, field),
    }
}

/// No field.
fn of_nothing(alloc: Global) -> Touched
    ensures { result ≡ record { keys = []; reads = []; writes = [] } }
{
    Touched {
        keys: Numbers::new(alloc),
        reads: Numbers::new(alloc),
        writes: Numbers::new(alloc),
    }
}

/// A gate looks at its field.
fn of_gate(alloc: Global, field: u32) -> Result<Touched, AllocError>
    ensures { IfOk result (λ touched. touched ≡ record { keys = field ∷ []; reads = []; writes = [] }) }
{
    let mut touched = of_nothing(alloc);
    touched.keys.push(field)?;
    Ok(touched)
}

/// A table looks at its key; its listed actions and its default read and write.
fn of_table(alloc: Global, program: &Program, table: &Table) -> Result<Touched, AllocError>
    ensures keys { IfOk result (λ touched. touched.keys ≡ table.now.key) }
    ensures reads { IfOk result (λ touched. touched.reads ≡ of_table_by program.now read_by table.now) }
    ensures writes { IfOk result (λ touched. touched.writes ≡ of_table_by program.now written_by table.now) }
{
    let mut keys = Numbers::new(alloc);
    for field in table.key.as_slice() {
        keys.push(*field)?;
    }
    let mut reads = Numbers::new(alloc);
    let mut writes = Numbers::new(alloc);
    push_action(&mut reads, &mut writes, program, table.default)?;
    for action in table.actions.as_slice() {
        push_action(&mut reads, &mut writes, program, *action)?;
    }
    Ok(Touched {
        keys,
        reads,
        writes,
    })
}

/// Adds what the action of a number reads and writes.
fn push_action(
    reads: &mut Numbers,
    writes: &mut Numbers,
    program: &Program,
    action: u32,
) -> Result<(), AllocError>
    ensures reads { OnOk result (reads.new ≡ reads.old ++ of_action program.now read_by action) }
    ensures writes { OnOk result (writes.new ≡ writes.old ++ of_action program.now written_by action) }
{
    match program.actions.get(action as usize) {
        Some(action) => push_assigns(reads, writes, action.assigns.as_slice()),
        None => Ok(()),
    }
}

/// Adds what assignments read and write.
fn push_assigns(
    reads: &mut Numbers,
    writes: &mut Numbers,
    assigns: &[Assign],
) -> Result<(), AllocError>
    ensures reads { OnOk result (reads.new ≡ reads.old ++ flat_map (λ (x : Assign). expr_fields x.expr) assigns.now) }
    ensures writes { OnOk result (writes.new ≡ writes.old ++ map (λ (x : Assign). x.dest) assigns.now) }
{
    for assign in assigns {
        push_expr(reads, assign.expr)?;
        writes.push(assign.dest)?;
    }
    Ok(())
}

/// Adds the fields of an expression.
fn push_expr(fields: &mut Numbers, expr: Expr) -> Result<(), AllocError>
    ensures { OnOk result (fields.new ≡ fields.old ++ expr_fields expr) }
{
    match expr {
        Expr::One(x) => push_leaf(fields, x),
        Expr::Two(_, x, y) => {
            push_leaf(fields, x)?;
            push_leaf(fields, y)
        }
    }
}

/// Adds the field of an operand, if it is one.
fn push_leaf(fields: &mut Numbers, leaf: Leaf) -> Result<(), AllocError>
    ensures { OnOk result (fields.new ≡ fields.old ++ leaf_fields leaf) }
{
    match leaf {
        Leaf::Field(field) => fields.push(field),
        Leaf::Param(_) | Leaf::Number(_) => Ok(()),
    }
}

/// The words in which some fields have pieces, each as often as a piece stands there.
pub fn words(alloc: Global, places: &Places, fields: &[u32]) -> Result<Numbers, AllocError>
    ensures { IfOk result (λ words. words ≡ words_of_fields places.now fields.now) }
{
    let mut words = Numbers::new(alloc);
    for field in fields {
        push_field(&mut words, places, *field)?;
    }
    Ok(words)
}

/// Adds the words in which a field has pieces.
fn push_field(words: &mut Numbers, places: &Places, field: u32) -> Result<(), AllocError>
    ensures { OnOk result (words.new ≡ words.old ++ map (λ (l : Lane). l.word) (lanes_of places.now field)) }
{
    match places.get(field as usize) {
        Some(lanes) => push_words(words, lanes.as_slice()),
        None => Ok(()),
    }
}

/// Adds the words of some lanes.
fn push_words(words: &mut Numbers, lanes: &[Lane]) -> Result<(), AllocError>
    ensures { OnOk result (words.new ≡ words.old ++ map (λ (l : Lane). l.word) lanes.now) }
{
    for lane in lanes {
        words.push(u32::from(lane.word))?;
    }
    Ok(())
}
