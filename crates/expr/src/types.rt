// Types to check against, and the steps that unify: what the rules ask of the layers below.
ghost use Rattle.std.specs.Prelude.{◌≡◌};
ghost use Rattle.unionfind.specs.Cells.{Live};
ghost use Rattle.structure.specs.Types.{code_in};
ghost use Rattle.expr.specs.Lent.{env_of};
ghost use Rattle.expr.specs.State.{fresh_type, unify_step};
ghost use Rattle.expr.specs.Ready.{Coded, SlotsCoded, CellsRan, CellsType, SlotsRan};
ghost use Rattle.expr.specs.Rules.{definition_code, literal_code, bare_rule, literal_rule, slot_rule, let_type, bool_first, operand_type, result_last, field_type_rule};

use crate::answer::{Expected, Outcome, done};
use crate::state::Env;
use laws::{Fault, Refusal};
use members::is_marked;
use operators::Op;
use pack::ExpressionRow;
use slots::{Slots, slot_at};
use structure::{TypeTable, type_code};
use unify::unify;
use unionfind::{Kind, Tag, UnionFind, code_of, fresh};

// The ops of literals that are no primitive's number.
const BARE_INTEGER: u32 = 5;

const BARE_FLOAT: u32 = 6;

const UNIT_LITERAL: u32 = 7;

// The last op whose operands are bool, and the last whose result is.
const OR: u32 = Op::Or as u32;

const NE: u32 = Op::Ne as u32;

// The codes of two types that the rules name.
#[derive(Clone, Copy)]
pub struct Code {
    pub code: u32,
}

impl Code {
    // Tag::UNIT and number 0.
    pub const UNIT: u32 = 16384;

    // Tag::PRIMITIVE and Primitive::Bool.
    pub const BOOL: u32 = 32772;
}

// Expected left, own or found type right.
pub fn meet(
    cells: &mut [u32; UnionFind::CAPACITY],
    marks: &[u32; TypeTable::CAPACITY],
    id: u32,
    left: u32,
    right: u32,
    vars: u32,
) -> Result<Outcome, Refusal>
    requires { Live vars cells.old × (Coded vars left × Coded vars right) }
    ensures { CellsRan vars (unify_step marks.now id left right vars) cells.old result cells.new }
{
    unify(cells, vars, marks, left, right, id)?;
    done(false, 0, vars)
}

pub fn fresh_type(
    cells: &mut [u32; UnionFind::CAPACITY],
    kind: Kind,
    vars: u32,
) -> Result<Expected, Refusal>
    requires { Live vars cells.old }
    ensures { CellsType vars (fresh_type kind vars) cells.old result cells.new }
{
    let code = fresh(cells, vars, kind)?;
    Ok(Expected {
        code,
        vars: vars + 1,
    })
}

// A bare number: a fresh variable of its kind.
fn bare(
    cells: &mut [u32; UnionFind::CAPACITY],
    marks: &[u32; TypeTable::CAPACITY],
    kind: Kind,
    id: u32,
    want: u32,
    vars: u32,
) -> Result<Outcome, Refusal>
    requires { Live vars cells.old × Coded vars want }
    ensures { CellsRan vars (bare_rule kind marks.now id want vars) cells.old result cells.new }
{
    let own = fresh_type(cells, kind, vars)?;
    meet(cells, marks, id, want, own.code, own.vars)
}

fn literal_code(op: u32) -> u32
    ensures { result ≡ literal_code op }
{
    if op == UNIT_LITERAL {
        Code::UNIT
    } else {
        code_of(Tag::PRIMITIVE, op % Tag::NUMBERS)
    }
}

// The type of a definition without arguments.
#[tactic(auto, unfolding(crate::specs::Rules::definition_code))]
pub fn definition_code(d: u32) -> u32
    ensures { result ≡ definition_code d }
{
    code_of(Tag::DEFINITION, d % Tag::NUMBERS)
}

pub fn literal(
    cells: &mut [u32; UnionFind::CAPACITY],
    marks: &[u32; TypeTable::CAPACITY],
    id: u32,
    n: ExpressionRow,
    want: u32,
    vars: u32,
) -> Result<Outcome, Refusal>
    requires { Live vars cells.old × Coded vars want }
    ensures { CellsRan vars (literal_rule marks.now id n want vars) cells.old result cells.new }
{
    let op = n.op;
    if op == BARE_INTEGER {
        return bare(cells, marks, Kind::IntVar, id, want, vars);
    }
    if op == BARE_FLOAT {
        return bare(cells, marks, Kind::FloatVar, id, want, vars);
    }
    meet(cells, marks, id, want, literal_code(op), vars)
}

// The use of a slot.
pub fn slot(
    cells: &mut [u32; UnionFind::CAPACITY],
    marks: &[u32; TypeTable::CAPACITY],
    slots: &[u32; Slots::CAPACITY],
    id: u32,
    n: ExpressionRow,
    want: u32,
    vars: u32,
) -> Result<Outcome, Refusal>
    requires { Live vars cells.old × (Coded vars want × SlotsCoded vars slots.now) }
    ensures { SlotsRan vars (slot_rule marks.now id n want vars) cells.old slots.now result cells.new }
{
    let x = slot_at(slots, n.a);
    if Slots::OPEN <= x {
        meet(cells, marks, id, want, x - Slots::OPEN, vars)
    } else {
        Err(Refusal::at(Fault::SlotNotOpen, id))
    }
}

// The type of a let: its annotation, or a fresh variable.
pub fn let_type(
    env: &Env,
    cells: &mut [u32; UnionFind::CAPACITY],
    id: u32,
    annotation: u32,
    vars: u32,
) -> Result<Expected, Refusal>
    requires { Live vars cells.old }
    ensures { let e = env_of env.now in CellsType vars (let_type e.p e.c e.same e.marks id annotation vars) cells.old result cells.new }
{
    if annotation == 0 {
        return fresh_type(cells, Kind::Var, vars);
    }
    let t = annotation - 1;
    if is_marked(env.marks, t) {
        return Err(Refusal::at(Fault::HoldsVariable, id));
    }
    Ok(Expected {
        code: type_code(env.pack, env.counts, env.same, t),
        vars,
    })
}

// And, Or, comparisons, Eq, Ne: expected is bool, before all else.
pub fn bool_first(
    cells: &mut [u32; UnionFind::CAPACITY],
    marks: &[u32; TypeTable::CAPACITY],
    id: u32,
    op: u32,
    want: u32,
    vars: u32,
) -> Result<Outcome, Refusal>
    requires { Live vars cells.old × Coded vars want }
    ensures { CellsRan vars (bool_first marks.now id op want vars) cells.old result cells.new }
{
    if op <= NE {
        meet(cells, marks, id, want, Code::BOOL, vars)
    } else {
        done(false, 0, vars)
    }
}

// What the left side of an operator is checked against.
pub fn operand_type(
    cells: &mut [u32; UnionFind::CAPACITY],
    op: u32,
    vars: u32,
) -> Result<Expected, Refusal>
    requires { Live vars cells.old }
    ensures { CellsType vars (operand_type op vars) cells.old result cells.new }
{
    if op <= OR {
        Ok(Expected {
            code: Code::BOOL,
            vars,
        })
    } else {
        fresh_type(cells, Kind::Var, vars)
    }
}

// The other operators: their result is expected, after all else.
pub fn result_last(
    cells: &mut [u32; UnionFind::CAPACITY],
    marks: &[u32; TypeTable::CAPACITY],
    id: u32,
    op: u32,
    want: u32,
    res: u32,
    vars: u32,
) -> Result<Outcome, Refusal>
    requires { Live vars cells.old × (Coded vars want × Coded vars res) }
    ensures { CellsRan vars (result_last marks.now id op want res vars) cells.old result cells.new }
{
    if op <= NE {
        done(false, 0, vars)
    } else {
        meet(cells, marks, id, want, res, vars)
    }
}

// A field that was found: its type.
pub fn field_type(
    env: &Env,
    cells: &mut [u32; UnionFind::CAPACITY],
    id: u32,
    t: u32,
    want: u32,
    d: bool,
    vars: u32,
) -> Result<Outcome, Refusal>
    requires { let e = env_of env.now in Live vars cells.old × (Coded vars want × Coded vars (code_in e.p e.c e.same t)) }
    ensures { let e = env_of env.now in CellsRan vars (field_type_rule e.p e.c e.same e.marks id t want d vars) cells.old result cells.new }
{
    let code = type_code(env.pack, env.counts, env.same, t);
    let u = meet(cells, env.marks, id, want, code, vars)?;
    done(d, 0, u.vars)
}
