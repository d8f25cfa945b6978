// The rules of module 4, one function a rule, with the names of the Rust where it has one. They call each other as the Rust's do; the depth
// left falls at each level.
ghost use Rattle.std.specs.Prelude.{true, false, ◌<◌};
ghost use Rattle.expr.specs.Lent.{env_of, state_of, SameLoans, Leaves};
ghost use Rattle.expr.specs.Ready.{Coded, Fielded, Ready};
ghost use Rattle.expr.specs.Rules.{let_rule, stmt_rule, stmts_rule, last_rule, block_rule, right_rule, operator_rule, guard_rule, body_rule, arm_rule, arms_rule, cases_rule, match_rule, fields_rule, record_rule, field_rule, returned_rule, return_rule, kind_rule, expr_rule};

use crate::answer::{Outcome, done};
use crate::notes::{last_code, record_type, seal};
use crate::payload::{close_payload, ends_arms, open_payload};
use crate::state::{Env, State};
use crate::types::{
    Code, bool_first, definition_code, field_type, fresh_type, let_type, literal, meet,
    operand_type, result_last, slot,
};
use arms::{Subject, arm_fault, examined, missing_variants};
use laws::{Fault, Refusal};
use members::{accessed, is_list, member_of};
use operators::{call_number, operator_plan};
use pack::{ExpressionRow, NodeKind, definition_row, expression_row, list_item, list_len};
use records::record_fault;
use slots::{close_lets, open_slot};
use structure::type_code;
use unify::resolve_type;
use unionfind::Kind;

impl<'a> State<'a> {
    // A let: its type, its value, then its slot opens.
    #[cycle(rules)]
    pub fn let_stmt(
        &mut self,
        env: &Env,
        depth: u32,
        id: u32,
        n: ExpressionRow,
        vars: u32,
    ) -> Result<Outcome, Refusal>
        requires { Ready vars (state_of self.old) }
        ensures loans { SameLoans self.old self.new }
        ensures ran { let e = env_of env.now in Leaves vars (let_rule (expr_rule depth e) e id n vars (state_of self.old)) result self.new }
    {
        record_type(self.notes, id, Code::UNIT);
        let own = let_type(env, self.cells, id, n.c, vars)?;
        let o = self.expr(env, depth, n.b, own.code, own.vars)?;
        if open_slot(self.slots, n.a, own.code) {
            seal(self.notes, id, o.diverges, 0);
            done(o.diverges, 0, o.vars)
        } else {
            Err(Refusal::at(Fault::SlotBoundBefore, id))
        }
    }

    // A statement: a let, or an expression of any type.
    #[cycle(rules)]
    pub fn stmt(&mut self, env: &Env, depth: u32, id: u32, vars: u32) -> Result<Outcome, Refusal>
        requires { Ready vars (state_of self.old) }
        ensures loans { SameLoans self.old self.new }
        ensures ran { let e = env_of env.now in Leaves vars (stmt_rule (expr_rule depth e) e id vars (state_of self.old)) result self.new }
    {
        let n = expression_row(env.pack, env.counts, id);
        if n.kind == NodeKind::Let as u32 {
            return self.let_stmt(env, depth, id, n, vars);
        }
        let own = fresh_type(self.cells, Kind::Var, vars)?;
        self.expr(env, depth, id, own.code, own.vars)
    }

    // The statements of a list of n, in order.
    #[cycle(rules)]
    pub fn stmts(
        &mut self,
        env: &Env,
        depth: u32,
        list: u32,
        n: u32,
        vars: u32,
    ) -> Result<Outcome, Refusal>
        requires { Ready vars (state_of self.old) }
        ensures loans { SameLoans self.old self.new }
        ensures ran { let e = env_of env.now in Leaves vars (stmts_rule (expr_rule depth e) e list n 0 false vars (state_of self.old)) result self.new }
    {
        let mut d = false;
        let mut used = vars;
        for k in 0..n {
            let id = list_item(env.pack, env.counts, list, k);
            let o = self.stmt(env, depth, id, used)?;
            d = d || o.diverges;
            used = o.vars;
        }
        done(d, 0, used)
    }

    // A block's last expression, stored as last+1, or unit unless diverged.
    #[cycle(rules)]
    pub fn last(
        &mut self,
        env: &Env,
        depth: u32,
        id: u32,
        last: u32,
        want: u32,
        d: bool,
        vars: u32,
    ) -> Result<Outcome, Refusal>
        requires { Ready vars (state_of self.old) × Coded vars want }
        ensures loans { SameLoans self.old self.new }
        ensures ran { let e = env_of env.now in Leaves vars (last_rule (expr_rule depth e) e id last want d vars (state_of self.old)) result self.new }
    {
        if last == 0 {
            if d {
                return done(d, 0, vars);
            }
            return meet(self.cells, env.marks, id, want, Code::UNIT, vars);
        }
        self.expr(env, depth, last - 1, want, vars)
    }

    // A block: its statements and its last expression; then its lets' slots close.
    #[cycle(rules)]
    pub fn block(
        &mut self,
        env: &Env,
        depth: u32,
        id: u32,
        n: ExpressionRow,
        want: u32,
        vars: u32,
    ) -> Result<Outcome, Refusal>
        requires { Ready vars (state_of self.old) × Coded vars want }
        ensures loans { SameLoans self.old self.new }
        ensures ran { let e = env_of env.now in Leaves vars (block_rule (expr_rule depth e) e id n want vars (state_of self.old)) result self.new }
    {
        let left = list_len(env.pack, env.counts, n.a);
        let o = self.stmts(env, depth, n.a, left, vars)?;
        let l = self.last(env, depth, id, n.b, want, o.diverges, o.vars)?;
        close_lets(env.pack, env.counts, self.slots, n.a);
        let code = last_code(self.notes, n.b);
        record_type(self.notes, id, code);
        done(o.diverges || l.diverges, 0, l.vars)
    }

    // An operator once its left side is checked: the left side's test, then the right side.
    #[cycle(rules)]
    pub fn right(
        &mut self,
        env: &Env,
        depth: u32,
        id: u32,
        n: ExpressionRow,
        want: u32,
        own: u32,
        d: bool,
        vars: u32,
    ) -> Result<Outcome, Refusal>
        requires { Ready vars (state_of self.old) × (Coded vars want × Coded vars own) }
        ensures loans { SameLoans self.old self.new }
        ensures ran { let e = env_of env.now in Leaves vars (right_rule (expr_rule depth e) e id n want own d vars (state_of self.old)) result self.new }
    {
        let x = resolve_type(self.cells, vars, own);
        let list = is_list(env.pack, env.counts, x);
        match operator_plan(n.op, own, x, list) {
            Err(fault) => Err(Refusal::at(fault, n.a)),
            Ok(plan) => {
                let r = self.expr(env, depth, n.b, plan.right, vars)?;
                let u = result_last(self.cells, env.marks, id, n.op, want, plan.result, r.vars)?;
                done(d || r.diverges, call_number(plan.call), u.vars)
            }
        }
    }

    // An operator: what it wants of expected, its left side, and the rest.
    #[cycle(rules)]
    pub fn binop(
        &mut self,
        env: &Env,
        depth: u32,
        id: u32,
        n: ExpressionRow,
        want: u32,
        vars: u32,
    ) -> Result<Outcome, Refusal>
        requires { Ready vars (state_of self.old) × Coded vars want }
        ensures loans { SameLoans self.old self.new }
        ensures ran { let e = env_of env.now in Leaves vars (operator_rule (expr_rule depth e) e id n want vars (state_of self.old)) result self.new }
    {
        let u = bool_first(self.cells, env.marks, id, n.op, want, vars)?;
        let own = operand_type(self.cells, n.op, u.vars)?;
        let l = self.expr(env, depth, n.a, own.code, own.vars)?;
        self.right(env, depth, id, n, want, own.code, l.diverges, l.vars)
    }

    // A guard, stored as guard+1, against bool.
    #[cycle(rules)]
    pub fn guarded(
        &mut self,
        env: &Env,
        depth: u32,
        guard: u32,
        vars: u32,
    ) -> Result<Outcome, Refusal>
        requires { Ready vars (state_of self.old) }
        ensures loans { SameLoans self.old self.new }
        ensures ran { let e = env_of env.now in Leaves vars (guard_rule (expr_rule depth e) guard vars (state_of self.old)) result self.new }
    {
        if guard == 0 {
            return done(false, 0, vars);
        }
        self.expr(env, depth, guard - 1, Code::BOOL, vars)
    }

    // An arm whose slots are open: guard and body; then its slots close.
    #[cycle(rules)]
    pub fn arm_body(
        &mut self,
        env: &Env,
        depth: u32,
        arms: u32,
        k: u32,
        payload: u32,
        want: u32,
        vars: u32,
    ) -> Result<Outcome, Refusal>
        requires { (k < 65536) × (Ready vars (state_of self.old) × Coded vars want) }
        ensures loans { SameLoans self.old self.new }
        ensures ran { let e = env_of env.now in Leaves vars (body_rule (expr_rule depth e) e arms k payload want vars (state_of self.old)) result self.new }
    {
        let guard = list_item(env.pack, env.counts, arms, 4 * k + 2);
        let g = self.guarded(env, depth, guard, vars)?;
        let body = list_item(env.pack, env.counts, arms, 4 * k + 3);
        let o = self.expr(env, depth, body, want, g.vars)?;
        close_payload(env.pack, env.counts, self.slots, payload);
        done(o.diverges, 0, o.vars)
    }

    // Arm k of a match on the variants of a list.
    #[cycle(rules)]
    pub fn arm(
        &mut self,
        env: &Env,
        depth: u32,
        id: u32,
        list: u32,
        arms: u32,
        k: u32,
        want: u32,
        vars: u32,
    ) -> Result<Outcome, Refusal>
        requires { (k < 65536) × (Ready vars (state_of self.old) × Coded vars want) }
        ensures loans { SameLoans self.old self.new }
        ensures ran { let e = env_of env.now in Leaves vars (arm_rule (expr_rule depth e) e id list arms k want vars (state_of self.old)) result self.new }
    {
        let name = list_item(env.pack, env.counts, arms, 4 * k);
        let payload = list_item(env.pack, env.counts, arms, 4 * k + 1);
        let found = arm_fault(
            env.pack, env.counts, env.names, env.marks, list, name, payload,
        );
        if let Some(fault) = found {
            return Err(Refusal::at(fault, id));
        }
        if open_payload(env, self.slots, list, name, payload) {
            self.arm_body(env, depth, arms, k, payload, want, vars)
        } else {
            Err(Refusal::at(Fault::SlotBoundBefore, id))
        }
    }

    // The n arms of a match, in order; none may come after an unguarded `_`.
    #[cycle(rules)]
    pub fn arms_in_order(
        &mut self,
        env: &Env,
        depth: u32,
        id: u32,
        list: u32,
        arms: u32,
        n: u32,
        want: u32,
        vars: u32,
    ) -> Result<Outcome, Refusal>
        requires { (n < 65536) × (Ready vars (state_of self.old) × Coded vars want) }
        ensures loans { SameLoans self.old self.new }
        ensures ran { let e = env_of env.now in Leaves vars (arms_rule (expr_rule depth e) e id list arms n 0 false true want vars (state_of self.old)) result self.new }
    {
        let mut ended = false;
        let mut d = true;
        let mut used = vars;
        for k in 0..n {
            if ended {
                return Err(Refusal::at(
                    Fault::ArmAfterAny,
                    list_item(env.pack, env.counts, arms, 4 * k + 3),
                ));
            }
            let o = self.arm(env, depth, id, list, arms, k, want, used)?;
            ended = ends_arms(env.pack, env.counts, arms, k);
            d = d && o.diverges;
            used = o.vars;
        }
        done(d, 0, used)
    }

    // The arms of a match on an enum, and whether they leave a variant out.
    #[cycle(rules)]
    pub fn cases(
        &mut self,
        env: &Env,
        depth: u32,
        id: u32,
        list: u32,
        arms: u32,
        want: u32,
        vars: u32,
    ) -> Result<Outcome, Refusal>
        requires { Ready vars (state_of self.old) × Coded vars want }
        ensures loans { SameLoans self.old self.new }
        ensures ran { let e = env_of env.now in Leaves vars (cases_rule (expr_rule depth e) e id list arms want vars (state_of self.old)) result self.new }
    {
        let left = list_len(env.pack, env.counts, arms);
        let o = self.arms_in_order(env, depth, id, list, arms, left, want, vars)?;
        let missing = missing_variants(env.pack, env.counts, env.names, list, arms);
        if missing == 0 {
            done(o.diverges, 0, o.vars)
        } else {
            Err(Refusal {
                fault: Fault::NotExhaustive,
                place: id,
                detail: u64::from(missing),
            })
        }
    }

    // A match: its examinee has to be an enum; then the arms.
    #[cycle(rules)]
    pub fn match_expr(
        &mut self,
        env: &Env,
        depth: u32,
        id: u32,
        n: ExpressionRow,
        want: u32,
        vars: u32,
    ) -> Result<Outcome, Refusal>
        requires { Ready vars (state_of self.old) × Coded vars want }
        ensures loans { SameLoans self.old self.new }
        ensures ran { let e = env_of env.now in Leaves vars (match_rule (expr_rule depth e) e id n want vars (state_of self.old)) result self.new }
    {
        let own = fresh_type(self.cells, Kind::Var, vars)?;
        let o = self.expr(env, depth, n.a, own.code, own.vars)?;
        if o.diverges {
            return Err(Refusal::at(Fault::ExamineeDiverges, n.a));
        }
        let x = resolve_type(self.cells, o.vars, own.code);
        match examined(env.pack, env.counts, x) {
            Subject::Other => Err(Refusal::at(Fault::NotAnEnum, n.a)),
            Subject::Generic => Err(Refusal::at(Fault::NotPlain, id)),
            Subject::Enum(list) => self.cases(env, depth, id, list, n.b, want, o.vars),
        }
    }

    // The n fields given to a record, in written order.
    #[cycle(rules)]
    pub fn fields_in_order(
        &mut self,
        env: &Env,
        depth: u32,
        list: u32,
        fields: u32,
        n: u32,
        vars: u32,
    ) -> Result<Outcome, Refusal>
        requires { ((n < 65536) × Fielded (env_of env.now) list fields n 0) × Ready vars (state_of self.old) }
        ensures loans { SameLoans self.old self.new }
        ensures ran { let e = env_of env.now in Leaves vars (fields_rule (expr_rule depth e) e list fields n 0 false vars (state_of self.old)) result self.new }
    {
        let mut d = false;
        let mut used = vars;
        for k in 0..n {
            let name = list_item(env.pack, env.counts, fields, 2 * k);
            let value = list_item(env.pack, env.counts, fields, 2 * k + 1);
            let t = member_of(env.pack, env.counts, env.names, list, name);
            let code = type_code(env.pack, env.counts, env.same, t);
            let o = self.expr(env, depth, value, code, used)?;
            d = d || o.diverges;
            used = o.vars;
        }
        done(d, 0, used)
    }

    // A record of a definition.
    #[cycle(rules)]
    pub fn record_fields(
        &mut self,
        env: &Env,
        depth: u32,
        id: u32,
        n: ExpressionRow,
        want: u32,
        vars: u32,
    ) -> Result<Outcome, Refusal>
        requires { Ready vars (state_of self.old) × Coded vars want }
        ensures loans { SameLoans self.old self.new }
        ensures ran { let e = env_of env.now in Leaves vars (record_rule (expr_rule depth e) e id n want vars (state_of self.old)) result self.new }
    {
        if let Some(f) = record_fault(env.pack, env.counts, env.names, env.marks, n.a, n.b) {
            return Err(Refusal {
                fault: f.fault,
                place: id,
                detail: f.detail,
            });
        }
        let row = definition_row(env.pack, env.counts, n.a);
        let left = list_len(env.pack, env.counts, n.b);
        let o = self.fields_in_order(env, depth, row.list, n.b, left, vars)?;
        let code = definition_code(n.a);
        let u = meet(self.cells, env.marks, id, want, code, o.vars)?;
        done(o.diverges, 0, u.vars)
    }

    // A field of what the inner node stands for.
    #[cycle(rules)]
    pub fn access_field(
        &mut self,
        env: &Env,
        depth: u32,
        id: u32,
        n: ExpressionRow,
        want: u32,
        vars: u32,
    ) -> Result<Outcome, Refusal>
        requires { Ready vars (state_of self.old) × Coded vars want }
        ensures loans { SameLoans self.old self.new }
        ensures ran { let e = env_of env.now in Leaves vars (field_rule (expr_rule depth e) e id n want vars (state_of self.old)) result self.new }
    {
        let own = fresh_type(self.cells, Kind::Var, vars)?;
        let o = self.expr(env, depth, n.a, own.code, own.vars)?;
        let x = resolve_type(self.cells, o.vars, own.code);
        match accessed(env.pack, env.counts, env.names, env.marks, x, n.b) {
            Err(fault) => Err(Refusal::at(fault, id)),
            Ok(t) => field_type(env, self.cells, id, t, want, o.diverges, o.vars),
        }
    }

    // What a return gives back, stored as value+1, against the root's return type.
    #[cycle(rules)]
    pub fn returned(
        &mut self,
        env: &Env,
        depth: u32,
        id: u32,
        value: u32,
        vars: u32,
    ) -> Result<Outcome, Refusal>
        requires { Ready vars (state_of self.old) }
        ensures loans { SameLoans self.old self.new }
        ensures ran { let e = env_of env.now in Leaves vars (returned_rule (expr_rule depth e) e id value vars (state_of self.old)) result self.new }
    {
        if value == 0 {
            return meet(self.cells, env.marks, id, env.ret, Code::UNIT, vars);
        }
        self.expr(env, depth, value - 1, env.ret, vars)
    }

    // A return.
    #[cycle(rules)]
    pub fn return_expr(
        &mut self,
        env: &Env,
        depth: u32,
        id: u32,
        n: ExpressionRow,
        vars: u32,
    ) -> Result<Outcome, Refusal>
        requires { Ready vars (state_of self.old) }
        ensures loans { SameLoans self.old self.new }
        ensures ran { let e = env_of env.now in Leaves vars (return_rule (expr_rule depth e) e id n vars (state_of self.old)) result self.new }
    {
        let o = self.returned(env, depth, id, n.a, vars)?;
        done(true, 0, o.vars)
    }

    // The rule of a node's kind.
    #[cycle(rules)]
    pub fn rule(
        &mut self,
        env: &Env,
        depth: u32,
        id: u32,
        n: ExpressionRow,
        want: u32,
        vars: u32,
    ) -> Result<Outcome, Refusal>
        requires { Ready vars (state_of self.old) × Coded vars want }
        ensures loans { SameLoans self.old self.new }
        ensures ran { let e = env_of env.now in Leaves vars (kind_rule (expr_rule depth e) e id n want vars (state_of self.old) n.kind) result self.new }
    {
        match NodeKind::try_from(n.kind) {
            Ok(NodeKind::Literal) => literal(self.cells, env.marks, id, n, want, vars),
            Ok(NodeKind::Slot) => slot(self.cells, env.marks, self.slots, id, n, want, vars),
            Ok(NodeKind::Block) => self.block(env, depth, id, n, want, vars),
            Ok(NodeKind::Let) => Err(Refusal::at(Fault::StrayLet, id)),
            Ok(NodeKind::Match) => self.match_expr(env, depth, id, n, want, vars),
            Ok(NodeKind::Operator) => self.binop(env, depth, id, n, want, vars),
            Ok(NodeKind::Record) => self.record_fields(env, depth, id, n, want, vars),
            Ok(NodeKind::Field) => self.access_field(env, depth, id, n, want, vars),
            Ok(NodeKind::Return) => self.return_expr(env, depth, id, n, vars),
            Err(_) => Err(Refusal::at(Fault::StrayLet, id)),
        }
    }

    // An expression: its expected type is recorded, its rule is run, and its note is sealed.
    #[cycle(rules)]
    pub fn expr(
        &mut self,
        env: &Env,
        depth: u32,
        id: u32,
        want: u32,
        vars: u32,
    ) -> Result<Outcome, Refusal>
        requires { Ready vars (state_of self.old) × Coded vars want }
        ensures loans { SameLoans self.old self.new }
        ensures ran { let e = env_of env.now in Leaves vars (expr_rule depth e id want vars (state_of self.old)) result self.new }
    {
        if depth == 0 {
            return Err(Refusal::at(Fault::TooDeep, id));
        }
        let n = expression_row(env.pack, env.counts, id);
        record_type(self.notes, id, want);
        let o = self.rule(env, depth - 1, id, n, want, vars)?;
        seal(self.notes, id, o.diverges, o.call);
        Ok(o)
    }
}
