// typing/core.rs: a constraint is listed; solve_constraints: numeric variables that nothing decides become u64, or wider; the list is emptied;
// which constraints fail, and how, what the Rust reports as a message (solve_ability_constraint, solve_builtin_type_constraint,
// solve_base_type_constraint, solve_single_type_constraint).
// Changed from the source that NOTICE names: ported to Rattle.
#![tactic(auto)]

ghost use Rattle.std.specs.Prelude.{◌≡◌, ℕ, ◌+◌, ◌*◌, ◌<◌, ◌≤◌, List, [], length, nat_eq, slice_index, if◌then◌else◌};
ghost use Rattle.definition.specs.Types as d;
ghost use Rattle.definition.specs.Types.{BaseTypeConstraint, SingleTypeConstraint};
ghost use Rattle.definition.specs.Subst.{forward_tvar, unfold_type};
ghost use Rattle.definition.specs.Constraints.{undecided, num_vars, default_builtin, default_num_var, default_num_vars, by_rule};
ghost use Rattle.definition.specs.Step.{numeric_constraint};
ghost use Rattle.table.specs.Rows.{read_option};
ghost use Rattle.table.specs.State.{constraint_of, pushed_constraint};
ghost use Rattle.table.specs.Did.{held, Did, Added};
ghost use Rattle.subst.specs.Answers.{var_at};
ghost use Rattle.snapshot.specs.Snap.{Saved};
ghost use Rattle.constraints.specs.Emptied.{Emptied};
ghost use Rattle.constraints.specs.Solve.{kind_of, numbered, join_integer};
ghost use Rattle.definition.specs.Store.{need_of, spanned};
ghost use Rattle.abilities.specs.Kept.{HasSet, Kept};
ghost use Rattle.abilities.specs.Rules.{rule_of, RuleIn, bytes_of};
ghost use Rattle.failing.specs.Failing.{plain, report, ReportIn, TyIn, Fails};
ghost use Rattle.constraints.specs.Lacking.{lack, row, IsAbility, Lacking, AskedReady};

use abilities::{Asked, Rule};
use failing::{Failing, ask_of, good};
use names::{AbilitySet, COPY, TVar, TypeName, U64, U128, U256};
use snapshot::zero_rows;
use subst::Unfolded;
use table::read::ReadState;
use table::state::{State, Stop};
use table::{CONSTRAINT_WORDS, CONSTRAINTS_AT, Constraint, Shape, VAR_WORDS};

// The operators that a type is asked for.
#[derive(Clone, Copy)]
pub enum NumericKind {
    Numeric,
    Bits,
    Ordered,
}

// ---- a constraint is listed. A function for each kind, as in core.rs

#[tactic(auto, unfolding(definition::specs::Step::numeric_constraint))]
pub fn numeric_constraint(
    st: &mut State<'_>,
    kind: NumericKind,
    loc: u32,
    ty: u32,
) -> Result<(), Stop>
    ensures { Added st.old st.new result (pushed_constraint (numeric_constraint (kind_of kind) loc ty)) }
{
    match kind {
        NumericKind::Numeric => st.push_constraint(Constraint::Numeric(loc, ty)),
        NumericKind::Bits => st.push_constraint(Constraint::Bits(loc, ty)),
        NumericKind::Ordered => st.push_constraint(Constraint::Ordered(loc, ty)),
    }
}

pub fn base_type_constraint(st: &mut State<'_>, loc: u32, ty: u32) -> Result<(), Stop>
    ensures { Added st.old st.new result (pushed_constraint (BaseTypeConstraint loc ty)) }
{
    st.push_constraint(Constraint::BaseType(loc, ty))
}

pub fn single_type_constraint(st: &mut State<'_>, loc: u32, ty: u32) -> Result<(), Stop>
    ensures { Added st.old st.new result (pushed_constraint (SingleTypeConstraint loc ty)) }
{
    st.push_constraint(Constraint::SingleType(loc, ty))
}

// ---- numeric variables that nothing decides become u64, or wider where more bits are needed

fn undecided_var<S: ReadState>(st: &S, num_var: TVar, loc: u32) -> bool
    ensures { (ds : List d.Struct) → result ≡ undecided (unfold_type (held (S.state st.now) ds) (var_at loc num_var.0)).value }
{
    match subst::unfold_tvar(st, loc, num_var) {
        Unfolded::Node(t) => shapes::undecided(st.node_at(t).shape),
        Unfolded::Anything(_) => true,
    }
}

// Added (R-7): the narrowest of u64, u128 and u256 that has so many bits.
#[tactic(auto, unfolding(definition::specs::Constraints::default_builtin))]
fn default_builtin(need: u32) -> u32
    ensures { result ≡ default_builtin need }
{
    if need <= 64 {
        U64
    } else if need <= 128 {
        U128
    } else {
        U256
    }
}

// .. that the end of the variable's chain needs.
fn default_at<S: ReadState>(st: &S, num_var: TVar) -> u32
    ensures { (ds : List d.Struct) → result ≡ default_builtin (need_of (held (S.state st.now) ds) (forward_tvar (held (S.state st.now) ds) num_var.0)) }
{
    let last = subst::forward_tvar(st, num_var).tvar;
    default_builtin(st.need_at(last))
}

// The join with that integer type, which has the abilities copy, drop and store.
fn join_integer(st: &mut State<'_>, num_var: TVar, loc: u32) -> Result<u32, Stop>
    ensures { Did st.old st.new result (λ s. join_integer s num_var.0 loc) }
{
    let k = Some(AbilitySet::PRIMITIVES);
    let b = default_at(st, num_var);
    let integer = st.push_apply(loc, k, TypeName::Builtin(b), [0; 8], 0)?;
    let tvar = st.push_node(loc, Shape::Var(num_var))?;
    join::join(st, integer, tvar)
}

fn default_num_var(st: &mut State<'_>, num_var: TVar, loc: u32) -> Result<(), Stop>
    ensures { Added st.old st.new result (λ s. numbered (default_num_var s num_var.0 loc)) }
{
    if undecided_var(st, num_var, loc) {
        join_integer(st, num_var, loc)?;
    }
    Ok(())
}

// The mark that variable v had when the rows were saved.
#[tactic(auto, unfolding(table::specs::Rows::read_option))]
fn saved_mark(saved: &[u32], v: u32) -> Option<u32>
    requires { (v < 1024) × (5120 ≤ length saved.now) }
    ensures { result ≡ read_option (slice_index saved.now (v * 5 + 2)) (slice_index saved.now (v * 5 + 3)) }
{
    let at = v as usize * VAR_WORDS;
    let marked = saved[at + 2] == 1;
    marked.then_some(saved[at + 3])
}

// The marks are read as they were at the start: a join marks variables, and the list is fixed before the first.
pub fn default_num_vars(st: &mut State<'_>, saved: &[u32]) -> Result<(), Stop>
    requires { Saved st.old.words.now st.old.used saved.now × (5120 ≤ length saved.now) }
    ensures { Added st.old st.new result (λ s. numbered (default_num_vars s (num_vars 0 s.vars))) }
{
    for v in 0..st.used.vars {
        if let Some(loc) = saved_mark(saved, v) {
            default_num_var(st, table::tvar(v), loc)?;
        }
    }
    Ok(())
}

// ---- std::mem::take(&mut context.constraints)

// No constraint is left, and the rows are zero again.
pub fn take_constraints(st: &mut State<'_>)
    ensures { Emptied st.old st.new }
{
    zero_rows::<CONSTRAINT_WORDS>(st.words, CONSTRAINTS_AT, 0, st.used.constraints);
    st.used.constraints = 0;
}

// ---- which constraints fail, and how

// The failure of a constraint that asks for no abilities, if it fails.
fn failing_of<S: ReadState>(st: &S, c: Constraint) -> Option<Failing>
    requires { TyIn (S.state st.now).used.nodes (constraint_of c) }
    ensures { Fails (S.state st.now) result (constraint_of c) }
{
    let a = ask_of(c)?;
    let (shape, failing) = match subst::unfold_type(st, a.ty) {
        Unfolded::Node(t) => (st.node_at(t).shape, Failing::Node(a.what, a.loc, t)),
        Unfolded::Anything(at) => (Shape::Anything, Failing::Anything(a.what, a.loc, at)),
    };
    let bad = !good(a.what, shape);
    bad.then_some(failing)
}

// ---- solve_ability_constraint

// What the rule makes of an ability that node t lacks. A mark that is contradicted is refused, by abilities.
fn by_rule(loc: u32, ability: u8, t: u32, r: Rule) -> Option<Failing>
    requires { RuleIn r }
    ensures { ((n : ℕ) → t < n → ReportIn n result) × ((s : d.State) → report result s ≡ bytes_of (by_rule s loc ability (spanned s t) (rule_of r))) }
{
    match r {
        Rule::Declaration => Some(Failing::Lacks(loc, ability, t, None)),
        Rule::Argument(i) => Some(Failing::Lacks(loc, ability, t, Some(i))),
        Rule::Contradicted => None,
    }
}

// The failure for one ability, of a type whose set is kept. `_` has every ability. A chain of variables is walked only if the ability is missing.
fn lack_of<S: ReadState>(
    st: &S,
    params: &[[u8; 8]; 256],
    sets: &[u32],
    a: Asked,
    ability: u8,
) -> Option<Failing>
    requires { (a.ty < (S.state st.now).used.nodes) × (IsAbility ability × (Kept (S.state st.now) params.now sets.now × HasSet sets.now a.ty)) }
    ensures { Lacking (S.state st.now) params.now result (λ s. lack s a.loc a.ty a.set.0 ability) }
{
    if !abilities::is_missing(st, params, a, ability, sets) {
        return None;
    }
    match subst::unfold_type(st, a.ty) {
        Unfolded::Node(t) => {
            let shape = st.node_at(t).shape;
            let rule = abilities::shape_rule(st, params, shape, ability, sets);
            by_rule(a.loc, ability, t, rule)
        }
        Unfolded::Anything(_) => None,
    }
}

// A constraint that asks for no abilities fails once: in the first ability's row.
fn first_row<S: ReadState>(st: &S, c: Constraint, ability: u8) -> Option<Failing>
    requires { TyIn (S.state st.now).used.nodes (constraint_of c) }
    ensures { ReportIn (S.state st.now).used.nodes result × ((ds : List d.Struct) → report result (held (S.state st.now) ds) ≡ (if nat_eq ability 1 then plain (held (S.state st.now) ds) (constraint_of c) else [])) }
{
    if ability == COPY {
        failing_of(st, c)
    } else {
        None
    }
}

// The failure of a constraint in the row of an ability. first_row is called at one place so that it is inlined.
pub fn row_of<S: ReadState>(
    st: &S,
    params: &[[u8; 8]; 256],
    sets: &[u32],
    c: Constraint,
    ability: u8,
) -> Option<Failing>
    requires { TyIn (S.state st.now).used.nodes (constraint_of c) × (IsAbility ability × AskedReady (S.state st.now) params.now sets.now (constraint_of c)) }
    ensures { Lacking (S.state st.now) params.now result (λ s. row s (constraint_of c) ability) }
{
    match c {
        Constraint::Ability(loc, ty, set) => {
            let a = Asked { loc, ty, set };
            lack_of(st, params, sets, a, ability)
        }
        _ => first_row(st, c, ability),
    }
}
