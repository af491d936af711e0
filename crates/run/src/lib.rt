// The run of each record from its placed types on: what it leaves, and what its answer shows.
#![tactic(auto)]

ghost use Rattle.std.specs.Prelude.{◌≡◌, true, false, ◌<◌, None, Some};
ghost use Rattle.definition.specs.Store.{next_tvar};
ghost use Rattle.definition.specs.Instantiate.{instantiate};
ghost use Rattle.needs.specs.Counted.{needs_of};
ghost use Rattle.definition.specs.Step.{numeric_constraint};
ghost use Rattle.table.specs.State.{outcome, Any, Parts, FoundIn, pushed_constraint};
ghost use Rattle.table.specs.Did.{zero_of};
ghost use Rattle.table.specs.declared.state.State.{State};
ghost use Rattle.table.specs.Known.{Known};
ghost use Rattle.constraints.specs.Solve.{kind_of};
ghost use Rattle.arms.specs.Arms.{case_of};
ghost use Rattle.run.specs.Runs.{join_in, two_run, instantiate_run, tvar_run, marked_in, marked_run, numeric, needing, set_num_in, set_num_run, constraint_run, needs_run, no_tail, Runs, TakesVar, with_row, Declared};
ghost use Rattle.fields.specs.Noded.{two_binds, joined_links, loc_type_constraint, unfolded, unfolded_links, tparams, binds, looks, adds, pairs_of, bind_of, add_of, BindIn};
ghost use Rattle.payload.specs.declared.Show.TheVariants.{Nothing};
ghost use Rattle.run.specs.Dispatch.{RanAs};

use answer::Ran;
use arms::TypingCase;
use constraints::NumericKind;
use fields::{Add, Bind, Pairs};
use marks::{LocMark, LocTypeMark, TwoMark};
use names::{AbilitySet, TVar};
use needs::Sums;
use payload::Show;
use refusals::Refusal;
use subst::Unfolded;
use table::state::{State, Stop};

// What a step answers, as a run: its state is kept, or it is only shown. A flag, since both are said in one place for each record.
fn shown(a: Result<u32, Stop>, show: Show, kept: bool) -> Ran
    ensures { result ≡ record { result = a; show = show; tail = None; kept = kept } }
{
    Ran {
        result: a,
        show,
        tail: None,
        kept,
    }
}

// .. with a count of links behind it.
fn counted(a: Result<u32, Stop>, show: Show, links: u32, kept: bool) -> Ran
    ensures { result ≡ record { result = a; show = show; tail = Some links; kept = kept } }
{
    Ran {
        result: a,
        show,
        tail: Some(links),
        kept,
    }
}

// A constraint is listed: there is no number to show.
fn listed(a: Result<(), Stop>) -> Ran
    ensures { result ≡ record { result = zero_of a; show = Nothing; tail = None; kept = true } }
{
    shown(a.map(|()| 0), Show::Nothing, true)
}

// ---- the run of each record

// JN, SU, and MJ's pairs: the join of two types.
pub fn run_case(st: &mut State<'_>, case: TypingCase, lhs: u32, rhs: u32) -> Ran
    requires { (lhs < st.old.used.nodes) × (rhs < st.old.used.nodes) }
    ensures { Runs Any st.old st.new result true (λ s. join_in (case_of case) s lhs rhs) (two_run (case_of case) lhs rhs) no_tail }
{
    match case {
        TypingCase::Join => shown(join::join(st, lhs, rhs), Show::Node, true),
        TypingCase::Subtype => shown(join::subtype(st, lhs, rhs), Show::Node, true),
    }
}

// JL: the join of two types, and the links that its merges follow.
fn run_links(st: &mut State<'_>, lhs: u32, rhs: u32) -> Ran
    requires { (lhs < st.old.used.nodes) × (rhs < st.old.used.nodes) }
    ensures { RanAs Any st.old st.new result (binds (joined_links lhs rhs)) }
{
    let joined = join::join_links(st, lhs, rhs);
    let out = joined.out;
    counted(out, Show::Node, joined.links, true)
}

// JN, SU, JL
pub fn run_two(st: &mut State<'_>, m: TwoMark, lhs: u32, rhs: u32) -> Ran
    requires { (lhs < st.old.used.nodes) × (rhs < st.old.used.nodes) }
    ensures { RanAs Any st.old st.new result (binds (two_binds m lhs rhs)) }
{
    match m {
        TwoMark::JN => run_case(st, TypingCase::Join, lhs, rhs),
        TwoMark::SU => run_case(st, TypingCase::Subtype, lhs, rhs),
        TwoMark::JL => run_links(st, lhs, rhs),
    }
}

// UF: what a type unfolds to.
pub fn run_unfold(st: &State<'_>, t: u32) -> Ran
    requires { t < st.now.used.nodes }
    ensures { RanAs Any st.now st.now result (looks (unfolded t)) }
{
    match subst::unfold_type(st, t) {
        Unfolded::Node(x) => shown(Ok(x), Show::Node, false),
        Unfolded::Anything(loc) => shown(Ok(0), Show::Anything(loc), false),
    }
}

// UL: the same, and the links that are followed.
pub fn run_unfold_links(st: &State<'_>, t: u32) -> Ran
    requires { t < st.now.used.nodes }
    ensures { RanAs Any st.now st.now result (looks (unfolded_links t)) }
{
    let links = subst::unfold_links(st, t);
    match subst::unfold_type(st, t) {
        Unfolded::Node(x) => counted(Ok(x), Show::Node, links, false),
        Unfolded::Anything(loc) => counted(Ok(0), Show::Anything(loc), links, false),
    }
}

// TS: a type with arguments for its parameters.
pub fn run_tparams(st: &mut State<'_>, ps: Pairs, t: u32) -> Ran
    requires { (t < st.old.used.nodes) × Parts st.old.used.nodes ps.nodes ps.many }
    ensures { RanAs Any st.old st.new result (looks (tparams (pairs_of ps) t)) }
{
    match tparams::make_tparam_subst(ps.ids, ps.nodes, ps.many) {
        Some(subst) => shown(tparams::subst_tparams(st, &subst, t), Show::Node, false),
        None => shown(
            Err(Stop::Refused(Refusal::ParameterTwice)),
            Show::Node,
            false,
        ),
    }
}

// IN: a type with its parameters' constraints, by the declarations that the struct rows and the parameter bytes hold.
pub fn run_instantiate(st: &mut State<'_>, params: &[[u8; 8]; 256], t: u32) -> Ran
    requires { t < st.old.used.nodes }
    ensures { Runs (Known st.old.words.now st.old.used params.now) st.old st.new result true (λ s. instantiate s t) (instantiate_run t) no_tail }
{
    shown(instantiate::instantiate(st, params, t), Show::Node, true)
}

// A new variable.
fn take_tvar(st: &mut State<'_>) -> Result<u32, Stop>
    ensures { TakesVar st.old st.new result next_tvar }
{
    let v = st.take_var()?;
    Ok(u32::from(v))
}

// FV
pub fn run_tvar(st: &mut State<'_>, loc: u32) -> Ran
    ensures { Runs Any st.old st.new result true next_tvar (tvar_run loc) no_tail }
{
    shown(take_tvar(st), Show::Variable(loc), true)
}

// A new variable, marked numeric.
fn take_num_tvar(st: &mut State<'_>, loc: u32) -> Result<u32, Stop>
    ensures { TakesVar st.old st.new result (marked_in (numeric loc)) }
{
    let v = st.take_var()?;
    subst::set_num_var(st, v, loc);
    Ok(u32::from(v))
}

// NV
pub fn run_num_tvar(st: &mut State<'_>, loc: u32) -> Ran
    ensures { Runs Any st.old st.new result true (marked_in (numeric loc)) (marked_run (numeric loc) loc) no_tail }
{
    shown(take_num_tvar(st, loc), Show::Variable(loc), true)
}

// A new variable, marked numeric, that needs so many bits.
fn take_literal(st: &mut State<'_>, loc: u32, bits: u16) -> Result<u32, Stop>
    ensures { TakesVar st.old st.new result (marked_in (needing loc bits)) }
{
    let v = st.take_var()?;
    subst::set_num_var(st, v, loc);
    st.set_need(v, u32::from(bits));
    Ok(u32::from(v))
}

// NL
pub fn run_literal(st: &mut State<'_>, loc: u32, bits: u16) -> Ran
    ensures { Runs Any st.old st.new result true (marked_in (needing loc bits)) (marked_run (needing loc bits) loc) no_tail }
{
    shown(take_literal(st, loc, bits), Show::Variable(loc), true)
}

// SN: a variable marked numeric.
pub fn run_set_num(st: &mut State<'_>, v: TVar, loc: u32) -> Ran
    ensures { Runs Any st.old st.new result true (set_num_in v.0 loc) (set_num_run v.0 loc) no_tail }
{
    subst::set_num_var(st, v, loc);
    shown(Ok(0), Show::Nothing, true)
}

// NC, BC, SC: a constraint is listed.
pub fn run_numeric(st: &mut State<'_>, kind: NumericKind, loc: u32, ty: u32) -> Ran
    ensures { Runs Any st.old st.new result true (pushed_constraint (numeric_constraint (kind_of kind) loc ty)) (constraint_run (numeric_constraint (kind_of kind) loc ty)) no_tail }
{
    listed(constraints::numeric_constraint(st, kind, loc, ty))
}

pub fn run_loc_type(st: &mut State<'_>, m: LocTypeMark, loc: u32, ty: u32) -> Ran
    ensures { Runs Any st.old st.new result true (pushed_constraint (loc_type_constraint m loc ty)) (constraint_run (loc_type_constraint m loc ty)) no_tail }
{
    match m {
        LocTypeMark::BC => listed(constraints::base_type_constraint(st, loc, ty)),
        LocTypeMark::SC => listed(constraints::single_type_constraint(st, loc, ty)),
    }
}

// RM: the four numbers that IN of the type would take, or 11 if a variable was met in it. They are counted as the record is read, so no state is asked.
pub fn run_needs(sums: Option<Sums>) -> Ran
    ensures { (s : State) → Runs Any s s result true (λ s. outcome result.result s) (needs_run (needs_of sums)) no_tail }
{
    match sums {
        Some(n) => shown(
            Ok(0),
            Show::Four(n.nodes, n.places, n.variables, n.constraints),
            true,
        ),
        None => shown(
            Err(Stop::Refused(Refusal::OpenVariable)),
            Show::Nothing,
            true,
        ),
    }
}

// SD: a struct is declared, with so many parameters.
pub fn run_declare(st: &mut State<'_>, abilities: AbilitySet, params: u32) -> Ran
    ensures { Declared st.old st.new result abilities.0 params }
{
    shown(st.push_struct(abilities, params), Show::Number, true)
}

// Its parameter bytes, zero past their count, go into the row of its number, if it has one.
pub fn put_row(params: &mut [[u8; 8]; 256], n: Option<u32>, bytes: [u8; 8])
    requires { FoundIn 256 n }
    ensures { params.new ≡ with_row n params.old bytes }
{
    if let Some(k) = n {
        params[table::wide(k)] = bytes;
    }
}

// ---- a record that is read and placed, by its mark. SD, whose bytes stand beside the words, SV, whose payload is no type's, and what only shows have calls of their own

pub fn run_bind(st: &mut State<'_>, params: &[[u8; 8]; 256], what: Bind) -> Ran
    requires { BindIn st.old.used.nodes what }
    ensures { RanAs (Known st.old.words.now st.old.used params.now) st.old st.new result (binds (bind_of what)) }
{
    match what {
        Bind::SN(v, loc) => run_set_num(st, v, loc),
        Bind::Two(m, lhs, rhs) => run_two(st, m, lhs, rhs),
        Bind::IN(t) => run_instantiate(st, params, t),
    }
}

pub fn run_add(st: &mut State<'_>, what: Add) -> Ran
    ensures { RanAs Any st.old st.new result (adds (add_of what)) }
{
    match what {
        Add::Loc(m, loc) => match m {
            LocMark::FV => run_tvar(st, loc),
            LocMark::NV => run_num_tvar(st, loc),
        },
        Add::NL(loc, bits) => run_literal(st, loc, bits),
        Add::NC(loc, kind, t) => run_numeric(st, kind, loc, t),
        Add::LocType(m, loc, t) => run_loc_type(st, m, loc, t),
        Add::RM(sums) => run_needs(sums),
    }
}
