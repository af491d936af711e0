// typing/core.rs: make_tvar, instantiate, instantiate_apply, instantiate_type_args, make_tparams.
// The declarations' parameter bytes stand beside the words, eight to a struct.
// Changed from the source that NOTICE names: ported to Rattle.
#![tactic(auto)]

ghost use Rattle.std.specs.Prelude.{◌≡◌, List, [], ℕ, ◌<◌, ◌≤◌, ◌%◌, length, get_or, take};
ghost use Rattle.definition.specs.Types as d;
ghost use Rattle.definition.specs.Store.{args_at};
ghost use Rattle.definition.specs.Instantiate.{make_tvar, tvar_constraint, tparam_constraints, instantiate_apply, instantiate_down, instantiate};
ghost use Rattle.names.specs.Names.{mark_of, name_of};
ghost use Rattle.table.specs.State.{constraint_of, Parts, Declares, Placed, Named};
ghost use Rattle.table.specs.Known.{Known};
ghost use Rattle.table.specs.Did.{held, tables, Did, DidFor};
ghost use Rattle.table.specs.State.{args_of};
ghost use Rattle.instantiate.specs.Known.{Numbered, ability_at};
ghost use Rattle.instantiate.specs.Args.{make_tparam, made, Made, joined};

use join::Types;
use names::{AbilitySet, PHANTOM, TVar, TypeName};
use refusals::Refusal;
use table::read::ReadState;
use table::state::{State, Stop};
use table::{Applied, Constraint, Shape};

// A fresh variable, as a node.
fn make_tvar(st: &mut State<'_>, loc: u32) -> Result<u32, Stop>
    ensures { Did st.old st.new result (λ s. make_tvar s loc) }
{
    let id = st.take_var()?;
    st.push_node(loc, Shape::Var(id))
}

// Single for an expression list, else base.
fn tvar_constraint(n: TypeName, loc: u32, tvar: u32) -> Constraint
    ensures { constraint_of result ≡ tvar_constraint (name_of n) loc tvar }
{
    match n {
        TypeName::Multiple(_) => Constraint::SingleType(loc, tvar),
        TypeName::Builtin(_) | TypeName::ModuleType(_) => Constraint::BaseType(loc, tvar),
    }
}

// How many parameters a name has.
fn tparam_count(st: &State<'_>, n: TypeName) -> u32
    ensures { (ds : List d.Struct) → Declares st.now.words.now st.now.used ds → result ≡ length (tparam_constraints (held st.now ds) (name_of n)) }
{
    match n {
        TypeName::Multiple(len) => len,
        TypeName::Builtin(b) => names::builtin_tparams(b),
        TypeName::ModuleType(s) => st.struct_at(s).params,
    }
}

// A parameter's required abilities: its byte without the mark of a phantom.
fn struct_ability(params: &[[u8; 8]; 256], s: u32, i: u32) -> u8
    requires { i < 8 }
    ensures { s < 256 → result ≡ get_or (get_or params.now s []) i 0 % 16 }
{
    if s < 256 {
        params[s as usize][i as usize] % PHANTOM
    } else {
        0
    }
}

// The abilities that argument i must have.
fn ability_at(params: &[[u8; 8]; 256], n: TypeName, i: u32) -> AbilitySet
    requires { i < 8 }
    ensures { Numbered (name_of n) → result.0 ≡ ability_at params.now (name_of n) i }
{
    match n {
        TypeName::Multiple(_) | TypeName::Builtin(_) => AbilitySet(0),
        TypeName::ModuleType(s) => AbilitySet(struct_ability(params, s, i)),
    }
}

// A variable at the argument's location, with its two constraints.
fn make_tparam(
    st: &mut State<'_>,
    loc: u32,
    n: TypeName,
    ty: u32,
    abilities: AbilitySet,
) -> Result<u32, Stop>
    ensures { Did st.old st.new result (λ s. make_tparam s loc (name_of n) ty abilities.0) }
{
    let node = st.node_at(ty);
    let tvar = make_tvar(st, node.loc)?;
    st.push_constraint(Constraint::Ability(loc, tvar, abilities))?;
    st.push_constraint(tvar_constraint(n, loc, tvar))?;
    Ok(tvar)
}

// make_tparams: a variable for each argument that has a parameter.
fn make_tparams(
    st: &mut State<'_>,
    params: &[[u8; 8]; 256],
    loc: u32,
    ty: Applied,
) -> Result<Types, Stop>
    requires { Placed st.old.words.now st.old.used ty.first ty.many }
    ensures { Made (Known st.old.words.now st.old.used params.now) st.old st.new result (made loc (name_of ty.n) (args_at (tables st.old) (args_of ty))) }
{
    let n = ty.n;
    let many = ty.many.min(tparam_count(st, n));
    let mut tvars: [u32; 8] = [0; 8];
    for i in 0..many {
        let t = st.arg_at(ty.first, i);
        let abilities = ability_at(params, n, i);
        tvars[i as usize] = make_tparam(st, loc, n, t, abilities)?;
    }
    Ok(Types { tys: tvars, many })
}

// The variables joined with the arguments, in order; then the node.
fn join_args(
    st: &mut State<'_>,
    loc: u32,
    ty: Applied,
    tparams: &Types,
    tys: [u32; 8],
) -> Result<u32, Stop>
    requires { Parts st.old.used.nodes tparams.now.tys tparams.now.many × Parts st.old.used.nodes tys ty.many }
    ensures { Did st.old st.new result (joined loc (mark_of ty.k) (name_of ty.n) (take tparams.now.many tparams.now.tys) (take ty.many tys)) }
{
    let c = tparams.many.min(ty.many);
    // Eight, as push_apply takes them; in instantiate_apply too.
    let mut parts: [u32; 8] = [0; 8];
    for i in 0..c {
        parts[i as usize] = join::join(st, tparams.tys[i as usize], tys[i as usize])?;
    }
    st.push_apply(loc, ty.k, ty.n, parts, c)
}

// A named type: variables and constraints of its arguments, at most `left` levels of them, the joins, the node.
#[cycle(instantiate_apply_instantiate_down)]
fn instantiate_apply(
    st: &mut State<'_>,
    params: &[[u8; 8]; 256],
    left: u32,
    loc: u32,
    ty: Applied,
) -> Result<u32, Stop>
    requires { Named st.old.words.now st.old.used ty.first ty.many st.old.used.nodes }
    ensures { DidFor (Known st.old.words.now st.old.used params.now) st.old st.new result (λ s. instantiate_apply (instantiate_down left) s loc (mark_of ty.k) (name_of ty.n) (args_at (tables st.old) (args_of ty))) }
{
    let tparams = make_tparams(st, params, loc, ty)?;
    let mut parts: [u32; 8] = [0; 8];
    for i in 0..ty.many {
        let t = st.arg_at(ty.first, i);
        parts[i as usize] = instantiate_down(st, params, left, t)?;
    }
    join_args(st, loc, ty, &tparams, parts)
}

// At most `left` levels of instantiate; parts are built before their node.
#[cycle(instantiate_apply_instantiate_down)]
fn instantiate_down(
    st: &mut State<'_>,
    params: &[[u8; 8]; 256],
    left: u32,
    ty: u32,
) -> Result<u32, Stop>
    requires { ty < st.old.used.nodes }
    ensures { DidFor (Known st.old.words.now st.old.used params.now) st.old st.new result (λ s. instantiate_down left s ty) }
{
    if left == 0 {
        return Err(Stop::Refused(Refusal::RunsIntoItself));
    }
    let node = st.node_at(ty);
    let loc = node.loc;
    match node.shape {
        Shape::Unit | Shape::UnresolvedError | Shape::Param(_, _) => Ok(ty),
        Shape::Var(_) => Err(Stop::Refused(Refusal::OpenVariable)),
        Shape::Anything => make_tvar(st, loc),
        Shape::Ref(m, t) => {
            st.push_constraint(Constraint::BaseType(loc, t))?;
            let p = instantiate_down(st, params, left - 1, t)?;
            st.push_node(loc, Shape::Ref(m, p))
        }
        Shape::Apply(t) => instantiate_apply(st, params, left - 1, loc, t),
    }
}

// For the declarations that the struct rows and the bytes hold.
pub fn instantiate(st: &mut State<'_>, params: &[[u8; 8]; 256], ty: u32) -> Result<u32, Stop>
    requires { ty < st.old.used.nodes }
    ensures { DidFor (Known st.old.words.now st.old.used params.now) st.old st.new result (λ s. instantiate s ty) }
{
    instantiate_down(st, params, ty + 1, ty)
}
