// typing/core.rs: make_tparam_subst, subst_tparams.
// Changed from the source that NOTICE names: ported to Rattle.
#![tactic(auto)]

ghost use Rattle.std.specs.Prelude.{◌≡◌, ℕ, ◌-◌, ◌≤◌, ◌<◌, Some};
ghost use Rattle.definition.specs.Types.{Apply};
ghost use Rattle.definition.specs.Store.{args_at};
ghost use Rattle.definition.specs.TParams.{arg_of, make_tparam_subst, subst_value, subst_down, subst_tparams};
ghost use Rattle.names.specs.Names.{mark_of, name_of};
ghost use Rattle.table.specs.State.{Parts, Named};
ghost use Rattle.table.specs.Did.{tables, Did};
ghost use Rattle.table.specs.State.{args_of};
ghost use Rattle.tparams.specs.Pairs.{pairs, answer};
ghost use Rattle.tparams.specs.Made.{subst_of, made};

mod substitution;

use names::TParamID;
use refusals::Refusal;
pub use substitution::TParamSubst;
use table::read::ReadState;
use table::state::{State, Stop};
use table::{Applied, Shape};

// None if an id stands twice: the Rust asserts that none does.
pub fn make_tparam_subst(ids: [TParamID; 8], args: [u32; 8], many: u32) -> Option<TParamSubst>
    requires { many ≤ 8 }
    ensures made { made result ≡ make_tparam_subst (pairs ids args 0 many) }
    ensures kept { (s : TParamSubst) → result ≡ Some s → (s.args ≡ args) × (s.many ≡ many) }
{
    let subst = TParamSubst { ids, args, many };
    let twice = (0..many).any(|i| subst.get_from(i + 1, ids[i as usize]).is_some());
    (!twice).then_some(subst)
}

// A parameter's argument, as an answer.
fn arg_or_none(subst: &TParamSubst, id: TParamID) -> Result<u32, Stop>
    ensures { result ≡ answer (arg_of (subst_of subst.now) id.0) }
{
    subst.get(id).ok_or(Stop::Refused(Refusal::NoArgument))
}

// A named type: at most `left` levels of its arguments, in order; then its node.
#[cycle(subst_apply_subst_down)]
fn subst_apply(
    st: &mut State<'_>,
    left: u32,
    subst: &TParamSubst,
    loc: u32,
    ty: Applied,
) -> Result<u32, Stop>
    requires { Named st.old.words.now st.old.used ty.first ty.many st.old.used.nodes × Parts st.old.used.nodes subst.now.args subst.now.many }
    ensures { Did st.old st.new result (λ s. subst_value (subst_down left (subst_of subst.now)) (subst_of subst.now) s 0 loc (Apply (mark_of ty.k) (name_of ty.n) (args_at (tables st.old) (args_of ty)))) }
{
    // Eight places and their count, as push_apply takes them: a slice would be cut at each call, `&parts[..many as usize]`, with a proof that it fits.
    let mut parts: [u32; 8] = [0; 8];
    for i in 0..ty.many {
        let t = st.arg_at(ty.first, i);
        parts[i as usize] = subst_down(st, left, subst, t)?;
    }
    st.push_apply(loc, ty.k, ty.n, parts, ty.many)
}

// At most `left` levels of subst_tparams; parts are built before their node.
#[cycle(subst_apply_subst_down)]
fn subst_down(st: &mut State<'_>, left: u32, subst: &TParamSubst, ty: u32) -> Result<u32, Stop>
    requires { (ty < st.old.used.nodes) × Parts st.old.used.nodes subst.now.args subst.now.many }
    ensures { Did st.old st.new result (λ s. subst_down left (subst_of subst.now) s ty) }
{
    if left == 0 {
        return Err(Stop::Refused(Refusal::RunsIntoItself));
    }
    let node = st.node_at(ty);
    let loc = node.loc;
    match node.shape {
        Shape::Unit | Shape::UnresolvedError | Shape::Anything => Ok(ty),
        Shape::Var(_) => Err(Stop::Refused(Refusal::OpenVariable)),
        Shape::Param(id, _) => arg_or_none(subst, id),
        Shape::Ref(m, t) => {
            let p = subst_down(st, left - 1, subst, t)?;
            st.push_node(loc, Shape::Ref(m, p))
        }
        Shape::Apply(t) => subst_apply(st, left - 1, subst, loc, t),
    }
}

pub fn subst_tparams(st: &mut State<'_>, subst: &TParamSubst, ty: u32) -> Result<u32, Stop>
    requires { (ty < st.old.used.nodes) × Parts st.old.used.nodes subst.now.args subst.now.many }
    ensures { Did st.old st.new result (λ s. subst_tparams (subst_of subst.now) s ty) }
{
    subst_down(st, ty + 1, subst, ty)
}
