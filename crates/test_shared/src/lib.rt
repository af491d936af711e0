// What docs/LOOK-BACK.md lists under a1, with save_all in place of save_vars, asked of a state whose words are shared.
// Refused (must-fail/): no variable known (known_of_none), another node asked (first_node_asked).
#![tactic(auto)]

ghost use Rattle.std.specs.Prelude.{◌≡◌, List, ℕ, ◌-◌, ◌<◌, ◌≤◌, length, get_or, suc, IfOk};
ghost use Rattle.definition.specs.Types as d;
ghost use Rattle.definition.specs.Store.{with_args};
ghost use Rattle.definition.specs.Subst.{parts, reaches_itself};
ghost use Rattle.definition.specs.Join.{check_num_tvar, used as occurs};
ghost use Rattle.definition.specs.Abilities.{rule};
ghost use Rattle.definition.specs.Constraints.{failures};
ghost use Rattle.definition.specs.Trees.{read_nested, read_type};
ghost use Rattle.definition.specs.Reader.{read_one};
ghost use Rattle.definition.specs.Record.{RM};
ghost use Rattle.table.specs.State.{Lay, Declares, view, seen, shape_of, constraint_of};
ghost use Rattle.snapshot.specs.Snap.{Saved};
ghost use Rattle.shapes.specs.Parts.{part_count as many};
ghost use Rattle.ends.specs.Known.{EndsKnown};
ghost use Rattle.ends.specs.Itself.{Goes_on, Levels, Measured};
ghost use Rattle.abilities.specs.Kept.{Kept, Knows as Declared, Ready, parts_of, part_count};
ghost use Rattle.abilities.specs.Rules.{AllAsked, AllKept, Checked, RuleIn, rule_of, any_asks};
ghost use Rattle.failing.specs.Failing.{TyIn};
ghost use Rattle.constraints.specs.Lacking.{IsAbility, AskedReady, Lacking, row};
ghost use Rattle.heads.specs.Fields.{Arities, Knows, many_parts, tree_read};
ghost use Rattle.cursor.specs.Words.{Within};
ghost use Rattle.needs.specs.Counted.{Counts};
ghost use Rattle.fields.specs.Noded.{FieldsAre};

use abilities::Rule;
use cursor::Reader;
use ends::Chains;
use failing::Failing;
use fields::What;
use heads::Head;
use names::TVar;
use needs::Sums;
use refusals::Refusal;
use subst::Occurs;
use table::read::ReadState;
use table::shared::SharedState;
use table::{Constraint, Shape, Used};

// ---- by words and counts

pub fn part_at(words: &[u32], used: Used, s: Shape, i: u32) -> u32
    requires { Lay words.now used }
    ensures { (ds : List d.Struct) → i < many (shape_of s) → result ≡ get_or (parts (with_args (seen words.now used ds) (shape_of s))) i 0 }
{
    shapes::part_at(&SharedState { words, used }, s, i)
}

pub fn check_num_tvar(words: &[u32], used: Used, tvar: TVar, ty: u32) -> bool
    requires { Lay words.now used }
    ensures { (ds : List d.Struct) → result ≡ check_num_tvar (seen words.now used ds) tvar.0 ty }
{
    subst::check_num_tvar(&SharedState { words, used }, tvar, ty)
}

pub fn used_tvars(words: &[u32], used: Used, tvar: TVar, ty: u32) -> bool
    requires { Lay words.now used × (ty < used.nodes) }
    ensures { (ds : List d.Struct) → result ≡ occurs (suc ty) (seen words.now used ds) tvar.0 ty }
{
    matches!(
        subst::used_tvars(&SharedState { words, used }, tvar, ty),
        Occurs::Met(_)
    )
}

pub fn reaches_itself(words: &[u32], used: Used, t: u32) -> bool
    requires { Lay words.now used × (t < used.nodes) }
    ensures { (ds : List d.Struct) → result ≡ reaches_itself (seen words.now used ds) t }
{
    ends::reaches_itself(&SharedState { words, used }, t)
}

pub fn any_asks(words: &[u32], used: Used) -> bool
    requires { Lay words.now used }
    ensures { result ≡ any_asks (view words.now used).constraints }
{
    abilities::any_asks(&SharedState { words, used })
}

pub fn save_all(words: &[u32], used: Used, saved: &mut [u32])
    requires { Lay words.now used × (5120 ≤ length saved.old) }
    ensures { Saved words.now used saved.new }
{
    snapshot::save_all(&SharedState { words, used }, saved);
}

pub fn read_head(
    words: &[u32],
    used: Used,
    r: &mut Reader,
    known: u32,
    nest: u32,
) -> Result<Head, Refusal>
    requires { Lay words.now used × Arities (view words.now used).structs }
    ensures reads { (s : d.State) (ds : List d.Struct) → Declares words.now used ds → Knows s known ds → tree_read result r.new.left.now (read_nested (nest - 1) s) ≡ read_nested nest s r.old.left.now }
    ensures few { IfOk result (λ h. (many_parts h.shape ≤ 8) × (0 < nest)) }
    ensures within { Within r.old.left.now r.new.left.now }
{
    heads::read_head(&SharedState { words, used }, r, known, nest)
}

// ---- by a SharedState, where a clause speaks of a State

pub fn goes_on(st: &SharedState<'_>, ends: &[u32], t: u32) -> Shape
    requires { (t < st.now.used.nodes) × EndsKnown (⟦<SharedState<'static> as ReadState>⟧.state st.now) ends.now }
    ensures { Goes_on (⟦<SharedState<'static> as ReadState>⟧.state st.now) t result }
{
    Chains { st, ends }.goes_on(t)
}

pub fn levels(
    st: &SharedState<'_>,
    ends: &[u32],
    t: u32,
    left: u32,
    heights: &mut [u16],
) -> Option<u32>
    requires { EndsKnown (⟦<SharedState<'static> as ReadState>⟧.state st.now) ends.now × ((t < st.now.used.nodes) × ((left ≤ st.now.used.nodes) × Measured (⟦<SharedState<'static> as ReadState>⟧.state st.now) heights.old)) }
    ensures { Levels (⟦<SharedState<'static> as ReadState>⟧.state st.now) t left result × Measured (⟦<SharedState<'static> as ReadState>⟧.state st.now) heights.new }
{
    Chains { st, ends }.levels(t, left, heights)
}

pub fn shape_rule(
    st: &SharedState<'_>,
    params: &[[u8; 8]; 256],
    s: Shape,
    ability: u8,
    sets: &[u32],
) -> Rule
    requires { Ready (⟦<SharedState<'static> as ReadState>⟧.state st.now) params.now sets.now (parts_of s) (part_count s) × (0 < ability) }
    ensures { RuleIn result × ((ds : List d.Struct) → Declared (⟦<SharedState<'static> as ReadState>⟧.state st.now) params.now ds → rule_of result ≡ rule (seen st.now.words.now st.now.used ds) ability (with_args (seen st.now.words.now st.now.used ds) (shape_of s))) }
{
    abilities::shape_rule(st, params, s, ability, sets)
}

pub fn check_constraints(
    st: &SharedState<'_>,
    params: &[[u8; 8]; 256],
    heights: &mut [u16],
    sets: &mut [u32],
) -> Result<(), Refusal>
    requires { AllAsked (view st.now.words.now st.now.used) × (Measured (⟦<SharedState<'static> as ReadState>⟧.state st.now) heights.old × Kept (⟦<SharedState<'static> as ReadState>⟧.state st.now) params.now sets.old) }
    ensures { Checked (⟦<SharedState<'static> as ReadState>⟧.state st.now) params.now sets.old sets.new result failures (λ l. AllKept l (view st.now.words.now st.now.used).constraints) }
{
    abilities::check_constraints(st, params, heights, sets)
}

pub fn row_of(
    st: &SharedState<'_>,
    params: &[[u8; 8]; 256],
    sets: &[u32],
    c: Constraint,
    ability: u8,
) -> Option<Failing>
    requires { TyIn st.now.used.nodes (constraint_of c) × (IsAbility ability × AskedReady (⟦<SharedState<'static> as ReadState>⟧.state st.now) params.now sets.now (constraint_of c)) }
    ensures { Lacking (⟦<SharedState<'static> as ReadState>⟧.state st.now) params.now result (λ s. row s (constraint_of c) ability) }
{
    constraints::row_of(st, params, sets, c, ability)
}

pub fn count_type(
    st: &SharedState<'_>,
    r: &mut Reader,
    known: u32,
    nest: u32,
    arg: bool,
) -> Result<Option<Sums>, Refusal>
    requires { Arities (view st.now.words.now st.now.used).structs × (length r.old.left.now ≤ 4096) }
    ensures is { Counts (⟦<SharedState<'static> as ReadState>⟧.state st.now) known arg (λ s. read_nested nest s r.old.left.now) r.new.left.now result }
    ensures within { Within r.old.left.now r.new.left.now }
{
    needs::count_type(st, r, known, nest, arg)
}

pub fn read_rm(st: &SharedState<'_>, r: &mut Reader, known: u32) -> Result<Option<What>, Refusal>
    requires { Arities (view st.now.words.now st.now.used).structs × (length r.old.left.now ≤ 4096) }
    ensures is { (names : List ℕ) → FieldsAre names (⟦<SharedState<'static> as ReadState>⟧.state st.now) known (λ s. read_one RM (read_type s) r.old.left.now) (⟦<SharedState<'static> as ReadState>⟧.state st.now) r.new.left.now result }
    ensures within { Within r.old.left.now r.new.left.now }
{
    fields::read_rm(st, r, known)
}
