// typing/core.rs: infer_abilities, and the rule that decided that an ability is missing. One set is kept for each node, so that each is looked at once.
// Changed from the source that NOTICE names: ported to Rattle.
#![tactic(auto)]

ghost use Rattle.std.specs.Prelude.{◌≡◌, true, ◌&&◌, not, List, ℕ, ◌≤◌, ◌<◌, ◌%◌, length, get_or, if◌then◌else◌};
ghost use Rattle.definition.specs.Types as d;
ghost use Rattle.definition.specs.Store.{args_at, with_args, any_of};
ghost use Rattle.definition.specs.Abilities.{has, declared_abilities, counts, lacking, granted, those, from_abilities, infer_value, infer_abilities, by_argument, rule};
ghost use Rattle.definition.specs.Constraints.{missing, solve_ability_constraint, solve_constraint, failures};
ghost use Rattle.names.specs.Names.{name_of};
ghost use Rattle.table.specs.State.{shape_of, constraint_of, Declares, FoundIn};
ghost use Rattle.table.specs.Did.{held, tables};
ghost use Rattle.table.specs.State.{args_of};
ghost use Rattle.ends.specs.Itself.{Goes_on, Measured};
ghost use Rattle.abilities.specs.Kept.{Knows, HasSet, Kept, PartsKept, Ready, ArgsReady, parts_of, part_count, Inferred, Ends};
ghost use Rattle.abilities.specs.Rules.{rule_of, RuleIn, lacks_at, misses, any_misses, is_contradicted, clashes, AskedIn, AskedKept, AllAsked, AllKept, Checked, asks_abilities, any_asks};

use ends::Chains;
use names::{AbilityMark, AbilitySet, COPY, DROP, KEY, PHANTOM, STORE, TypeName};
use refusals::Refusal;
use table::read::ReadState;
use table::{Applied, Constraint, Shape};

pub const ABILITIES: [u8; 4] = [COPY, DROP, STORE, KEY];

// The declaration lacks it; the argument at a place lacks what is needed; neither, so that a mark is contradicted.
#[derive(Clone, Copy)]
pub enum Rule {
    Declaration,
    Argument(u32),
    Contradicted,
}

// What Constraint::Ability holds, to pass it on whole.
#[derive(Clone, Copy)]
pub struct Asked {
    pub loc: u32,
    pub ty: u32,
    pub set: AbilitySet,
}

// `params` and `sets` stand in no struct: 01 keeps parameter bytes out of structs, and `sets` alone would be left.
// `sets` are words, of which 256 is added to a set that is known: a slice of Options would ask more of who lends it.

// The set kept for node t. By %, which takes the 256 off: `try_from` would refuse every set that is known.
pub fn kept(sets: &[u32], t: u32) -> AbilitySet
    requires { (length sets.now ≡ 2048) × (t < 2048) }
    ensures { result.0 ≡ get_or sets.now t 0 % 256 }
{
    let at = table::wide(t);
    AbilitySet((sets[at] % 256) as u8)
}

// ---- a name's declaration

#[tactic(auto, unfolding(definition::specs::Abilities::declared_abilities, definition::specs::Abilities::collection, definition::specs::Abilities::struct_abilities, table::specs::State::seen, definition::specs::Store::with_structs))]
fn declared_abilities<S: ReadState>(st: &S, n: TypeName) -> AbilitySet
    ensures { (ds : List d.Struct) → Declares (S.state st.now).words.now (S.state st.now).used ds → result.0 ≡ declared_abilities (held (S.state st.now) ds) (name_of n) }
{
    match n {
        TypeName::Multiple(_) => AbilitySet::COLLECTION,
        TypeName::Builtin(b) => names::builtin_abilities(b),
        TypeName::ModuleType(s) => st.struct_at(s).abilities,
    }
}

// Struct s has a parameter i, and it is no phantom.
fn struct_counts<S: ReadState>(st: &S, params: &[[u8; 8]; 256], s: u32, i: u32) -> bool
    requires { i < 8 }
    ensures { (ds : List d.Struct) → Knows (S.state st.now) params.now ds → result ≡ counts (held (S.state st.now) ds) (d.ModuleType s) i }
{
    let at = table::wide(s);
    i < st.struct_at(s).params && (256 <= at || params[at][table::wide(i)] < PHANTOM)
}

#[tactic(auto, unfolding(definition::specs::Abilities::counts))]
fn counts<S: ReadState>(st: &S, params: &[[u8; 8]; 256], n: TypeName, i: u32) -> bool
    requires { i < 8 }
    ensures { (ds : List d.Struct) → Knows (S.state st.now) params.now ds → result ≡ counts (held (S.state st.now) ds) (name_of n) i }
{
    match n {
        TypeName::Multiple(_) | TypeName::Builtin(_) => true,
        TypeName::ModuleType(s) => struct_counts(st, params, s, i),
    }
}

// Argument i counts and lacks what is needed.
fn lacks<S: ReadState>(
    st: &S,
    params: &[[u8; 8]; 256],
    a: Applied,
    i: u32,
    needed: u8,
    sets: &[u32],
) -> bool
    requires { ArgsReady (S.state st.now) params.now sets.now a × ((i < a.many) × (0 < needed)) }
    ensures { (ds : List d.Struct) → Knows (S.state st.now) params.now ds → result ≡ lacks_at (held (S.state st.now) ds) a needed i }
{
    counts(st, params, a.n, i) && !names::has(kept(sets, st.arg_at(a.first, i)), needed)
}

// The place of the first argument that counts and lacks what is needed.
fn lacking<S: ReadState>(
    st: &S,
    params: &[[u8; 8]; 256],
    a: Applied,
    needed: u8,
    sets: &[u32],
) -> Option<u32>
    requires { ArgsReady (S.state st.now) params.now sets.now a × (0 < needed) }
    ensures { FoundIn 8 result × ((ds : List d.Struct) → Knows (S.state st.now) params.now ds → result ≡ lacking (λ t. infer_abilities (held (S.state st.now) ds) t) (held (S.state st.now) ds) (name_of a.n) (args_at (held (S.state st.now) ds) (args_of a)) needed) }
{
    (0..a.many).find(|i| lacks(st, params, a, *i, needed, sets))
}

// ---- the rule of a named type

#[tactic(auto, unfolding(definition::specs::Abilities::by_argument))]
fn by_argument(o: Option<u32>) -> Rule
    requires { FoundIn 8 o }
    ensures { RuleIn result × (rule_of result ≡ by_argument o) }
{
    match o {
        None => Rule::Contradicted,
        Some(i) => Rule::Argument(i),
    }
}

fn apply_rule<S: ReadState>(
    st: &S,
    params: &[[u8; 8]; 256],
    a: Applied,
    ability: u8,
    sets: &[u32],
) -> Rule
    requires { ArgsReady (S.state st.now) params.now sets.now a × (0 < ability) }
    ensures { RuleIn result × ((ds : List d.Struct) → Knows (S.state st.now) params.now ds → (k : d.AbilityMark) → rule_of result ≡ rule (held (S.state st.now) ds) ability (d.Apply k (name_of a.n) (args_at (held (S.state st.now) ds) (args_of a)))) }
{
    if !names::has(declared_abilities(st, a.n), ability) {
        return Rule::Declaration;
    }
    let needed = names::requires_of(ability);
    by_argument(lacking(st, params, a, needed, sets))
}

#[tactic(auto, unfolding(crate::specs::Rules::is_contradicted))]
fn is_contradicted(r: Rule) -> bool
    ensures { result ≡ is_contradicted (rule_of r) }
{
    matches!(r, Rule::Contradicted)
}

// ---- infer_abilities

// What is declared and no argument that counts takes away: only a mark could.
fn granted<S: ReadState>(
    st: &S,
    params: &[[u8; 8]; 256],
    a: Applied,
    ability: u8,
    sets: &[u32],
) -> bool
    requires { ArgsReady (S.state st.now) params.now sets.now a × (0 < ability) }
    ensures { (ds : List d.Struct) → Knows (S.state st.now) params.now ds → result ≡ granted (λ t. infer_abilities (held (S.state st.now) ds) t) (held (S.state st.now) ds) (name_of a.n) (args_at (held (S.state st.now) ds) (args_of a)) ability }
{
    is_contradicted(apply_rule(st, params, a, ability, sets))
}

// The ability, if it is granted.
fn granted_bit<S: ReadState>(
    st: &S,
    params: &[[u8; 8]; 256],
    a: Applied,
    ability: u8,
    sets: &[u32],
) -> u8
    requires { ArgsReady (S.state st.now) params.now sets.now a × (0 < ability) }
    ensures { (result ≤ ability) × ((ds : List d.Struct) → Knows (S.state st.now) params.now ds → result ≡ (if granted (λ t. infer_abilities (held (S.state st.now) ds) t) (held (S.state st.now) ds) (name_of a.n) (args_at (held (S.state st.now) ds) (args_of a)) ability then ability else 0)) }
{
    if granted(st, params, a, ability, sets) {
        ability
    } else {
        0
    }
}

// Four calls: a loop that adds them up is no plainer.
fn granted_set<S: ReadState>(
    st: &S,
    params: &[[u8; 8]; 256],
    a: Applied,
    sets: &[u32],
) -> AbilitySet
    requires { ArgsReady (S.state st.now) params.now sets.now a }
    ensures { (ds : List d.Struct) → Knows (S.state st.now) params.now ds → result.0 ≡ from_abilities (those (granted (λ t. infer_abilities (held (S.state st.now) ds) t) (held (S.state st.now) ds) (name_of a.n) (args_at (held (S.state st.now) ds) (args_of a)))) }
{
    let copy = granted_bit(st, params, a, COPY, sets);
    let drop = granted_bit(st, params, a, DROP, sets);
    let store = granted_bit(st, params, a, STORE, sets);
    let key = granted_bit(st, params, a, KEY, sets);
    AbilitySet(copy + drop + store + key)
}

// The set of an unfolded type whose parts' sets are kept.
#[tactic(auto, unfolding(definition::specs::Abilities::infer_value, definition::specs::Store::with_args, definition::specs::Abilities::collection, definition::specs::Abilities::references, definition::specs::Abilities::all))]
fn set_of<S: ReadState>(st: &S, params: &[[u8; 8]; 256], s: Shape, sets: &[u32]) -> AbilitySet
    requires { Ready (S.state st.now) params.now sets.now (parts_of s) (part_count s) }
    ensures { (ds : List d.Struct) → Knows (S.state st.now) params.now ds → result.0 ≡ infer_value (λ t. infer_abilities (held (S.state st.now) ds) t) (held (S.state st.now) ds) (with_args (held (S.state st.now) ds) (shape_of s)) }
{
    match s {
        Shape::Unit => AbilitySet::COLLECTION,
        Shape::Ref(_, _) => AbilitySet::REFERENCES,
        Shape::Param(_, a) => a,
        Shape::Apply(t) => match t.k {
            None => granted_set(st, params, t, sets),
            Some(a) => a,
        },
        Shape::Var(_) | Shape::Anything | Shape::UnresolvedError => AbilitySet::ALL,
    }
}

// The set of node t, the sets of whose parts are kept, is kept. Not inlined, so that a frame of infer is small: each level of a type is one.
#[inline(never)]
fn keep_set<S: ReadState>(chains: &Chains<'_, S>, params: &[[u8; 8]; 256], t: u32, sets: &mut [u32])
    requires { (t < (S.state chains.now.st.now).used.nodes) × (Kept (S.state chains.now.st.now) params.now sets.old × PartsKept (S.state chains.now.st.now) t sets.old) }
    ensures { Inferred (S.state chains.now.st.now) params.now t sets.old sets.new }
{
    let s = chains.goes_on(t);
    let a = set_of(chains.st, params, s, sets);
    let at = table::wide(t);
    sets[at] = 256 + u32::from(a);
}

// The set of node t, whose reading is over in `left` levels, is kept, and those of its parts.
pub fn infer<S: ReadState>(
    chains: &Chains<'_, S>,
    params: &[[u8; 8]; 256],
    t: u32,
    left: u32,
    sets: &mut [u32],
)
    requires { (t < (S.state chains.now.st.now).used.nodes) × (Ends (S.state chains.now.st.now) left t × Kept (S.state chains.now.st.now) params.now sets.old) }
    ensures { Inferred (S.state chains.now.st.now) params.now t sets.old sets.new }
{
    let at = table::wide(t);
    if 256 <= sets[at] {
        return;
    }
    let s = chains.goes_on(t);
    let many = shapes::part_count(s);
    for i in 0..many {
        let p = shapes::part_at(chains.st, s, i);
        infer(chains, params, p, left - 1, sets);
    }
    keep_set(chains, params, t, sets);
}

// ---- the rule that decided

// ability_not_satisified_tips, of an unfolded type whose parts' sets are kept.
pub fn shape_rule<S: ReadState>(
    st: &S,
    params: &[[u8; 8]; 256],
    s: Shape,
    ability: u8,
    sets: &[u32],
) -> Rule
    requires { Ready (S.state st.now) params.now sets.now (parts_of s) (part_count s) × (0 < ability) }
    ensures { RuleIn result × ((ds : List d.Struct) → Knows (S.state st.now) params.now ds → rule_of result ≡ rule (held (S.state st.now) ds) ability (with_args (held (S.state st.now) ds) (shape_of s))) }
{
    match s {
        Shape::Apply(a) => apply_rule(st, params, a, ability, sets),
        _ => Rule::Declaration,
    }
}

// ---- what is missing

// The ability is asked for, and the type, whose set is kept, has it not.
pub fn is_missing<S: ReadState>(
    st: &S,
    params: &[[u8; 8]; 256],
    a: Asked,
    ability: u8,
    sets: &[u32],
) -> bool
    requires { (a.ty < (S.state st.now).used.nodes) × ((0 < ability) × (Kept (S.state st.now) params.now sets.now × HasSet sets.now a.ty)) }
    ensures { (ds : List d.Struct) → Knows (S.state st.now) params.now ds → result ≡ misses (held (S.state st.now) ds) a.ty a.set.0 ability }
{
    names::has(a.set, ability) && !names::has(kept(sets, a.ty), ability)
}

// Some ability that is asked for is missing.
fn any_missing<S: ReadState>(st: &S, params: &[[u8; 8]; 256], a: Asked, sets: &[u32]) -> bool
    requires { (a.ty < (S.state st.now).used.nodes) × (Kept (S.state st.now) params.now sets.now × HasSet sets.now a.ty) }
    ensures { (ds : List d.Struct) → Knows (S.state st.now) params.now ds → result ≡ any_misses (held (S.state st.now) ds) a.ty a.set.0 }
{
    ABILITIES
        .iter()
        .any(|ability| is_missing(st, params, a, *ability, sets))
}

// The ability is missing, and nothing but a mark takes it away. Reading the type goes on with s.
fn contradicts<S: ReadState>(
    st: &S,
    params: &[[u8; 8]; 256],
    a: Asked,
    s: Shape,
    ability: u8,
    sets: &[u32],
) -> bool
    requires { (a.ty < (S.state st.now).used.nodes) × ((0 < ability) × (Goes_on (S.state st.now) a.ty s × (Kept (S.state st.now) params.now sets.now × HasSet sets.now a.ty))) }
    ensures { (ds : List d.Struct) → Knows (S.state st.now) params.now ds → result ≡ (misses (held (S.state st.now) ds) a.ty a.set.0 ability && clashes (held (S.state st.now) ds) a.ty ability) }
{
    is_missing(st, params, a, ability, sets)
        && is_contradicted(shape_rule(st, params, s, ability, sets))
}

fn shape_contradicts<S: ReadState>(
    st: &S,
    params: &[[u8; 8]; 256],
    a: Asked,
    s: Shape,
    sets: &[u32],
) -> bool
    requires { (a.ty < (S.state st.now).used.nodes) × (Goes_on (S.state st.now) a.ty s × (Kept (S.state st.now) params.now sets.now × HasSet sets.now a.ty)) }
    ensures { (ds : List d.Struct) → Knows (S.state st.now) params.now ds → result ≡ any_of (clashes (held (S.state st.now) ds) a.ty) (missing (held (S.state st.now) ds) a.ty a.set.0) }
{
    ABILITIES
        .iter()
        .any(|ability| contradicts(st, params, a, s, *ability, sets))
}

// A chain of variables is walked once, and only if something is missing.
fn any_contradicts<S: ReadState>(
    chains: &Chains<'_, S>,
    params: &[[u8; 8]; 256],
    a: Asked,
    sets: &[u32],
) -> bool
    requires { (a.ty < (S.state chains.now.st.now).used.nodes) × (Kept (S.state chains.now.st.now) params.now sets.now × HasSet sets.now a.ty) }
    ensures { (ds : List d.Struct) → Knows (S.state chains.now.st.now) params.now ds → result ≡ any_of (clashes (held (S.state chains.now.st.now) ds) a.ty) (missing (held (S.state chains.now.st.now) ds) a.ty a.set.0) }
{
    any_missing(chains.st, params, a, sets)
        && shape_contradicts(chains.st, params, a, chains.goes_on(a.ty), sets)
}

// ---- 9 and 16: a type runs into itself; nothing but a mark takes a missing ability away

// If neither is met, the set of the type is kept.
fn check_ability_constraint<S: ReadState>(
    chains: &Chains<'_, S>,
    params: &[[u8; 8]; 256],
    a: Asked,
    heights: &mut [u16],
    sets: &mut [u32],
) -> Result<(), Refusal>
    requires { (a.ty < (S.state chains.now.st.now).used.nodes) × (Measured (S.state chains.now.st.now) heights.old × Kept (S.state chains.now.st.now) params.now sets.old) }
    ensures { Measured (S.state chains.now.st.now) heights.new × Checked (S.state chains.now.st.now) params.now sets.old sets.new result (λ s. solve_ability_constraint s a.loc a.ty a.set.0) (λ l. HasSet l a.ty) }
{
    let Some(n) = chains.levels(a.ty, chains.st.used().nodes, heights) else {
        return Err(Refusal::RunsIntoItself);
    };
    infer(chains, params, a.ty, n, sets);
    if any_contradicts(chains, params, a, sets) {
        return Err(Refusal::MarkContradicted);
    }
    Ok(())
}

fn check_constraint<S: ReadState>(
    chains: &Chains<'_, S>,
    params: &[[u8; 8]; 256],
    c: Constraint,
    heights: &mut [u16],
    sets: &mut [u32],
) -> Result<(), Refusal>
    requires { AskedIn (S.state chains.now.st.now).used.nodes (constraint_of c) × (Measured (S.state chains.now.st.now) heights.old × Kept (S.state chains.now.st.now) params.now sets.old) }
    ensures { Measured (S.state chains.now.st.now) heights.new × Checked (S.state chains.now.st.now) params.now sets.old sets.new result (λ s. solve_constraint s (constraint_of c)) (λ l. AskedKept l (constraint_of c)) }
{
    match c {
        Constraint::Ability(loc, ty, set) => {
            check_ability_constraint(chains, params, Asked { loc, ty, set }, heights, sets)
        }
        _ => Ok(()),
    }
}

// The first refusal in list order is that of all. If there is none, the set of each type that is asked for abilities is kept.
fn check_in_turn<S: ReadState>(
    chains: &Chains<'_, S>,
    params: &[[u8; 8]; 256],
    heights: &mut [u16],
    sets: &mut [u32],
) -> Result<(), Refusal>
    requires { AllAsked (tables (S.state chains.now.st.now)) × (Measured (S.state chains.now.st.now) heights.old × Kept (S.state chains.now.st.now) params.now sets.old) }
    ensures { Checked (S.state chains.now.st.now) params.now sets.old sets.new result failures (λ l. AllKept l (tables (S.state chains.now.st.now)).constraints) }
{
    for i in 0..chains.st.used().constraints {
        let c = chains.st.constraint_at(i);
        check_constraint(chains, params, c, heights, sets)?;
    }
    Ok(())
}

// .. The ends of all chains are noted first.
pub fn check_constraints<S: ReadState>(
    st: &S,
    params: &[[u8; 8]; 256],
    heights: &mut [u16],
    sets: &mut [u32],
) -> Result<(), Refusal>
    requires { AllAsked (tables (S.state st.now)) × (Measured (S.state st.now) heights.old × Kept (S.state st.now) params.now sets.old) }
    ensures { Checked (S.state st.now) params.now sets.old sets.new result failures (λ l. AllKept l (tables (S.state st.now)).constraints) }
{
    let mut ends: [u32; 1024] = [0; 1024];
    ends::note_ends(st, &mut ends);
    let chains = Chains { st, ends: &ends };
    check_in_turn(&chains, params, heights, sets)
}

// ---- whether any of this is asked

#[tactic(auto, unfolding(crate::specs::Rules::asks_abilities))]
fn asks_abilities(c: Constraint) -> bool
    ensures { result ≡ asks_abilities (constraint_of c) }
{
    matches!(c, Constraint::Ability(_, _, _))
}

// Some constraint asks for abilities, so that a table of sets is needed.
pub fn any_asks<S: ReadState>(st: &S) -> bool
    ensures { result ≡ any_asks (tables (S.state st.now)).constraints }
{
    (0..st.used().constraints).any(|i| asks_abilities(st.constraint_at(i)))
}
