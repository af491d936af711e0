// Wrapped numbers, ability sets and marks, names of types, and the limits.
// Changed from the source that NOTICE names: ported to Rattle.
#![tactic(auto)]

ghost use Rattle.std.specs.Prelude.{◌≡◌, ◌≤◌, ◌<◌, length};
ghost use Rattle.definition.specs.Types.{Builtin};
ghost use Rattle.definition.specs.Abilities.{has, builtin_abilities, requires};
ghost use Rattle.definition.specs.Instantiate.{builtin_tparams};
ghost use Rattle.definition.specs.Join.{is_numeric, width};
ghost use Rattle.definition.specs.Trees.{has_drop};

pub const MAX_NODES: u32 = 2048;

pub const MAX_ARGS: u32 = 4096;

pub const MAX_VARS: u32 = 1024;

pub const MAX_CONSTRAINTS: u32 = 512;

pub const MAX_STRUCTS: u32 = 256;

pub const MAX_DEPTH: u32 = 256;

// The builtins are 0 to 9.
pub const MAX_BUILTIN: u32 = 9;

// Of them, those that the code names.
pub const SIGNER: u32 = 1;

pub const U64: u32 = 3;

pub const U128: u32 = 4;

pub const U256: u32 = 9;

pub const VECTOR: u32 = 5;

// The abilities: each is its bit in a set.
pub const COPY: u8 = 1;

pub const DROP: u8 = 2;

pub const STORE: u8 = 4;

pub const KEY: u8 = 8;

// In a parameter's byte, beside the abilities that it requires.
pub const PHANTOM: u8 = 16;

// An inference variable's number.
#[derive(Clone, Copy, PartialEq, Eq)]
pub struct TVar(pub u16);

impl From<TVar> for u32 {
    ghost from_gives = { λ v n. (n ≡ v.0) × (n < 65536) };

    fn from(v: TVar) -> u32 {
        u32::from(v.0)
    }
}

// A type parameter's id. No variable, so never looked up as one.
#[derive(Clone, Copy, PartialEq, Eq)]
pub struct TParamID(pub u32);

// The sum of its abilities.
#[derive(Clone, Copy, PartialEq, Eq)]
pub struct AbilitySet(pub u8);

impl From<AbilitySet> for u32 {
    ghost from_gives = { λ a n. (n ≡ a.0) × (n < 256) };

    fn from(a: AbilitySet) -> u32 {
        u32::from(a.0)
    }
}

// What the Rust gives a type by its kind.
impl AbilitySet {
    pub const ALL: AbilitySet = AbilitySet(15);

    pub const PRIMITIVES: AbilitySet = AbilitySet(7);

    pub const REFERENCES: AbilitySet = AbilitySet(3);

    pub const SIGNER: AbilitySet = AbilitySet(2);

    pub const COLLECTION: AbilitySet = AbilitySet(7);
}

// 02: all; of integers, bool and address; of references; of signer; of vectors, lists and ().
const _: () = prove!(AbilitySet::ALL.0 == COPY + DROP + STORE + KEY);

const _: () = prove!(AbilitySet::PRIMITIVES.0 == COPY + DROP + STORE);

const _: () = prove!(AbilitySet::REFERENCES.0 == COPY + DROP);

const _: () = prove!(AbilitySet::SIGNER.0 == DROP);

const _: () = prove!(AbilitySet::COLLECTION.0 == COPY + DROP + STORE);

// An ability mark on a named type.
pub type AbilityMark = Option<AbilitySet>;

// An expression list's name is its count; a builtin and a struct have numbers. A builtin is no enum: a lent word may be past the last,
// and the functions below take any number.
#[derive(Clone, Copy, PartialEq, Eq)]
pub enum TypeName {
    Multiple(u32),
    Builtin(u32),
    ModuleType(u32),
}

// BuiltinTypeName_::is_numeric: u8, u64, u128; and u16, u32, u256.
pub fn is_numeric(b: u32) -> bool
    ensures { result ≡ is_numeric (Builtin b) }
{
    matches!(b, 2 | 3 | 4 | 7 | 8 | 9)
}

// Added (R-7): how many bits an integer type has.
#[tactic(auto, unfolding(definition::specs::Join::width))]
pub fn width(b: u32) -> u32
    ensures { result ≡ width b }
{
    match b {
        2 => 8,
        7 => 16,
        8 => 32,
        U64 => 64,
        U128 => 128,
        U256 => 256,
        _ => 0,
    }
}

// AbilitySet::has_ability_. An ability is its bit: a type of the four would ask more of callers, who may pass any number but 0.
// Nor NonZeroU8: callers have constants and requires_of's number, and each would go through NonZeroU8::new and its Option, only to be divided by.
pub fn has(a: AbilitySet, ability: u8) -> bool
    requires { 0 < ability }
    ensures { result ≡ has a.0 ability }
{
    a.0 / ability % 2 == 1
}

// BuiltinTypeName_::declared_abilities
pub fn builtin_abilities(b: u32) -> AbilitySet
    ensures { result.0 ≡ builtin_abilities b }
{
    match b {
        SIGNER => AbilitySet::SIGNER,
        VECTOR => AbilitySet::COLLECTION,
        _ => AbilitySet::PRIMITIVES,
    }
}

// How many parameters a builtin has: a vector has one.
pub fn builtin_tparams(b: u32) -> u32
    ensures { (result ≡ length (builtin_tparams b)) × (result ≤ 1) }
{
    if b == VECTOR { 1 } else { 0 }
}

// Ability_::requires: what an argument must have.
pub fn requires_of(ability: u8) -> u8
    ensures { result ≡ requires ability }
{
    if ability == KEY { STORE } else { ability }
}

pub fn has_drop(a: AbilitySet) -> bool
    ensures { result ≡ has_drop (Some a.0) }
{
    has(a, DROP)
}
