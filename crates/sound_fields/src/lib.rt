// The test for a sound state, field by field: parameter bytes, the fields of a node and of a variable's cell. Tags and flags are numbers here
// and in sound_rows: what is tested are lent words, of which no shape is known yet.
#![tactic(auto)]

ghost use Rattle.std.specs.Prelude.{◌≡◌, ◌<◌, eqb};
ghost use Rattle.definition.specs.Trees.{has_drop};
ghost use Rattle.table.specs.Rows.{read_mark};
ghost use Rattle.sound_fields.specs.Fields.{all_below, byte_fine, four_zeros, ref_fine, param_fine, var_fine, mark_fine, name_fine, fits_fine, numeric_fine, need_fine};

use names::{AbilitySet, MAX_BUILTIN, has_drop, is_numeric};
use table::{NodeWords, Used};

// ---- parameter bytes

#[tactic(auto, unfolding(crate::specs::Fields::byte_fine))]
fn byte_fine(bytes: [u8; 8], n: u32, k: u32) -> bool
    requires { k < 8 }
    ensures { result ≡ byte_fine bytes n k }
{
    let b = bytes[k as usize];
    if k < n { b <= 31 } else { b == 0 }
}

pub fn bytes_fine(bytes: [u8; 8], n: u32) -> bool
    ensures { result ≡ all_below 8 (byte_fine bytes n) }
{
    (0..8).all(|k| byte_fine(bytes, n, k))
}

// 0 just where all eight are: `|` in place of a branch for each byte.
pub fn any_of(bytes: [u8; 8]) -> u8
    ensures { eqb result 0 ≡ all_below 8 (byte_fine bytes 0) }
{
    bytes.iter().fold(0, |any, b| any | *b)
}

// ---- nodes

#[tactic(auto, unfolding(crate::specs::Fields::four_zeros))]
pub fn four_zeros(n: NodeWords) -> bool
    ensures { result ≡ four_zeros n.a n.b n.c n.d }
{
    n.a == 0 && n.b == 0 && n.c == 0 && n.d == 0
}

#[tactic(auto, unfolding(crate::specs::Fields::ref_fine))]
pub fn ref_fine(t: u32, n: NodeWords) -> bool
    ensures { result ≡ ref_fine t n.a n.b n.c n.d }
{
    n.a <= 1 && n.b < t && n.c == 0 && n.d == 0
}

#[tactic(auto, unfolding(crate::specs::Fields::param_fine))]
pub fn param_fine(n: NodeWords) -> bool
    ensures { result ≡ param_fine n.b n.c n.d }
{
    n.b <= 15 && n.c == 0 && n.d == 0
}

#[tactic(auto, unfolding(crate::specs::Fields::var_fine))]
pub fn var_fine(u: Used, n: NodeWords) -> bool
    ensures { result ≡ var_fine u n.a n.b n.c n.d }
{
    n.a < u.vars && n.b == 0 && n.c == 0 && n.d == 0
}

#[tactic(auto, unfolding(crate::specs::Fields::mark_fine))]
pub fn mark_fine(n: NodeWords) -> bool
    ensures { result ≡ mark_fine n.a }
{
    matches!(n.a, 0 | 16..=31)
}

// The words are lent, and a tag may be any number: it is matched as one.
#[tactic(auto, unfolding(crate::specs::Fields::name_fine, definition::specs::Types::max_builtin))]
pub fn name_fine(u: Used, n: NodeWords) -> bool
    ensures { result ≡ name_fine u n.tag n.b }
{
    match n.tag {
        3 => n.b <= MAX_BUILTIN,
        4 => n.b <= 8,
        _ => n.b < u.structs,
    }
}

// The word is lent and may be any number, of which the definition takes the low byte: `try_from` would refuse it, so %.
#[tactic(auto, unfolding(table::specs::Rows::read_mark, definition::specs::Trees::has_drop))]
fn mark_drops(a: u32) -> bool
    ensures { result ≡ has_drop (read_mark a) }
{
    a < 16 || has_drop(AbilitySet(((a - 16) % 256) as u8))
}

// A number's mark has drop.
#[tactic(auto, unfolding(crate::specs::Fields::fits_fine))]
pub fn fits_fine(n: NodeWords) -> bool
    ensures { result ≡ fits_fine n.tag n.a n.b }
{
    n.tag != 3 || !is_numeric(n.b) || mark_drops(n.a)
}

// ---- variables

#[tactic(auto, unfolding(crate::specs::Fields::numeric_fine))]
pub fn numeric_fine(is: u32, x: u32) -> bool
    ensures { result ≡ numeric_fine is x }
{
    if is == 0 { x == 0 } else { is == 1 }
}

// Without a mark nothing is needed, with one up to 256 bits.
#[tactic(auto, unfolding(crate::specs::Fields::need_fine))]
pub fn need_fine(is: u32, need: u32) -> bool
    ensures { result ≡ need_fine is need }
{
    if is == 0 { need == 0 } else { need <= 256 }
}
