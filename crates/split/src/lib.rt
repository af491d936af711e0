// The splitter: a stream after the record at its head, with the state as it was.
#![tactic(auto)]

ghost use Rattle.std.specs.Prelude.{◌≡◌, true, ◌-◌, length, drop};
ghost use Rattle.sound.specs.Lent.{lent_sound};
ghost use Rattle.split.specs.Rest.{rest_of};

use lent::{Unsound, tested};
use snapshot::SAVED;
use sound::used_of;
use step::{NAMES, rest_trusted};
use table::state::State;

// On a sound state.
fn split_trusted<'a>(state: &mut [u32], params: &[[u8; 8]; 256], stream: &'a [u8]) -> &'a [u8]
    requires { lent_sound state.old params.now ≡ true }
    ensures rest { result.now ≡ rest_of state.old params.now stream.now }
    ensures tail { drop (length stream.now - length result.now) stream.now ≡ result.now }
    ensures state_unchanged { state.new ≡ state.old }
{
    let used = used_of(state);
    let mut st = State::new(state, used);
    let mut saved = [0u32; SAVED];
    let mut names = [0u16; NAMES];
    let n = rest_trusted(&mut st, params, stream, &mut saved, &mut names);
    &stream[n..]
}

// The stream after one record, its tail; all of it on 5, 6, 15 and 18. The state is as it was.
// Refused (must-fail/): a stream handed back whole always (all_handed_back), one byte passed on 15 (split_past_15), none of it handed back on 15 (nothing_left_on_15).
pub fn split<'a>(state: &mut [u32], params: &[[u8; 8]; 256], stream: &'a [u8]) -> &'a [u8]
    ensures rest { result.now ≡ rest_of state.old params.now stream.now }
    ensures tail { drop (length stream.now - length result.now) stream.now ≡ result.now }
    ensures state_unchanged { state.new ≡ state.old }
{
    match tested(state, params) {
        Ok(()) => split_trusted(state, params, stream),
        Err(Unsound) => stream,
    }
}
