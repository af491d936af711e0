// What a caller lends, words and parameter bytes: tested where they enter.
#![tactic(auto)]

ghost use Rattle.std.specs.Prelude.{◌≡◌, true, false, MatchResult};
ghost use Rattle.definition.specs.Types.{unsound_state};
ghost use Rattle.definition.specs.Step.{number_of_refusal};
ghost use Rattle.sound.specs.Lent.{lent_sound};

use refusals::Refusal;
use sound::sound_state;

// 15: words and parameter bytes that no sound state has, or an answer's buffer that is too short. Nothing was changed.
#[derive(Clone, Copy, Debug, PartialEq, Eq)]
pub struct Unsound;

impl Unsound {
    pub fn number(self) -> u32
        ensures { result ≡ number_of_refusal unsound_state }
    {
        Refusal::UnsoundState.number()
    }
}

// What follows the test stands in functions of their own, so that no buffer lies on the stack below it.
pub fn tested(state: &[u32], params: &[[u8; 8]; 256]) -> Result<(), Unsound>
    ensures { MatchResult result (λ _. lent_sound state.now params.now ≡ true) (λ _. lent_sound state.now params.now ≡ false) }
{
    if sound_state(state, *params) {
        Ok(())
    } else {
        Err(Unsound)
    }
}
