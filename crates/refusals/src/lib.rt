// The definition's refusals and their numbers: the one list, from which every crate takes them.
#![tactic(auto)]

ghost use Rattle.std.specs.Prelude.{◌≡◌};
ghost use Rattle.definition.specs.Step.{number_of_refusal};
ghost use Rattle.refusals.specs.Refusals.{refusal_of};

#[derive(Clone, Copy)]
pub enum Refusal {
    Malformed,
    UnknownName,
    Full,
    TooDeep,
    RunsIntoItself,
    AbilitiesDisagree,
    OpenVariable,
    NoArgument,
    ParameterTwice,
    AnswerTooLong,
    UnsoundState,
    MarkContradicted,
    AlreadyExpanded,
    DoubledReference,
}

impl Refusal {
    // Refused (must-fail/): 5 for an unknown name (unknown_is_five), 13 for an answer too long (too_long_is_thirteen).
    #[tactic(auto, unfolding(definition::specs::Step::number_of_refusal))]
    pub fn number(self) -> u32
        ensures { result ≡ number_of_refusal (refusal_of self) }
    {
        match self {
            Refusal::Malformed => 5,
            Refusal::UnknownName => 6,
            Refusal::Full => 7,
            Refusal::TooDeep => 8,
            Refusal::RunsIntoItself => 9,
            Refusal::AbilitiesDisagree => 10,
            Refusal::OpenVariable => 11,
            Refusal::NoArgument => 12,
            Refusal::ParameterTwice => 13,
            Refusal::AnswerTooLong => 14,
            Refusal::UnsoundState => 15,
            Refusal::MarkContradicted => 16,
            Refusal::AlreadyExpanded => 17,
            Refusal::DoubledReference => 18,
        }
    }
}
