// What the parts of the library answer: a result, or a refusal with its reason and its place.
#![tactic(auto)]

ghost use Rattle.std.specs.Prelude.{◌≡◌};
ghost use Rattle.answers.specs.Answers.{number_of};

// Why something is declined: the rows of the table (9.5), whose numbers they have.
#[derive(Clone, Copy, Debug, PartialEq, Eq)]
pub enum Reason {
    // The record ends inside or before a field.
    Cut = 1,
    // The edition is not 1.
    Edition,
    // Too few or too many variables, too many actions.
    Size,
    // A value not below its variable's count, or one of a goal that there is not.
    Value,
    // A fact's variable that there is not, or that does not rise.
    Variable,
    // Padding that is not 0, or bytes left over.
    End,
    // The black causal graph has a cycle.
    Cycle,
    // An arc lacks its return.
    NoReturn,
    // An entry of a list, or a goal that a caller's relaxed plan misses.
    Entry,
    NoPlan,
    // The result is longer than what is lent.
    Room,
    // A sheet's field or its end.
    Sheet,
    // A list that is too long, or an entry that no sheet can hold.
    Length,
}

impl From<Reason> for u8 {
    ghost from_gives = { λ reason n. n ≡ number_of reason };

    fn from(reason: Reason) -> u8 {
        reason as u8
    }
}

#[derive(Clone, Copy, Debug, PartialEq, Eq)]
pub struct Refusal {
    pub reason: Reason,
    pub place: u32,
}

// A plan with its steps, its cost, the steps that run for real, the path searches that it took, and whether it is a plan in a real run.
#[derive(Clone, Copy, Debug, PartialEq, Eq)]
pub struct Plan {
    pub steps: u32,
    pub cost: u32,
    pub runs: u32,
    pub searches: u32,
    pub real: bool,
}
