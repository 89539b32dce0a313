// What one entry of a list asks of a black variable: a value, or none. Which value the variable has behind it and how many paths were asked
// for; and the list so far, as a pass tells it: its end and the searches.
#![tactic(auto)]

ghost use Rattle.std.specs.Prelude.{◌≡◌};
ghost use Rattle.planning.specs.Repair.{after, asked_for};
ghost use Rattle.task.specs.Goals.{option_of};

// A list of moves was written up to a place, and so many paths were asked for.
#[derive(Clone, Copy)]
pub struct Inserted {
    pub end: usize,
    pub searches: usize,
}

// The value of v after a path to the value that d asks.
pub fn next_value(c: usize, d: Option<usize>) -> usize
    ensures { result ≡ after c (option_of d) }
{
    d.unwrap_or(c)
}

// One path is asked for where d asks a value.
pub fn asked_for(d: Option<usize>) -> usize
    ensures { result ≡ asked_for (option_of d) }
{
    usize::from(d.is_some())
}
