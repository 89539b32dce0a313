// Whether an action applies, and whether its effects are held: in the sets, which are the relaxed state; in the newest values, which are the
// real one; in the red-black state, which has the newest value of a black variable and the set of a red one.
#![tactic(auto)]

ghost use Rattle.std.specs.Prelude.{◌≡◌, ◌/◌, ◌%◌, ◌<◌, ◌≤◌};
ghost use Rattle.planning.specs.Runs.{State, actions, act, holds, step, relaxed};
ghost use Rattle.planning.specs.Newest.{alone};
ghost use Rattle.task.specs.Task.{facts_of, task_in, AllFacts, Loaded};
ghost use Rattle.sets.specs.Sets.{sets_of, values_of, mode_of, red_black_of, further, Known, WithOnly};

// What stands for a state: a fact is in it or not.
pub trait Holding {
    ghost state: { Self → State };

    fn holds(&self, f: usize) -> bool
        requires { f < 4096 }
        ensures { result ≡ state self.now (f / 64) (f % 64) };
}

// The sets: each value that a variable has had.
impl Holding for [u64; 64] {
    ghost state = { sets_of };

    fn holds(&self, f: usize) -> bool {
        sets::holds(self, f)
    }
}

// The newest values alone.
impl Holding for [u8; 64] {
    ghost state = { λ newest. alone (values_of newest) };

    fn holds(&self, f: usize) -> bool {
        (f % 64) as u8 == self[f / 64]
    }
}

// The red-black state: the newest value of a variable of the set `paint`, else each one that the variable has had.
#[derive(Clone, Copy)]
pub struct RedBlack<'a> {
    pub paint: u64,
    pub sets: &'a [u64; 64],
    pub newest: &'a [u8; 64],
}

impl<'a> Holding for RedBlack<'a> {
    ghost state = { λ s. red_black_of (mode_of s.paint) (sets_of s.sets.now) (values_of s.newest.now) };

    fn holds(&self, f: usize) -> bool {
        if sets::member(self.paint, f / 64) {
            self.newest.holds(f)
        } else {
            self.sets.holds(f)
        }
    }
}

// Each fact of the list is in the state.
pub fn all_hold<S: Holding>(state: &S, facts: &[u16]) -> bool
    requires { AllFacts facts.now }
    ensures { result ≡ holds (S.state state.now) (facts_of facts.now) }
{
    // A `for`: the closure of `all` would need a clause that its fact is below 4,096.
    for f in facts {
        if !state.holds(usize::from(*f)) {
            return false;
        }
    }
    true
}

// Action i applies: each precondition is in the state.
pub fn applies<S: Holding>(state: &S, task: &[u16], i: usize) -> bool
    requires { Loaded task.now × (i < actions (task_in task.now)) }
    ensures { result ≡ holds (S.state state.now) (act (task_in task.now) i).pre }
{
    all_hold(state, task::preconditions(task, i))
}

// Each effect of action i is in the state.
pub fn has_effects<S: Holding>(state: &S, task: &[u16], i: usize) -> bool
    requires { Loaded task.now × (i < actions (task_in task.now)) }
    ensures { result ≡ holds (S.state state.now) (act (task_in task.now) i).eff }
{
    all_hold(state, task::effects(task, i))
}

// The same, where `known` has actions of which it is so, 16 sets of 64. Action i joins them: it is so of the state behind it.
pub fn knows_effects(sets: &[u64; 64], task: &[u16], i: usize, known: &mut [u64; 16]) -> bool
    requires { Loaded task.now × (i < actions (task_in task.now)) × Known (task_in task.now) (sets_of sets.now) known.old }
    ensures value { result ≡ holds (sets_of sets.now) (act (task_in task.now) i).eff }
    ensures known { Known (task_in task.now) (step relaxed (act (task_in task.now) i) (sets_of sets.now)) known.new }
    ensures with_only { WithOnly i known.old known.new }
{
    if sets::is_listed(known, i) {
        return true;
    }
    known[i / 64] |= sets::single(i % 64);
    has_effects(sets, task, i)
}

// The steps of a list that run for real, with action i behind it: of `steps` steps `runs` do, and i counts if all do and it applies to the
// newest values.
pub fn further(newest: &[u8; 64], task: &[u16], i: usize, runs: usize, steps: usize) -> usize
    requires { Loaded task.now × (i < actions (task_in task.now)) × (runs ≤ 32768) }
    ensures { result ≡ further (holds (alone (values_of newest.now)) (act (task_in task.now) i).pre) runs steps }
{
    if runs == steps && applies(newest, task, i) {
        return runs + 1;
    }
    runs
}
