// Sets of values, one bit a value: membership, the facts of a state as 64 such sets, what a list of facts asks of a variable, and the black
// variables of a task as a set.
#![tactic(auto)]

ghost use Rattle.std.specs.Prelude.{◌≡◌, ◌/◌, ◌%◌, ◌^◌, ◌<◌};
ghost use Rattle.planning.specs.Runs.{actions, act, has, look, black};
ghost use Rattle.task.specs.Task.{facts_of, task_in, Loaded};
ghost use Rattle.sets.specs.Sets.{in_set, sets_of, mode_of, Asked, listed};

// The set of value x alone.
pub fn single(x: usize) -> u64
    requires { x < 64 }
    ensures { result ≡ 2 ^ x }
{
    1 << x
}

// Value x is in the set.
pub fn member(set: u64, x: usize) -> bool
    requires { x < 64 }
    ensures { result ≡ in_set set x }
{
    (set >> x) % 2 == 1
}

// Fact f is in the sets.
pub fn holds(sets: &[u64; 64], f: usize) -> bool
    requires { f < 4096 }
    ensures { result ≡ sets_of sets.now (f / 64) (f % 64) }
{
    member(sets[f / 64], f % 64)
}

// Action i is in a set of actions, 16 sets of 64.
pub fn is_listed(set: &[u64; 16], i: usize) -> bool
    requires { i < 1024 }
    ensures { result ≡ listed set.now i }
{
    member(set[i / 64], i % 64)
}

// The value that the facts ask of variable v, if they ask for one.
pub fn asked(facts: &[u16], v: usize) -> Option<usize>
    ensures { Asked (look (facts_of facts.now) v) result }
{
    for f in facts {
        let f = usize::from(*f);
        if f / 64 == v {
            return Some(f % 64);
        }
    }
    None
}

// The value that action i needs of v, if any.
pub fn need(task: &[u16], i: usize, v: usize) -> Option<usize>
    requires { Loaded task.now × (i < actions (task_in task.now)) }
    ensures { Asked (look (act (task_in task.now) i).pre v) result }
{
    asked(task::preconditions(task, i), v)
}

// The value to which action i sets v, if it does.
pub fn target(task: &[u16], i: usize, v: usize) -> Option<usize>
    requires { Loaded task.now × (i < actions (task_in task.now)) }
    ensures { Asked (look (act (task_in task.now) i).eff v) result }
{
    asked(task::effects(task, i), v)
}

// Fact f is among the preconditions of action i.
pub fn needs_fact(task: &[u16], i: usize, f: usize) -> bool
    requires { Loaded task.now × (i < actions (task_in task.now)) }
    ensures { result ≡ has (act (task_in task.now) i).pre (f / 64) (f % 64) }
{
    need(task, i, f / 64) == Some(f % 64)
}

// The black variables, as a set of variables.
pub fn painted(task: &[u16]) -> u64
    requires { Loaded task.now }
    ensures { mode_of result ≡ black (task_in task.now) }
{
    let n = task::variables(task);
    let mut set: u64 = 0;
    for v in 0..n {
        let own = single(v);
        if task::is_black(task, v) {
            set = set | own;
        }
    }
    set
}
