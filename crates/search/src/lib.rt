// The search for best paths of one black variable to one value, along usable arcs: backwards from the wanted value, the nearest first
// (Dijkstra). Each value has a label, which is the key of the best path from there, cost × 64 + moves, and behind it the smallest action that
// such a path starts with and its target; so the lesser of two labels is always the better one.
#![tactic(auto)]

ghost use Rattle.std.specs.Prelude.{◌≡◌, ◌&&◌, ℕ, ◌/◌, ◌<◌, ◌≤◌, T, length, get_or, replicate};
ghost use Rattle.planning.specs.Runs.{holds, actions, count, act, black};
ghost use Rattle.task.specs.Task.{facts_of, task_in, AllFacts, Loaded};
ghost use Rattle.task.specs.Links.{Prepared};
ghost use Rattle.sets.specs.Sets.{in_set, sets_of};
ghost use Rattle.search.specs.Search.{source_of, unreached, through, highest, Into, Lowered, Done, Settled};

// The usable arcs: those of the actions of a task whose preconditions are held ever.
#[derive(Clone, Copy)]
pub struct Arcs<'a> {
    pub task: &'a [u16],
    pub ever: &'a [u64; 64],
}

// The set of all 64 values.
const ALL: u64 = 18446744073709551615;

// The set if each of the facts is held, else none.
fn if_held(ever: &[u64; 64], facts: &[u16], set: u64) -> u64
    requires { AllFacts facts.now }
    ensures { (c : ℕ) → in_set result c ≡ (in_set set c && holds (sets_of ever.now) (facts_of facts.now)) }
{
    if applying::all_hold(ever, facts) {
        set
    } else {
        0
    }
}

// The values of the set from which action i gives a usable arc of v: none if it is not usable. Its preconditions are gone through once; whether
// the value that it needs of v is held cannot be foretold, and is no test.
fn usable_sources(arcs: &Arcs, i: usize, v: usize, rest: u64) -> u64
    requires { Loaded arcs.now.task.now × (i < actions (task_in arcs.now.task.now)) }
    ensures { (c : ℕ) → in_set result c ≡ (in_set rest c && source_of (task_in arcs.now.task.now) (sets_of arcs.now.ever.now) v i c) }
{
    let pre = task::preconditions(arcs.task, i);
    for (k, w) in pre.iter().enumerate() {
        let f = usize::from(*w);
        if f / 64 == v {
            return if_held(
                arcs.ever,
                &pre[k + 1..],
                rest & arcs.ever[v] & sets::single(f % 64),
            );
        }
        if !sets::holds(arcs.ever, f) {
            return 0;
        }
    }
    rest
}

// The label of a value from which action i leads to x, whose key is given.
fn label(task: &[u16], key: u64, i: usize, x: usize) -> u64
    requires { Loaded task.now × (i < actions (task_in task.now)) × (key ≤ highest) × (x < 64) }
    ensures { result ≡ through key (act (task_in task.now) i).cost i x }
{
    let cost = task::cost(task, i) as u64;
    (key + 64 * cost + 1) * 65536 + ((64 * i + x) as u64)
}

// Values of the set rest with a usable arc into x get its label where they have no lesser one, and are added to the set front.
fn arrive(arcs: &Arcs, labels: &mut [u64; 64], v: usize, x: usize, rest: u64, front: u64) -> u64
    requires prepared { Prepared arcs.now.task.now × T (black (task_in arcs.now.task.now) v) × (length labels.old ≡ 64) }
    requires x_bound { (x < 64) × (get_or labels.old x 0 / 65536 ≤ highest) × Done rest x }
    ensures { Lowered (Into (task_in arcs.now.task.now) (sets_of arcs.now.ever.now) v x (get_or labels.old x 0 / 65536)) rest labels.old labels.new front result }
{
    let key = labels[x] / 65536;
    let mut g = front;
    // The chain lies in the task, a link for each action: an iterator over it would be longer than this loop.
    let mut i = task::first_mover(arcs.task, 64 * v + x);
    while i < 1024 {
        let set = usable_sources(arcs, i, v, rest);
        labels::mark(labels, set, label(arcs.task, key, i, x));
        g = g | set;
        i = task::next_mover(arcs.task, i);
    }
    g
}

// The labels towards d where there is none yet: of the values that have one the nearest is settled next, until c is, or each where the whole
// is asked for: one bit of the test that ends a turn, where two functions would say all else twice. The answer is the set of values still
// open; none at the end of the search, as what has no label then has no path.
pub fn settle(arcs: &Arcs, labels: &mut [u64; 64], v: usize, c: usize, d: usize, whole: bool) -> u64
    requires { Prepared arcs.now.task.now × T (black (task_in arcs.now.task.now) v) × (d < count (task_in arcs.now.task.now) v) × (labels.old ≡ replicate 64 unreached) }
    ensures { Settled (task_in arcs.now.task.now) (sets_of arcs.now.ever.now) v d labels.new result × Done result c }
{
    labels[d] = d as u64;
    let mut rest = ALL >> (64 - task::count(arcs.task, v));
    let mut front = sets::single(d);
    let mut near = Some(d);
    // No count: what is nearest is asked for in each turn.
    while let Some(x) = near {
        let one = sets::single(x);
        rest = rest ^ one;
        if x == c && !whole {
            return rest;
        }
        front = arrive(arcs, labels, v, x, rest, front ^ one);
        near = labels::nearest(labels, front);
    }
    0
}
