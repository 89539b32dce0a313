// Best paths of one black variable along usable arcs: the cheapest, of these the shortest, of these the first by its actions. A search
// gives for each value the smallest action that a best path from there starts with, and its target: the leads, which are kept in the slots of
// a memo, and along which a path is written down.
#![tactic(auto)]

ghost use Rattle.std.specs.Prelude.{◌≡◌, ◌||◌, ℕ, ◌+◌, ◌<◌, ◌≤◌, T, length};
ghost use Rattle.planning.specs.Runs.{touches, actions, count, act, black};
ghost use Rattle.task.specs.Task.{task_in, Loaded};
ghost use Rattle.task.specs.Links.{Prepared};
ghost use Rattle.sets.specs.Sets.{in_set, sets_of};
ghost use Rattle.asking.specs.Asking.{Put};
ghost use Rattle.paths.specs.Paths.{paths_of, lead_by, few_values, slot, MemoOf, Leading, any_black, Covers};

use search::Arcs;

// The memo has a mark for each of 64 slots, and behind them 64 leads for each value, one a slot: for 15 values where no variable has more, else
// for 64. The leads of a variable to one value are in one slot. A mark is a variable + 1, 0 for none: fixed memory, with no room for options.
pub const SMALL: usize = 1024;

pub const LARGE: usize = 4160;

// No variable has more than 15 values.
pub fn has_few_values(task: &[u16]) -> bool
    requires { Loaded task.now }
    ensures { result ≡ few_values (task_in task.now) }
{
    for v in 0..task::variables(task) {
        if 15 < task::count(task, v) {
            return false;
        }
    }
    true
}

// The label of a value that no path was found from: a number, as labels lie in one array and the lesser one is the better.
const UNREACHED: u64 = 18446744073709551615;

// The lead of c by its label, unknown if c is open: a number of the memo, where an option has no room.
fn lead(l: u64, c: usize, rest: u64) -> u16
    requires { c < 64 }
    ensures { result ≡ lead_by (in_set rest c) l c }
{
    if sets::member(rest, c) {
        (64 + c) as u16
    } else if l == UNREACHED {
        c as u16
    } else {
        (l % 65536) as u16
    }
}

// The slot of a variable and a value. Other variables may have it; 39 is odd and near 64 / 1.618, so that the slots of neighbours lie apart:
// those at most 4 apart share none where they have at most 11 values.
fn slot(v: usize, d: usize) -> usize
    requires { (v < 64) × (d < 64) }
    ensures { result ≡ slot v d }
{
    (39 * v + d) % 64
}

// The leads of v to d go to slot k. That of c is known then; where the whole is asked for, the search goes to its end.
fn towards(arcs: &Arcs, memo: &mut [u16], v: usize, c: usize, d: usize, k: usize, whole: bool)
    requires prepared { Prepared arcs.now.task.now × T (black (task_in arcs.now.task.now) v) × (c < count (task_in arcs.now.task.now) v) × (d < count (task_in arcs.now.task.now) v) }
    requires k_value { (k ≡ slot v d) × MemoOf arcs.now memo.old }
    ensures { MemoOf arcs.now memo.new × Leading memo.new v c d }
{
    let mut labels = [UNREACHED; 64];
    let rest = search::settle(arcs, &mut labels, v, c, d, whole);
    for x in 0..task::count(arcs.task, v) {
        memo[64 * (x + 1) + k] = lead(labels[x], x, rest);
    }
    memo[k] = (v + 1) as u16;
}

// The lead of v from c to d stands in slot k of the memo: it is searched for if it does not yet, to the end of the search where the slot has
// leads to d already.
fn prepare(arcs: &Arcs, memo: &mut [u16], v: usize, c: usize, d: usize, k: usize)
    requires prepared { Prepared arcs.now.task.now × T (black (task_in arcs.now.task.now) v) × (c < count (task_in arcs.now.task.now) v) × (d < count (task_in arcs.now.task.now) v) }
    requires k_value { (k ≡ slot v d) × MemoOf arcs.now memo.old }
    ensures { MemoOf arcs.now memo.new × Leading memo.new v c d }
{
    let begun = usize::from(memo[k]) == v + 1;
    if begun && usize::from(memo[64 * (c + 1) + k]) != 64 + c {
        return;
    }
    towards(arcs, memo, v, c, d, k, begun);
}

// The path of v from c to d (6.7), written into the list from place `at` on. v, c and d stay apart: a pass has them so.
pub fn path(
    arcs: &Arcs,
    memo: &mut [u16],
    v: usize,
    c: usize,
    d: usize,
    list: &mut [u16],
    at: usize,
) -> Option<usize>
    requires prepared { Prepared arcs.now.task.now × T (black (task_in arcs.now.task.now) v) × MemoOf arcs.now memo.old }
    requires c_bound { (c < count (task_in arcs.now.task.now) v) × (d < count (task_in arcs.now.task.now) v) × (at ≤ length list.old) }
    ensures put { Put list.old list.new at (paths_of (task_in arcs.now.task.now) (sets_of arcs.now.ever.now) v c d) result }
    ensures memo { MemoOf arcs.now memo.new }
{
    let k = slot(v, d);
    prepare(arcs, memo, v, c, d, k);
    let mut x = c;
    let mut e = at;
    let mut l = usize::from(memo[64 * (x + 1) + k]);
    // A walk from value to value: no range tells its turns, and the lead that ends it is of the place where it is.
    while l % 64 != x {
        if e >= list.len() {
            return None;
        }
        list[e] = (l / 64) as u16;
        e += 1;
        x = l % 64;
        l = usize::from(memo[64 * (x + 1) + k]);
    }
    Some(e)
}

// Action i sets a black variable.
fn sets_black(task: &[u16], i: usize) -> bool
    requires { Loaded task.now × (i < actions (task_in task.now)) }
    ensures { result ≡ any_black (task_in task.now) (act (task_in task.now) i).eff }
{
    for f in task::effects(task, i) {
        if task::is_black(task, usize::from(*f) / 64) {
            return true;
        }
    }
    false
}

// The set, and the variables that action i needs.
fn with_needs(task: &[u16], i: usize, set: u64) -> u64
    requires { Loaded task.now × (i < actions (task_in task.now)) }
    ensures { (v : ℕ) → in_set result v ≡ (in_set set v || touches (act (task_in task.now) i).pre v) }
{
    let mut m = set;
    for f in task::preconditions(task, i) {
        m = m | sets::single(usize::from(*f) / 64);
    }
    m
}

// The set, and the variables that action i needs if it sets a black variable.
fn with_moves(task: &[u16], i: usize, set: u64) -> u64
    requires { Loaded task.now × (i < actions (task_in task.now)) × Covers (task_in task.now) i set }
    ensures { Covers (task_in task.now) (i + 1) result }
{
    if sets_black(task, i) {
        return with_needs(task, i, set);
    }
    set
}

// The variables that actions which set a black variable need: while no new fact of these is held, the same arcs are usable.
pub fn needs(task: &[u16]) -> u64
    requires { Loaded task.now }
    ensures { Covers (task_in task.now) (actions (task_in task.now)) result }
{
    let mut set: u64 = 0;
    for i in 0..task::actions(task) {
        set = with_moves(task, i, set);
    }
    set
}
