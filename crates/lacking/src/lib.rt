// Whether an arc of one action, whose move is known and whose facts are marked, lacks its return. For arcs from every
// value an action is kept whose preconditions allow all the returns, so that the search is not repeated for each action that allows them.
#![tactic(auto)]

ghost use Rattle.std.specs.Prelude.{◌≡◌, true, false, ◌||◌, ◌+◌, ◌*◌, ◌/◌, ◌%◌, ◌<◌, eqb};
ghost use Rattle.planning.specs.Runs.{actions};
ghost use Rattle.task.specs.Task.{task_in};
ghost use Rattle.returns.specs.Returns.{marked, Spans, returned, OnChain};
ghost use Rattle.lacking.specs.Lacking.{Unmarked, lacks_by, lacks_any, Complete, Kept, Ready};

use returns::{Last, Marked};

// How many complete actions are kept.
pub const KEPT: usize = 32;

// A complete action, with the variable to whose values its preconditions allow all the returns.
#[derive(Clone, Copy)]
pub struct Allowing {
    pub variable: u16,
    pub action: u16,
}

// What one action leaves for those after it: the actions that are kept, and what served last.
#[derive(Clone, Copy)]
pub struct Memory {
    pub kept: [Option<Allowing>; KEPT],
    pub last: Last,
}

// The arc from d of an action with the move f, if it is one, has its return.
fn arc_returned(m: Marked, f: usize, d: usize, last: &mut Last) -> bool
    requires { OnChain m.task.now f × (d < 64) × Spans (task_in m.task.now) m.marks.now }
    ensures { result ≡ (eqb d (f % 64) || returned (task_in m.entry.task.now) (marked m.entry.own m.entry.marks.now) (f / 64) d) }
{
    if d == f % 64 {
        return true;
    }
    returns::is_returned(m, f / 64 * 64 + d, last)
}

// For some value of the variable of f it has none.
fn lacks_some(m: Marked, f: usize, last: &mut Last) -> bool
    requires { OnChain m.task.now f × Spans (task_in m.task.now) m.marks.now }
    ensures { result ≡ lacks_any (task_in m.entry.task.now) (marked m.entry.own m.entry.marks.now) f }
{
    let n = task::count(m.task, f / 64);
    for d in 0..n {
        if !arc_returned(m, f, d, last) {
            return true;
        }
    }
    false
}

// Action j is complete: the variable of f is changed to each of its values by an action that needs nothing but what j needs. Each fact of j is
// marked where it stands.
fn is_complete(
    task: &[u16],
    marks: &mut [u16],
    own: u16,
    f: usize,
    j: usize,
    last: &mut Last,
) -> bool
    requires { OnChain task.now f × (j < actions (task_in task.now)) × Unmarked (task_in task.now) own marks.old × (own < 65535) }
    ensures { (result ≡ true → Complete (task_in task.now) (f / 64) j) × Unmarked (task_in task.now) (own + 1) marks.new }
{
    returns::mark(task::preconditions(task, j), None, own, marks);
    let m = Marked { task, marks, own };
    if !returns::is_returned(m, f, last) {
        return false;
    }
    !lacks_some(m, f, last)
}

// The action that served value 0 or 1 of the variable of f last is kept if it is complete: that of value 1 where f has an even value. Any
// action may be tried.
fn keep(task: &[u16], marks: &mut [u16], own: u16, f: usize, memory: &mut Memory)
    requires { OnChain task.now f × (own < 65535) × Ready (task_in task.now) own marks.old memory.old.kept }
    ensures { Ready (task_in task.now) (own + 1) marks.new memory.new.kept }
{
    let tries = memory.last.tries;
    if tries == 0 {
        return;
    }
    let j = memory.last.served[(f / 64 * 64 + (f + 1) % 2) % 1024];
    if task::actions(task) <= usize::from(j) {
        return;
    }
    if is_complete(task, marks, own, f, usize::from(j), &mut memory.last) {
        memory.kept[usize::from(own) / 2 % KEPT] = Some(Allowing {
            variable: (f / 64) as u16,
            action: j,
        });
    } else {
        memory.last.tries = tries - 1;
    }
}

// Each precondition of some action that was kept for the variable of f is marked.
fn is_covered(m: Marked, f: usize, kept: &[Option<Allowing>; KEPT], last: &mut Last) -> bool
    requires { OnChain m.task.now f × Kept (task_in m.task.now) kept.now × Spans (task_in m.task.now) m.marks.now }
    ensures { result ≡ true → lacks_any (task_in m.entry.task.now) (marked m.entry.own m.entry.marks.now) f ≡ false }
{
    for k in kept {
        if let Some(a) = *k
            && usize::from(a.variable) == f / 64
            && returns::all_marked(m, usize::from(a.action), last)
        {
            return true;
        }
    }
    false
}

// Some arc of an action with the move f, from any value, lacks its return. Where the variable has 16 values or more, a kept action may answer
// for all of them, and where none does one is looked for.
fn lacks_anywhere(task: &[u16], marks: &mut [u16], own: u16, f: usize, memory: &mut Memory) -> bool
    requires { OnChain task.now f × (own + 1 < 65535) × Ready (task_in task.now) (own + 1) marks.old memory.old.kept }
    ensures answer { result ≡ lacks_any (task_in task.now) (marked own marks.old) f }
    ensures ready { Ready (task_in task.now) (own + 2) marks.new memory.new.kept }
{
    let m = Marked { task, marks, own };
    if task::count(task, f / 64) < 16 {
        return lacks_some(m, f, &mut memory.last);
    }
    if is_covered(m, f, &memory.kept, &mut memory.last) {
        return false;
    }
    if lacks_some(m, f, &mut memory.last) {
        return true;
    }
    keep(task, marks, own + 1, f, memory);
    false
}

// Some arc of action i, whose move is f, lacks its return: the arc from the value that it needs, or from every value.
pub fn lacks_marked(
    task: &[u16],
    marks: &mut [u16],
    i: usize,
    f: usize,
    memory: &mut Memory,
) -> bool
    requires { OnChain task.now f × (i < actions (task_in task.now)) × Ready (task_in task.now) (2 * i + 1) marks.old memory.old.kept }
    ensures answer { result ≡ lacks_by (task_in task.now) (marked (2 * i) marks.old) i (f / 64) (f % 64) }
    ensures ready { Ready (task_in task.now) (2 * i + 2) marks.new memory.new.kept }
{
    let own = (2 * i) as u16;
    let Some(d) = sets::need(task, i, f / 64) else {
        return lacks_anywhere(task, marks, own, f, memory);
    };
    !arc_returned(Marked { task, marks, own }, f, d, &mut memory.last)
}
