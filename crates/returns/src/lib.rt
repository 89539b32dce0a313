// The return to one fact. An action marks what its return may need; the returns are looked for in the chain of the fact, which has all actions
// that change its variable to it: the first one that needs marked facts alone is enough. What served last is tried first.
#![tactic(auto)]

ghost use Rattle.std.specs.Prelude.{◌≡◌, ◌≢◌, true, false, ℕ, MatchOption, ◌/◌, ◌%◌, ◌<◌, T, length, get_or};
ghost use Rattle.planning.specs.Runs.{holds, actions, act};
ghost use Rattle.task.specs.Task.{facts_of, task_in, Loaded};
ghost use Rattle.task.specs.Links.{Changes};
ghost use Rattle.returns.specs.Returns.{place, mark_all, marked, Spans, Markable, returns_by, returned, OnChain, InChain, FirstFrom, Finds};

// For no action. With an Option for each the check of a painting was slower, by up to a tenth.
pub const NO_ACTION: u16 = 65535;

// What served last. Any numbers will do.
#[derive(Clone, Copy)]
pub struct Last {
    // the action for each fact, by the fact's number modulo 1,024
    pub served: [u16; 1024],
    // where the precondition stood that was not marked
    pub place: u16,
    // how many more actions may be tried in vain for keeping
    pub tries: u16,
}

// A loaded task with marks: those that are `own` say what is allowed.
#[derive(Clone, Copy)]
pub struct Marked<'a, 'b> {
    pub task: &'a [u16],
    pub marks: &'b [u16],
    pub own: u16,
}

// Where an action with the move f, if it has one, marks its fact g.
fn place_of(f: Option<usize>, g: usize) -> usize
    ensures { result ≡ place f g }
{
    let Some(f) = f else {
        return g;
    };
    if g / 64 == f / 64 { f } else { g }
}

// The marks `own` of the facts, for an action with the move f, if it has one.
pub fn mark(facts: &[u16], f: Option<usize>, own: u16, marks: &mut [u16])
    requires { Markable facts.now f marks.old }
    ensures { marks.new ≡ mark_all own f (facts_of facts.now) marks.old }
{
    for g in facts {
        marks[place_of(f, usize::from(*g))] = own;
    }
}

// Where a fact stands that is not marked `own`; none where all are.
fn first_unmarked(facts: &[u16], marks: &[u16], own: u16) -> Option<usize>
    requires { (k : ℕ) → k < length facts.now → get_or facts.now k 0 < length marks.now }
    ensures { MatchOption result (holds (marked own marks.now) (facts_of facts.now) ≡ true) (λ k. (k < length facts.now) × (get_or marks.now (get_or facts.now k 0) 0 ≢ own) × (holds (marked own marks.now) (facts_of facts.now) ≡ false)) }
{
    for (k, f) in facts.iter().enumerate() {
        if marks[usize::from(*f)] != own {
            return Some(k);
        }
    }
    None
}

// Each precondition of action j is marked. The one that was not the last time is looked at first.
pub fn all_marked(m: Marked, j: usize, last: &mut Last) -> bool
    requires { Loaded m.task.now × (j < actions (task_in m.task.now)) × Spans (task_in m.task.now) m.marks.now }
    ensures { result ≡ holds (marked m.entry.own m.entry.marks.now) (act (task_in m.entry.task.now) j).pre }
{
    let pre = task::preconditions(m.task, j);
    let seen = usize::from(last.place % 16);
    if seen < pre.len() && m.marks[usize::from(pre[seen])] != m.own {
        return false;
    }
    let Some(k) = first_unmarked(pre, m.marks, m.own) else {
        return true;
    };
    last.place = (k % 16) as u16;
    false
}

// The first action from j on whose move is f and that needs marked facts alone. The walk goes along the chain of f, in which j stands.
fn first_return(m: Marked, f: usize, j: usize, last: &mut Last) -> Option<usize>
    requires { OnChain m.task.now f × InChain (task_in m.task.now) (f / 64) (f % 64) j × Spans (task_in m.task.now) m.marks.now }
    ensures { FirstFrom (λ k. T (returns_by (task_in m.entry.task.now) (marked m.entry.own m.entry.marks.now) (f / 64) (f % 64) k)) j (actions (task_in m.entry.task.now)) result }
{
    let mut k = j;
    // A `while`: the walk goes along a chain of the loaded task, and no range tells its turns. It ends with 65,535, as the chain does.
    while k != 65535 {
        if all_marked(m, k, last) {
            return Some(k);
        }
        k = task::next_mover(m.task, k);
    }
    None
}

// Action h, which may be any number, has the move f.
fn moves_to(task: &[u16], h: usize, f: usize) -> bool
    requires { Loaded task.now }
    ensures { result ≡ true → (h < actions (task_in task.now)) × Changes (task_in task.now) (f / 64) (f % 64) h }
{
    if task::actions(task) <= h {
        return false;
    }
    sets::target(task, h, f / 64) == Some(f % 64) && !sets::needs_fact(task, h, f)
}

// Some action with the move f that needs marked facts alone. The walk starts at action h, if that has the move f, and then at the first.
fn find_return(m: Marked, f: usize, h: usize, last: &mut Last) -> Option<usize>
    requires { OnChain m.task.now f × Spans (task_in m.task.now) m.marks.now }
    ensures { Finds (task_in m.entry.task.now) (marked m.entry.own m.entry.marks.now) (f / 64) (f % 64) result }
{
    if moves_to(m.task, h, f) {
        if let Some(j) = first_return(m, f, h, last) {
            return Some(j);
        }
    }
    first_return(m, f, task::first_mover(m.task, f), last)
}

// Some action with the move f needs marked facts alone. The one that was found last, for f or for a fact that shares its place, is tried first.
pub fn is_returned(m: Marked, f: usize, last: &mut Last) -> bool
    requires { OnChain m.task.now f × Spans (task_in m.task.now) m.marks.now }
    ensures { result ≡ returned (task_in m.entry.task.now) (marked m.entry.own m.entry.marks.now) (f / 64) (f % 64) }
{
    let h = usize::from(last.served[f % 1024]);
    let Some(j) = find_return(m, f, h, last) else {
        last.served[f % 1024] = NO_ACTION;
        return false;
    };
    last.served[f % 1024] = j as u16;
    true
}
