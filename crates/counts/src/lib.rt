// What the repair tells of its list: marks, steps, those that run for real, the cost, the verdict. As long as every step ran for real the newest
// values are the real state. An action that needs black variables alone applies for real wherever it does red-black: steps by such
// actions, where their effects are held too, are counted without a look at the values.
#![tactic(auto)]

ghost use Rattle.std.specs.Prelude.{◌≡◌, true, Ok, Err, ◌-◌, ◌*◌, ◌<◌, ◌≤◌, length};
ghost use Rattle.planning.specs.Basics.{done, refused};
ghost use Rattle.planning.specs.Runs.{holds, step, relaxed, actions, act, black, goals};
ghost use Rattle.planning.specs.Newest.{alone};
ghost use Rattle.task.specs.Task.{task_in, Loaded};
ghost use Rattle.sets.specs.Sets.{sets_of, values_of};
ghost use Rattle.entries.specs.Entries.{Entries};
ghost use Rattle.answers.specs.Plans.{answer_of};
ghost use Rattle.counts.specs.Marks.{marks_for};
ghost use Rattle.counts.specs.Counting.{Small, Few, Onward, judged_by};
ghost use Rattle.counts.specs.Plain.{all_black, Plain, passed_by, Gliding, Glides};

use answers::{Plan, Reason, Refusal};
use state::{Goals, Newest};

// The marks of a stage's steps: 1 for a move, 0 for the action behind them if there is one.
pub fn mark(marks: &mut [u8], action: bool)
    requires { action ≡ true → 0 < length marks.old }
    ensures { marks.new ≡ marks_for action (length marks.old) }
{
    let moves = marks.len() - usize::from(action);
    marks[..moves].fill(1);
    if action {
        marks[moves] = 0;
    }
}

// What is counted along a list: its steps, those that run for real, the cost.
#[derive(Clone, Copy, Default)]
pub struct Counts {
    pub steps: usize,
    pub runs: usize,
    pub cost: usize,
}

// The counts of a list with action i behind it.
pub fn counted(task: &[u16], newest: &[u8; 64], i: usize, c: Counts) -> Counts
    requires { Loaded task.now × (i < actions (task_in task.now)) × Small c }
    ensures { Onward (act (task_in task.now) i) (values_of newest.now) c result }
{
    Counts {
        steps: c.steps + 1,
        runs: applying::further(newest, task, i, c.runs, c.steps),
        cost: c.cost + task::cost(task, i),
    }
}

// The same where it is known that the action applies for real.
fn passed(task: &[u16], i: usize, c: Counts) -> Counts
    requires { Loaded task.now × (i < actions (task_in task.now)) × Small c }
    ensures { result ≡ passed_by (act (task_in task.now) i) c }
{
    Counts {
        steps: c.steps + 1,
        runs: c.runs + usize::from(c.runs == c.steps),
        cost: c.cost + task::cost(task, i),
    }
}

// Newest values and counts behind some steps.
#[derive(Clone, Copy)]
pub struct Glided {
    pub newest: Newest,
    pub counts: Counts,
}

// The steps of the list from place c.steps on as far as their actions are of the set `plain`. For these the values are not looked at, so that
// the loop is small; it is never put into its caller, whose own numbers would be moved about in each turn.
#[inline(never)]
fn glide_on(task: &[u16], newest: Newest, plan: &[u16], c: Counts, plain: &[u64; 16]) -> Glided
    requires { Loaded task.now × Few c × (c.steps ≤ length plan.now) × (length plan.now ≤ 32768) × Entries (task_in task.now) plan.now }
    ensures { Gliding (task_in task.now) plain.now plan.now (length plan.now) (values_of newest.values) c (values_of result.newest.values) result.counts }
{
    let mut counts = c;
    let mut now = newest;
    for x in &plan[c.steps..] {
        let i = usize::from(*x);
        if !sets::is_listed(plain, i) {
            break;
        }
        counts = passed(task, i, counts);
        now = now.step(task, i);
    }
    Glided {
        newest: now,
        counts,
    }
}

// The next step of the list, and those behind it as far as their actions are of the set `plain`. Often there is none behind it, in a caller's
// list for one.
pub fn glide(task: &[u16], newest: Newest, plan: &[u16], c: Counts, plain: &[u64; 16]) -> Glided
    requires { Loaded task.now × Few c × (c.steps < length plan.now) × (length plan.now ≤ 32768) × Entries (task_in task.now) plan.now }
    ensures { Glides (task_in task.now) plain.now plan.now (length plan.now) (values_of newest.values) c result }
{
    let i = usize::from(plan[c.steps]);
    let first = Glided {
        counts: counted(task, &newest.values, i, c),
        newest: newest.step(task, i),
    };
    if first.counts.steps == plan.len() {
        return first;
    }
    glide_on(task, first.newest, plan, first.counts, plain)
}

// Each precondition of action i is of a black variable.
fn needs_black(task: &[u16], i: usize) -> bool
    requires { Loaded task.now × (i < actions (task_in task.now)) }
    ensures { result ≡ all_black (black (task_in task.now)) (act (task_in task.now) i).pre }
{
    let facts = task::preconditions(task, i);
    for f in facts {
        if !task::is_black(task, usize::from(*f) / 64) {
            return false;
        }
    }
    true
}

// Each effect of action i is held. Where its preconditions are black it joins the plain actions, for the state behind it.
pub fn effects_held(task: &[u16], ever: &[u64; 64], i: usize, plain: &mut [u64; 16]) -> bool
    requires { Loaded task.now × (i < actions (task_in task.now)) × Plain (task_in task.now) (sets_of ever.now) plain.old }
    ensures value { result ≡ holds (sets_of ever.now) (act (task_in task.now) i).eff }
    ensures plain { Plain (task_in task.now) (step relaxed (act (task_in task.now) i) (sets_of ever.now)) plain.new }
{
    if sets::is_listed(plain, i) {
        return true;
    }
    if needs_black(task, i) {
        return applying::knows_effects(ever, task, i, plain);
    }
    applying::has_effects(ever, task, i)
}

// Each goal is the newest value of its variable.
fn at_goals(task: &[u16], newest: &[u8; 64]) -> bool
    requires { Loaded task.now }
    ensures { result ≡ holds (alone (values_of newest.now)) (goals (task_in task.now)) }
{
    let goals = Goals::load(task);
    applying::all_hold(newest, goals.listed())
}

// The plan for a list with these counts, newest values and searches.
pub fn verdict(task: &[u16], newest: &[u8; 64], c: Counts, searches: usize) -> Plan
    requires { Loaded task.now × Few c × (searches ≤ 64 * 32769) }
    ensures { answer_of (Ok result) ≡ done (judged_by (holds (alone (values_of newest.now)) (goals (task_in task.now))) c searches) }
{
    let met = at_goals(task, newest);
    Plan {
        steps: c.steps as u32,
        cost: c.cost as u32,
        runs: c.runs as u32,
        searches: searches as u32,
        real: c.runs == c.steps && met,
    }
}

// The list does not fit.
pub fn too_long(room: usize) -> Refusal
    requires { room ≤ 32768 }
    ensures { answer_of (Err result) ≡ refused 11 room }
{
    Refusal {
        reason: Reason::Room,
        place: room as u32,
    }
}
