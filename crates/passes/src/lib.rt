// One pass for one black variable: the list built so far, with the best path inserted before each entry that needs a value of
// the variable, and at the end if a value is wanted.
#![tactic(auto)]

ghost use Rattle.std.specs.Prelude.{◌≡◌, ◌/◌, ◌%◌, ◌<◌, ◌≤◌, T, length, take, drop};
ghost use Rattle.planning.specs.Runs.{count, black};
ghost use Rattle.planning.specs.Repair.{toward};
ghost use Rattle.task.specs.Goals.{option_of};
ghost use Rattle.task.specs.Task.{facts_of, task_in, Loaded};
ghost use Rattle.task.specs.Links.{Prepared};
ghost use Rattle.sets.specs.Sets.{sets_of};
ghost use Rattle.paths.specs.Paths.{paths_of, MemoOf};
ghost use Rattle.entries.specs.Entries.{Entries};
ghost use Rattle.asking.specs.Asking.{Fitting, Fits, written_in, Searched, Put};
ghost use Rattle.passes.specs.Passes.{served_in, served_searches_in, unasked};

use asking::Inserted;
use search::Arcs;

// The path from c to the value that d asks, if it asks one.
fn lead_to(
    arcs: &Arcs,
    memo: &mut [u16],
    v: usize,
    c: usize,
    d: Option<usize>,
    list: &mut [u16],
    at: usize,
) -> Option<usize>
    requires prepared { Prepared arcs.now.task.now × T (black (task_in arcs.now.task.now) v) × MemoOf arcs.now memo.old }
    requires c_bound { (c < count (task_in arcs.now.task.now) v) × Fits (count (task_in arcs.now.task.now) v) d × (at ≤ length list.old) }
    ensures put { Put list.old list.new at (toward (paths_of (task_in arcs.now.task.now) (sets_of arcs.now.ever.now) v) c (option_of d)) result }
    ensures memo { MemoOf arcs.now memo.new }
{
    match d {
        Some(d) if d != c => paths::path(arcs, memo, v, c, d, list, at),
        _ => Some(at),
    }
}

// The pass for the variable of fact f, its present one, over the entries of the plan from place `at` on, into its front. A path is lent
// the part before the entry that it leads to, so that nothing unread is overwritten.
fn pass(
    arcs: &Arcs,
    memo: &mut [u16],
    f: usize,
    want: &[u16],
    plan: &mut [u16],
    at: usize,
) -> Option<Inserted>
    requires prepared { Prepared arcs.now.task.now × T (black (task_in arcs.now.task.now) (f / 64)) × MemoOf arcs.now memo.old }
    requires f_bound { (f % 64 < count (task_in arcs.now.task.now) (f / 64)) × Fitting (task_in arcs.now.task.now) (facts_of want.now) }
    requires at_in_bounds { (at ≤ length plan.old) × Entries (task_in arcs.now.task.now) (drop at plan.old) }
    ensures put { Put plan.old plan.new 0 (served_in arcs.now.task.now arcs.now.ever.now f (drop at plan.old) want.now) (written_in result) }
    ensures memo { MemoOf arcs.now memo.new }
    ensures searched { Searched (served_searches_in arcs.now.task.now f (drop at plan.old) want.now) result }
{
    let v = f / 64;
    let mut c = f % 64;
    let mut e: usize = 0;
    let mut searches: usize = 0;
    for j in at..plan.len() {
        let i = plan[j];
        let d = sets::need(arcs.task, usize::from(i), v);
        let x = lead_to(arcs, memo, v, c, d, &mut plan[..j], e)?;
        plan[x] = i;
        e = x + 1;
        c = asking::next_value(c, d);
        searches += asking::asked_for(d);
    }
    let d = sets::asked(want, v);
    searches += asking::asked_for(d);
    let end = lead_to(arcs, memo, v, c, d, plan, e)?;
    Some(Inserted { end, searches })
}

// No entry of the list needs a value of v.
fn idle(task: &[u16], v: usize, list: &[u16]) -> bool
    requires { Loaded task.now × Entries (task_in task.now) list.now }
    ensures { result ≡ unasked (task_in task.now) v list.now }
{
    for i in list {
        if sets::need(task, usize::from(*i), v).is_some() {
            return false;
        }
    }
    true
}

// The pass for the variable of fact f, its present one, over the list in front of place e. Where no entry needs the variable, the path
// is written behind the list, asked for here as well so that `lead_to` stays small; else the list is moved to the end of the plan, and
// the pass goes over it there. The plan is lent with the place, as what is behind it is written too.
pub fn serve(
    arcs: &Arcs,
    memo: &mut [u16],
    f: usize,
    want: &[u16],
    plan: &mut [u16],
    e: usize,
) -> Option<Inserted>
    requires prepared { Prepared arcs.now.task.now × T (black (task_in arcs.now.task.now) (f / 64)) × MemoOf arcs.now memo.old }
    requires f_bound { (f % 64 < count (task_in arcs.now.task.now) (f / 64)) × Fitting (task_in arcs.now.task.now) (facts_of want.now) }
    requires e_in_bounds { (e ≤ length plan.old) × Entries (task_in arcs.now.task.now) (take e plan.old) }
    ensures put { Put plan.old plan.new 0 (served_in arcs.now.task.now arcs.now.ever.now f (take e plan.old) want.now) (written_in result) }
    ensures memo { MemoOf arcs.now memo.new }
    ensures searched { Searched (served_searches_in arcs.now.task.now f (take e plan.old) want.now) result }
{
    let v = f / 64;
    if idle(arcs.task, v, &plan[..e]) {
        let d = sets::asked(want, v);
        let searches = asking::asked_for(d);
        let end = match d {
            Some(d) if d != f % 64 => paths::path(arcs, memo, v, f % 64, d, plan, e)?,
            _ => e,
        };
        return Some(Inserted { end, searches });
    }
    let at = lists::to_end(plan, e);
    pass(arcs, memo, f, want, plan, at)
}
