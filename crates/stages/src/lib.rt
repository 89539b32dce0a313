// The steps of one stage of the repair: moves for the black preconditions of an entry, and the entry, or in the end moves for the goals.
// They are built where they stay, in the plan list behind the steps so far. Passes only insert, so as soon as moves do not fit, the stage does not.
#![tactic(auto)]

ghost use Rattle.std.specs.Prelude.{◌≡◌, not, ◌&&◌, ◌/◌, ◌%◌, ◌<◌, ◌≤◌, length};
ghost use Rattle.planning.specs.Runs.{variables, actions, black};
ghost use Rattle.planning.specs.Newest.{alone};
ghost use Rattle.planning.specs.Repair.{black_met};
ghost use Rattle.task.specs.Task.{facts_of, task_in, Loaded};
ghost use Rattle.task.specs.Links.{Prepared};
ghost use Rattle.sets.specs.Sets.{sets_of, values_of};
ghost use Rattle.paths.specs.Paths.{MemoOf};
ghost use Rattle.entries.specs.Entries.{Entries};
ghost use Rattle.asking.specs.Asking.{written_in, Searched, Put};
ghost use Rattle.stages.specs.Stages.{Present, Wanted, filled_in, moved_in, steps_in, last_in, stage_in};
ghost use Rattle.stages.specs.Stages.{filled_searches_in, moved_searches_in, steps_searches_in, last_searches_in, stage_searches_in};

use asking::Inserted;
use search::Arcs;
use state::Goals;

// The present fact of v, its newest value.
fn present(task: &[u16], newest: &[u8; 64], v: usize) -> usize
    requires { Loaded task.now × (v < variables (task_in task.now)) }
    ensures { Present (task_in task.now) (alone (values_of newest.now)) v result }
{
    let x = usize::from(newest[v]);
    if x < task::count(task, v) {
        64 * v + x
    } else {
        64 * v
    }
}

// The fact f is black and not the newest value.
fn unmet(task: &[u16], newest: &[u8; 64], f: usize) -> bool
    requires { Loaded task.now × (f / 64 < variables (task_in task.now)) }
    ensures { result ≡ (black (task_in task.now) (f / 64) && not (alone (values_of newest.now) (f / 64) (f % 64))) }
{
    task::is_black(task, f / 64) && (f % 64) as u8 != newest[f / 64]
}

// The black facts of the list are newest values. `leads::adds_none` asks the like of other sets: one function for both would take the black
// variables as a set, which would be made anew for each entry.
fn black_met(task: &[u16], newest: &[u8; 64], facts: &[u16]) -> bool
    requires { Loaded task.now × Wanted (task_in task.now) facts.now }
    ensures { result ≡ black_met (black (task_in task.now)) (alone (values_of newest.now)) (facts_of facts.now) }
{
    for f in facts {
        if unmet(task, newest, usize::from(*f)) {
            return false;
        }
    }
    true
}

// The passes of the black variables in their order: moves for the wanted facts, in the front of a list. The newest values stay beside the
// arcs, as a pass takes these alone.
fn fill(
    arcs: &Arcs,
    newest: &[u8; 64],
    memo: &mut [u16],
    wanted: &[u16],
    plan: &mut [u16],
) -> Option<Inserted>
    requires prepared { Prepared arcs.now.task.now × Wanted (task_in arcs.now.task.now) wanted.now × (length plan.old ≤ 32768) }
    requires memo { MemoOf arcs.now memo.old }
    ensures put { Put plan.old plan.new 0 (filled_in arcs.now.task.now arcs.now.ever.now newest.now wanted.now) (written_in result) }
    ensures memo_2 { MemoOf arcs.now memo.new }
    ensures searched { Searched (filled_searches_in arcs.now.task.now arcs.now.ever.now newest.now wanted.now) result }
{
    let mut end: usize = 0;
    let mut searches: usize = 0;
    for p in 0..task::ordered(arcs.task) {
        let v = task::order_at(arcs.task, p);
        let f = present(arcs.task, newest, v);
        let w = passes::serve(arcs, memo, f, wanted, plan, end)?;
        end = w.end;
        searches += w.searches;
    }
    Some(Inserted { end, searches })
}

// The moves for the wanted facts, none if the black ones are met: from place `at` on.
fn moves(
    arcs: &Arcs,
    newest: &[u8; 64],
    memo: &mut [u16],
    wanted: &[u16],
    plan: &mut [u16],
    at: usize,
) -> Option<Inserted>
    requires prepared { Prepared arcs.now.task.now × Wanted (task_in arcs.now.task.now) wanted.now × (at ≤ length plan.old) × (length plan.old ≤ 32768) }
    requires memo { MemoOf arcs.now memo.old }
    ensures put { Put plan.old plan.new at (moved_in arcs.now.task.now arcs.now.ever.now newest.now wanted.now) (written_in result) }
    ensures memo_2 { MemoOf arcs.now memo.new }
    ensures searched { Searched (moved_searches_in arcs.now.task.now arcs.now.ever.now newest.now wanted.now) result }
{
    if black_met(arcs.task, newest, wanted) {
        return Some(Inserted {
            end: at,
            searches: 0,
        });
    }
    let w = fill(arcs, newest, memo, wanted, &mut plan[at..])?;
    Some(Inserted {
        end: at + w.end,
        searches: w.searches,
    })
}

// The moves for action i, and the action behind them.
fn arrange(
    arcs: &Arcs,
    newest: &[u8; 64],
    memo: &mut [u16],
    i: u16,
    plan: &mut [u16],
    at: usize,
) -> Option<Inserted>
    requires prepared { Prepared arcs.now.task.now × (i < actions (task_in arcs.now.task.now)) × (at ≤ length plan.old) × (length plan.old ≤ 32768) }
    requires memo { MemoOf arcs.now memo.old }
    ensures put { Put plan.old plan.new at (steps_in arcs.now.task.now arcs.now.ever.now newest.now i) (written_in result) }
    ensures memo_2 { MemoOf arcs.now memo.new }
    ensures searched { Searched (steps_searches_in arcs.now.task.now arcs.now.ever.now newest.now i) result }
{
    let needs = task::preconditions(arcs.task, usize::from(i));
    let w = moves(arcs, newest, memo, needs, plan, at)?;
    if plan.len() <= w.end {
        return None;
    }
    plan[w.end] = i;
    Some(Inserted {
        end: w.end + 1,
        searches: w.searches,
    })
}

// The moves for the goals, at the end of the plan.
fn finish(
    arcs: &Arcs,
    newest: &[u8; 64],
    memo: &mut [u16],
    plan: &mut [u16],
    at: usize,
) -> Option<Inserted>
    requires prepared { Prepared arcs.now.task.now × (at ≤ length plan.old) × (length plan.old ≤ 32768) }
    requires memo { MemoOf arcs.now memo.old }
    ensures put { Put plan.old plan.new at (last_in arcs.now.task.now arcs.now.ever.now newest.now) (written_in result) }
    ensures memo_2 { MemoOf arcs.now memo.new }
    ensures searched { Searched (last_searches_in arcs.now.task.now arcs.now.ever.now newest.now) result }
{
    let goals = Goals::load(arcs.task);
    moves(arcs, newest, memo, goals.listed(), plan, at)
}

// The steps of the next stage, where a part of the relaxed plan is left: those for its first entry, or the moves for the goals.
pub fn stage(
    arcs: &Arcs,
    newest: &[u8; 64],
    memo: &mut [u16],
    left: &[u16],
    plan: &mut [u16],
    at: usize,
) -> Option<Inserted>
    requires prepared { Prepared arcs.now.task.now × Entries (task_in arcs.now.task.now) left.now × (at ≤ length plan.old) × (length plan.old ≤ 32768) }
    requires memo { MemoOf arcs.now memo.old }
    ensures put { Put plan.old plan.new at (stage_in arcs.now.task.now arcs.now.ever.now newest.now left.now) (written_in result) }
    ensures memo_2 { MemoOf arcs.now memo.new }
    ensures searched { Searched (stage_searches_in arcs.now.task.now arcs.now.ever.now newest.now left.now) result }
{
    match left {
        [] => finish(arcs, newest, memo, plan, at),
        [i, ..] => arrange(arcs, newest, memo, *i, plan, at),
    }
}
