// When the leads of paths stay: an action that sets no new fact of a variable on which a move depends makes no move usable, and before
// any other the leads are forgotten.
#![tactic(auto)]

ghost use Rattle.std.specs.Prelude.{◌≡◌, not, ◌&&◌, ◌/◌, ◌%◌, ◌<◌, ◌≤◌, length};
ghost use Rattle.planning.specs.Runs.{relaxed, step, actions, act};
ghost use Rattle.planning.specs.Repair.{black_met};
ghost use Rattle.task.specs.Task.{task_in, Loaded};
ghost use Rattle.sets.specs.Sets.{sets_of, mode_of};
ghost use Rattle.paths.specs.Paths.{Memo, MemoOf, Covers};
ghost use Rattle.leads.specs.Leads.{Blank};

use search::Arcs;

// The memo with no slot marked.
pub fn forget(memo: &mut [u16])
    requires { 64 ≤ length memo.old }
    ensures { Blank memo.new }
{
    memo[..64].fill(0);
}

// Fact f has its variable in the set and is not held.
fn unheld(set: u64, sets: &[u64; 64], f: usize) -> bool
    requires { f < 4096 }
    ensures { result ≡ (mode_of set (f / 64) && not (sets_of sets.now (f / 64) (f % 64))) }
{
    sets::member(set, f / 64) && !sets::holds(sets, f)
}

// Action i sets no new fact of a variable of the set.
fn adds_none(arcs: &Arcs, i: usize, set: u64) -> bool
    requires { Loaded arcs.now.task.now × (i < actions (task_in arcs.now.task.now)) }
    ensures { result ≡ black_met (mode_of set) (sets_of arcs.now.ever.now) (act (task_in arcs.now.task.now) i).eff }
{
    for f in task::effects(arcs.task, i) {
        if unheld(set, arcs.ever, usize::from(*f)) {
            return false;
        }
    }
    true
}

// Before action i is applied to the facts held ever: the leads are forgotten if a move may become usable by it.
pub fn refresh(arcs: &Arcs, memo: &mut [u16], i: usize, needs: u64)
    requires loaded { Loaded arcs.now.task.now × (i < actions (task_in arcs.now.task.now)) × Covers (task_in arcs.now.task.now) (actions (task_in arcs.now.task.now)) needs }
    requires memo { MemoOf arcs.now memo.old }
    ensures { Memo (task_in arcs.now.task.now) (step relaxed (act (task_in arcs.now.task.now) i) (sets_of arcs.now.ever.now)) memo.new }
{
    if !adds_none(arcs, i, needs) {
        forget(memo);
    }
}
