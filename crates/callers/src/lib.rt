// A caller's relaxed plan: its relaxed run, and checks 13 and 9, of which the second is where that run stops. Judging takes the same run
// from where the red-black one stops.
#![tactic(auto)]

ghost use Rattle.std.specs.Prelude.{◌≡◌, ◌≤◌, length};
ghost use Rattle.planning.specs.Basics.{answer};
ghost use Rattle.planning.specs.Runs.{relaxed, judged};
ghost use Rattle.answers.specs.Answers.{value_of};
ghost use Rattle.task.specs.Task.{task_in, Loaded};
ghost use Rattle.sets.specs.Sets.{sets_of};
ghost use Rattle.entries.specs.Entries.{Ready};
ghost use Rattle.callers.specs.Answers.{judged_of};
ghost use Rattle.callers.specs.Callers.{caller_check, judged_at, Relaxes};

use answers::{Reason, Refusal};
use applying::Holding;
use state::{Goals, State};

// Under one semantics (3.11): how many steps run, and whether the list is a plan.
#[derive(Clone, Copy)]
pub struct Verdict {
    pub steps: u32,
    pub plan: bool,
}

// The verdict on a list of which `steps` steps run, by the state behind them: it is a plan if these are all and the goals are held there.
pub fn judge_at<S: Holding>(task: &[u16], list: &[u16], state: &S, steps: usize) -> Verdict
    requires { Ready task.now list.now × (steps ≤ length list.now) }
    ensures { judged_of result ≡ judged_at (task_in task.now) list.now (S.state state.now) steps }
{
    if steps < list.len() {
        return Verdict {
            steps: steps as u32,
            plan: false,
        };
    }
    let goals = Goals::load(task);
    let held = applying::all_hold(state, goals.listed());
    Verdict {
        steps: steps as u32,
        plan: held,
    }
}

// The relaxed run from the state behind the first `from` steps, which run. An action whose effects are held adds nothing to the sets; newest
// values are not asked for here.
pub fn judge_relaxed(task: &[u16], list: &[u16], start: State, from: usize) -> Verdict
    requires { Ready task.now list.now × Relaxes (task_in task.now) list.now (sets_of start.sets) from }
    ensures { judged_of result ≡ judged (task_in task.now) relaxed list.now }
{
    let mut s = start;
    // By index: k is the step, for which the proof has no name where an iterator skips the first ones.
    for k in from..list.len() {
        let i = usize::from(list[k]);
        if !applying::applies(&s.sets, task, i) {
            return judge_at(task, list, &s.sets, k);
        }
        if applying::has_effects(&s.sets, task, i) {
            continue;
        }
        s = s.step(task, i);
    }
    judge_at(task, list, &s.sets, list.len())
}

// A caller's relaxed plan: 13, then 9. Its entries run up to the first that is not below A.
pub fn check_relaxed(task: &[u16], list: &[u16]) -> Result<u32, Refusal>
    requires { Loaded task.now }
    ensures { value_of result ≡ answer (caller_check (task_in task.now) list.now) (length list.now) }
{
    if 32768 < list.len() {
        return Err(Refusal {
            reason: Reason::Length,
            place: 32768,
        });
    }
    let n = entries::leading(list, task::actions(task));
    let v = judge_relaxed(task, &list[..n], State::initial(task), 0);
    if v.plan && n == list.len() {
        return Ok(n as u32);
    }
    Err(Refusal {
        reason: Reason::Entry,
        place: v.steps,
    })
}
