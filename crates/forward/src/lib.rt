// The forward run of a loaded task and of a record. Actions go by their rank, the place in an order by cost and number that is made once;
// up to 16 variables what waits is kept in a shorter list.
#![tactic(auto)]

ghost use Rattle.std.specs.Prelude.{◌≡◌, length, OnOk};
ghost use Rattle.planning.specs.Calls.{forward_call, forward_list};
ghost use Rattle.task.specs.Task.{task_in, Loaded};
ghost use Rattle.forward_run.specs.Running.{RanOf};
ghost use Rattle.forward.specs.Answers.{found_of, forward_of, forward_in};

use answers::{Reason, Refusal};
use forward_run::Ran;

// The forward run of a loaded task, in the front of `plan`.
pub fn run_forward(task: &[u16], plan: &mut [u16; 1024]) -> Ran
    requires { Loaded task.now × (length plan.old ≡ 1024) }
    ensures { RanOf (task_in task.now) plan.new result }
{
    let mut order = [0u16; 1024];
    ranking::by_cost(task, &mut order);
    // Two lists, each in its branch, as their lengths differ: a function of the length would be longer than the two lines of either.
    if task::variables(task) <= 16 {
        let mut work = [65535u16; waiting::FEW];
        return forward_run::run_by(task, &order, &mut work, plan);
    }
    let mut work = [65535u16; waiting::ALL];
    forward_run::run_by(task, &order, &mut work, plan)
}

// What the forward run answers: its steps, and the facts that it reaches.
#[derive(Clone, Copy, Debug, PartialEq, Eq)]
pub struct Run {
    pub steps: u32,
    pub reached: u32,
}

// A refusal leaves the list to the caller.
fn forward_loaded(task: &[u16], plan: &mut [u16]) -> Result<Run, Refusal>
    requires { Loaded task.now }
    ensures answer { found_of result ≡ forward_of (task_in task.now) (length plan.old) }
    ensures list { OnOk result (plan.new ≡ forward_in (task_in task.now) (length plan.old)) }
{
    let mut run = [65535u16; 1024];
    let ran = run_forward(task, &mut run);
    let steps = ran.steps;
    let state = ran.state;
    let reached = state.reached() as u32;
    if !ran.solved {
        return Err(Refusal {
            reason: Reason::NoPlan,
            place: reached,
        });
    }
    let Err(f) = lists::lay(&run[..steps], plan) else {
        return Ok(Run {
            steps: steps as u32,
            reached,
        });
    };
    Err(f)
}

// The forward run of a record, in the plan list. `relax::relax` has the same lines: one function for both would take the closure and say
// in its clauses what either closure promises, which is longer.
pub fn forward(bytes: &[u8], plan: &mut [u16]) -> Result<Run, Refusal>
    ensures { (found_of result ≡ forward_call bytes.now (length plan.old)) × (plan.new ≡ forward_list bytes.now (length plan.old)) }
{
    let answer = loader::with_task(
        bytes,
        plan,
        &mut [],
        |task, plan, _| forward_loaded(task, plan),
    );
    let Err(f) = answer else {
        return answer;
    };
    lists::blank(plan);
    Err(f)
}
