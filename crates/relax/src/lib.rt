// The relaxed plan of a loaded task, from its forward run, the first achievers and the way back; the call for a record. The plan stands
// where the run stood.
#![tactic(auto)]

ghost use Rattle.std.specs.Prelude.{◌≡◌, length, replicate, OnOk};
ghost use Rattle.planning.specs.Calls.{relax_call, relax_list};
ghost use Rattle.answers.specs.Answers.{value_of};
ghost use Rattle.task.specs.Task.{task_in, Loaded};
ghost use Rattle.achievers.specs.Achievers.{Replay};
ghost use Rattle.relax.specs.Kept.{Front, KeptOf};
ghost use Rattle.relax.specs.Answers.{relax_of, relax_in};

use answers::{Reason, Refusal};
use state::Goals;

// The relaxed plan in the front of `plan`, where the forward run stands before: one list for both (fixed memory). `first` holds 65,535
// before.
fn keep_run(task: &[u16], first: &mut [u16; 4096], n: usize, plan: &mut [u16; 1024]) -> u32
    requires { Replay task.now plan.old n × (first.old ≡ replicate 4096 65535) }
    ensures { Front (task_in task.now) plan.new result }
{
    achievers::note_run(task, &plan[..n], first);
    achievers::unset_initial(task, first);
    let found = Goals::load(task);
    let goals = found.listed();
    let m = extraction::keep_back(task, first, n, goals, plan);
    plan.copy_within(m.., 0);
    (1024 - m) as u32
}

// The relaxed plan of a loaded task, in the front of `plan`: its steps, or that there is none.
pub fn relaxed_plan(task: &[u16], plan: &mut [u16; 1024]) -> Result<u32, Refusal>
    requires { Loaded task.now × (length plan.old ≡ 1024) }
    ensures { KeptOf (task_in task.now) plan.new result }
{
    let mut first = [65535u16; 4096];
    let ran = forward::run_forward(task, plan);
    let steps = ran.steps;
    let state = ran.state;
    if !ran.solved {
        let reached = state.reached() as u32;
        return Err(Refusal {
            reason: Reason::NoPlan,
            place: reached,
        });
    }
    Ok(keep_run(task, &mut first, steps, plan))
}

// A refusal leaves the list to the caller.
fn relax_loaded(task: &[u16], plan: &mut [u16]) -> Result<u32, Refusal>
    requires { Loaded task.now }
    ensures answer { value_of result ≡ relax_of (task_in task.now) (length plan.old) }
    ensures list { OnOk result (plan.new ≡ relax_in (task_in task.now) (length plan.old)) }
{
    let mut found = [65535u16; 1024];
    let n = relaxed_plan(task, &mut found)?;
    let Err(f) = lists::lay(&found[..n as usize], plan) else {
        return Ok(n);
    };
    Err(f)
}

// The relaxed plan of a record, in the plan list.
pub fn relax(bytes: &[u8], plan: &mut [u16]) -> Result<u32, Refusal>
    ensures { (value_of result ≡ relax_call bytes.now (length plan.old)) × (plan.new ≡ relax_list bytes.now (length plan.old)) }
{
    let answer = loader::with_task(
        bytes,
        plan,
        &mut [],
        |task, plan, _| relax_loaded(task, plan),
    );
    let Err(f) = answer else {
        return answer;
    };
    lists::blank(plan);
    Err(f)
}
