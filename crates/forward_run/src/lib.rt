// The forward run by an order of the actions. Its cost grows with the work and not with actions × steps: an action is looked at again only
// when the precondition that it waits for is reached.
#![tactic(auto)]

ghost use Rattle.std.specs.Prelude.{◌≡◌, length};
ghost use Rattle.task.specs.Task.{task_in, Loaded};
ghost use Rattle.waiting.specs.Waiting.{Free, ByCost};
ghost use Rattle.forward_run.specs.Running.{RanOf};

use state::{Goals, Relaxed};
use waiting::Waits;

// What a forward run comes to: its steps, whether it reaches the goals, its last state. The steps and the state stand either way, as a
// refusal counts the facts of the state: no Option or Result would say more.
#[derive(Clone, Copy)]
pub struct Ran {
    pub steps: usize,
    pub solved: bool,
    pub state: Relaxed,
}

// The forward run by an order of the actions by cost: those that it takes in the front of `plan`. What waits for the effects of the action
// taken last wakes in the turn after it: a step that ends a turn copies the state twice, any other three times.
pub fn run_by(task: &[u16], order: &[u16; 1024], work: &mut [u16], plan: &mut [u16; 1024]) -> Ran
    requires { Loaded task.now × ByCost task.now order.now × Free task.now work.old × (length plan.old ≡ 1024) }
    ensures { RanOf (task_in task.now) plan.new result }
{
    let found = Goals::load(task);
    let goals = found.listed();
    let mut s = Relaxed::initial(task);
    let mut waits = Waits {
        order,
        ready: [0; ready::SETS],
    };
    waits.settle_each(&s.sets, task, work);
    let mut steps: usize = 0;
    let mut g: usize = 0;
    let mut reached: &[u16] = &[];
    // What the state says ends the turns: no range tells them.
    let solved = loop {
        waits.wake(&s.sets, task, work, reached);
        reached = &[];
        g = waiting::unmet(&s.sets, goals, g);
        if g == goals.len() {
            break true;
        }
        let Some(rank) = ready::lowest(&waits.ready) else {
            break false;
        };
        ready::unmark(&mut waits.ready, rank);
        let i = usize::from(order[rank]);
        if !applying::has_effects(&s.sets, task, i) {
            plan[steps] = i as u16;
            steps += 1;
            reached = task::effects(task, i);
            s = s.step(task, i);
        }
    };
    Ran {
        steps,
        solved,
        state: s,
    }
}
