// The one pass over a list, red-black: it tells the real run as well, by the newest values.
#![tactic(auto)]

ghost use Rattle.task.specs.Task.{task_in};
ghost use Rattle.entries.specs.Entries.{Ready};
ghost use Rattle.execution.specs.Traces.{Traces};

use applying::RedBlack;
use state::State;

// Where the red-black run of a list stops: the black variables, the values held and the newest ones there, how many steps run, and how many
// run for real.
#[derive(Clone, Copy)]
pub struct Trace {
    pub paint: u64,
    pub state: State,
    pub steps: usize,
    pub runs: usize,
}

// As long as every step ran for real the newest values are the real state, so that one pass tells both runs. Where an action's effects are
// held the next state has the same sets.
pub fn follow(task: &[u16], list: &[u16]) -> Trace
    requires { Ready task.now list.now }
    ensures { Traces (task_in task.now) list.now result }
{
    let paint = sets::painted(task);
    let mut s = State::initial(task);
    let mut known = [0u64; 16];
    let mut runs = 0;
    for (k, i) in list.iter().enumerate() {
        let i = usize::from(*i);
        runs = applying::further(&s.newest.values, task, i, runs, k);
        let shown = RedBlack {
            paint,
            sets: &s.sets,
            newest: &s.newest.values,
        };
        if runs <= k && !applying::applies(&shown, task, i) {
            return Trace {
                paint,
                state: s,
                steps: k,
                runs,
            };
        }
        if applying::knows_effects(&s.sets, task, i, &mut known) {
            let old = s.newest;
            let newest = old.step(task, i);
            s.newest = newest;
            continue;
        }
        s = s.step(task, i);
    }
    Trace {
        paint,
        state: s,
        steps: list.len(),
        runs,
    }
}
