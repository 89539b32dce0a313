// First achievers. They are noted behind the run, backwards, so that of several actions that set a fact the first one stays; initial facts
// are unset at the end.
#![tactic(auto)]

ghost use Rattle.std.specs.Prelude.{◌≡◌, ◌<◌, length, replicate};
ghost use Rattle.planning.specs.Runs.{has, initial, actions, act};
ghost use Rattle.planning.specs.Relaxed.{forward_run};
ghost use Rattle.task.specs.Task.{task_in, Loaded};
ghost use Rattle.achievers.specs.Achievers.{Noted, Setters};

// Action i in the place of each of its effects.
fn note(task: &[u16], i: usize, first: &mut [u16; 4096])
    requires { Loaded task.now × (i < actions (task_in task.now)) × (length first.old ≡ 4096) }
    ensures { Noted (has (act (task_in task.now) i).eff) i first.old first.new }
{
    for f in task::effects(task, i) {
        first[usize::from(*f)] = i as u16;
    }
}

// For each fact the first action of the run that sets it, 65,535 for none, which is what `first` holds before: an array of options would
// be twice as long (fixed memory).
pub fn note_run(task: &[u16], run: &[u16], first: &mut [u16; 4096])
    requires { Loaded task.now × (run.now ≡ forward_run (task_in task.now)) × (first.old ≡ replicate 4096 65535) }
    ensures { (length first.new ≡ 4096) × Setters (task_in task.now) (forward_run (task_in task.now)) first.new }
{
    for i in run.iter().rev() {
        note(task, usize::from(*i), first);
    }
}

// No action first reached an initial fact.
pub fn unset_initial(task: &[u16], first: &mut [u16; 4096])
    requires { Loaded task.now × (length first.old ≡ 4096) }
    ensures { Noted (initial (task_in task.now)) 65535 first.old first.new }
{
    let n = task::variables(task);
    for v in 0..n {
        first[64 * v + task::initial(task, v)] = 65535;
    }
}
