// The way back over the forward run: an action is kept if it first reached a needed fact, and its preconditions are needed then. The
// actions that first reached a needed fact are the wanted ones, a set.
#![tactic(auto)]

ghost use Rattle.std.specs.Prelude.{◌≡◌, ◌≤◌, eqb, length, drop};
ghost use Rattle.planning.specs.Runs.{goals};
ghost use Rattle.planning.specs.Relaxed.{forward_run, relaxed_plan};
ghost use Rattle.task.specs.Task.{facts_of, task_in, AllFacts, States};
ghost use Rattle.achievers.specs.Achievers.{Achieved, Replay};
ghost use Rattle.extraction.specs.Keeping.{wants, by_of, Joined};

// Action a joins the set; 65,535, which stands for none in the list of first achievers, does not.
fn add(wanted: &mut [u64; 16], a: usize)
    requires { length wanted.old ≡ 16 }
    ensures { Joined (λ i. eqb i a) wanted.old wanted.new }
{
    if a < 1024 {
        wanted[a / 64] |= sets::single(a % 64);
    }
}

// The first achievers of the facts join the set.
fn want(wanted: &mut [u64; 16], first: &[u16; 4096], facts: &[u16])
    requires { AllFacts facts.now × (length wanted.old ≡ 16) }
    ensures { Joined (wants (by_of first.now) (facts_of facts.now)) wanted.old wanted.new }
{
    for f in facts {
        add(wanted, usize::from(first[usize::from(*f)]));
    }
}

// The kept actions of the run, which stands in the front of `plan`, in their old order, in the same list from the answer on: they come
// from its end, and no place is written before it is read: one list for both (fixed memory). The facts are the goals.
pub fn keep_back(
    task: &[u16],
    first: &[u16; 4096],
    n: usize,
    facts: &[u16],
    plan: &mut [u16; 1024],
) -> usize
    requires replay { Replay task.now plan.old n × Achieved (task_in task.now) (forward_run (task_in task.now)) first.now }
    requires facts { States facts.now (goals (task_in task.now)) }
    ensures { (result ≤ 1024) × (length plan.new ≡ 1024) × (drop result plan.new ≡ relaxed_plan (task_in task.now)) }
{
    let mut wanted = [0u64; 16];
    want(&mut wanted, first, facts);
    let mut m: usize = 1024;
    for k in (0..n).rev() {
        let i = plan[k];
        if sets::is_listed(&wanted, usize::from(i)) {
            m -= 1;
            plan[m] = i;
            let needed = task::preconditions(task, usize::from(i));
            want(&mut wanted, first, needed);
        }
    }
    m
}
