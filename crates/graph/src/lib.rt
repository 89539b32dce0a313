// The black causal graph as 64 sets, one a variable: bit v of row u is the arc from u to v.
#![tactic(auto)]

ghost use Rattle.std.specs.Prelude.{◌≡◌, ◌||◌, ◌&&◌, not, ℕ, ◌/◌, ◌%◌, ◌<◌, eqb};
ghost use Rattle.planning.specs.Runs.{has, touches, actions, act, black};
ghost use Rattle.planning.specs.Painting.{reduced_effects, black_arc};
ghost use Rattle.task.specs.Task.{facts_of, task_in, AllFacts, Loaded};
ghost use Rattle.sets.specs.Sets.{in_set, sets_of, mode_of};
ghost use Rattle.graph.specs.Graph.{Rows, with_action};

// Effect f of action i is of a black variable and not among its preconditions.
pub fn changes(task: &[u16], i: usize, f: usize, paint: u64) -> bool
    requires { Loaded task.now × (i < actions (task_in task.now)) × (f < 4096) }
    ensures { result ≡ (in_set paint (f / 64) && not (has (act (task_in task.now) i).pre (f / 64) (f % 64))) }
{
    sets::member(paint, f / 64) && !sets::needs_fact(task, i, f)
}

// The black variables that action i changes, as a set: those of its reduced effects.
fn changed(task: &[u16], i: usize, paint: u64) -> u64
    requires { Loaded task.now × (i < actions (task_in task.now)) }
    ensures { (v : ℕ) → in_set result v ≡ (in_set paint v && touches (reduced_effects (act (task_in task.now) i)) v) }
{
    let effects = task::effects(task, i);
    let mut set: u64 = 0;
    for f in effects {
        let f = usize::from(*f);
        if changes(task, i, f, paint) {
            set |= sets::single(f / 64);
        }
    }
    set
}

// Row u with arcs to the variables of `targets`, if u is black; none to u itself.
fn joined(row: u64, targets: u64, u: usize, paint: u64) -> u64
    requires { u < 64 }
    ensures { mode_of result ≡ (λ v. in_set row v || ((in_set paint u && not (eqb u v)) && in_set targets v)) }
{
    if sets::member(paint, u) {
        let own = sets::single(u);
        row | ((targets | own) ^ own)
    } else {
        row
    }
}

// Arcs from each black variable of the facts.
fn add_arcs(rows: &mut [u64; 64], facts: &[u16], targets: u64, paint: u64)
    requires { AllFacts facts.now }
    ensures { Rows rows.new (λ u v. sets_of rows.old u v || (touches (facts_of facts.now) u && ((in_set paint u && not (eqb u v)) && in_set targets v))) }
{
    for f in facts {
        let u = usize::from(*f) / 64;
        rows[u] = joined(rows[u], targets, u, paint);
    }
}

// The arcs of action i: from the black variables that it mentions to those that it changes.
fn add_action(rows: &mut [u64; 64], task: &[u16], i: usize, paint: u64)
    requires { Loaded task.now × (i < actions (task_in task.now)) }
    ensures { Rows rows.new (with_action (mode_of paint) (act (task_in task.now) i) (sets_of rows.old)) }
{
    let targets = changed(task, i, paint);
    if targets == 0 {
        return;
    }
    add_arcs(rows, task::preconditions(task, i), targets, paint);
    add_arcs(rows, task::effects(task, i), targets, paint);
}

// The black causal graph; `paint` are the black variables.
pub fn graph(task: &[u16], paint: u64) -> [u64; 64]
    requires { Loaded task.now × (mode_of paint ≡ black (task_in task.now)) }
    ensures { sets_of result ≡ black_arc (task_in task.now) }
{
    let n = task::actions(task);
    let mut rows = [0u64; 64];
    for i in 0..n {
        add_action(&mut rows, task, i, paint);
    }
    rows
}
