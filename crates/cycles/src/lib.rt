// Check 7: the lowest variable on a cycle of the black causal graph. With ways through ever more variables allowed, one is on a cycle exactly
// if it has a way to itself.
#![tactic(auto)]

ghost use Rattle.std.specs.Prelude.{◌≡◌, ◌||◌, ◌&&◌, ◌<◌, ◌≤◌};
ghost use Rattle.planning.specs.Basics.{first};
ghost use Rattle.planning.specs.Painting.{black_arc, cyclic};
ghost use Rattle.task.specs.Task.{task_in, Loaded};
ghost use Rattle.sets.specs.Sets.{in_set, sets_of, mode_of};
ghost use Rattle.task.specs.Goals.{option_of};
ghost use Rattle.graph.specs.Graph.{Rows};
ghost use Rattle.cycles.specs.Cycles.{through, via, StartBelow};

// A row with what `onward`, the row of k, leads to, if it leads to k.
fn extended(row: u64, k: usize, onward: u64) -> u64
    requires { k < 64 }
    ensures { mode_of result ≡ (λ v. in_set row v || (in_set row k && in_set onward v)) }
{
    if sets::member(row, k) {
        row | onward
    } else {
        row
    }
}

// Ways through k.
fn join_at(rows: &mut [u64; 64], n: usize, k: usize)
    requires { (n ≤ 64) × (k < n) × StartBelow n (sets_of rows.old) }
    ensures { Rows rows.new (through k (sets_of rows.old)) }
{
    let onward = rows[k];
    for u in 0..n {
        rows[u] = extended(rows[u], k, onward);
    }
}

// The ways along arcs: through no variable, then through 0, then through 0 and 1, until all are allowed.
fn closure(mut rows: [u64; 64], n: usize) -> [u64; 64]
    requires { (n ≤ 64) × StartBelow n (sets_of rows) }
    ensures { sets_of result ≡ via (sets_of rows) n }
{
    for k in 0..n {
        join_at(&mut rows, n, k);
    }
    rows
}

// The lowest variable below n with a way to itself.
fn lowest_on_cycle(rows: &[u64; 64], n: usize) -> Option<usize>
    requires { n ≤ 64 }
    ensures { option_of result ≡ first n (λ v. sets_of rows.now v v) }
{
    (0..n).find(|v| sets::member(rows[*v], *v))
}

// Check 7: the lowest black variable on a cycle.
pub fn cycle(task: &[u16], rows: [u64; 64]) -> Option<usize>
    requires { Loaded task.now × (sets_of rows ≡ black_arc (task_in task.now)) }
    ensures { option_of result ≡ cyclic (task_in task.now) }
{
    let n = task::variables(task);
    let ways = closure(rows, n);
    lowest_on_cycle(&ways, n)
}
