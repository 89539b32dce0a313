// The clients-first order of the black variables, written into the loaded task: the lowest one next whose row leads to none of those left.
#![tactic(auto)]

ghost use Rattle.std.specs.Prelude.{◌≡◌, ◌&&◌, not, ◌<◌, ◌≤◌};
ghost use Rattle.planning.specs.Basics.{some_below, first};
ghost use Rattle.planning.specs.Runs.{black};
ghost use Rattle.planning.specs.Painting.{black_arc};
ghost use Rattle.task.specs.Task.{task_in, Loaded};
ghost use Rattle.sets.specs.Sets.{in_set, sets_of, mode_of};
ghost use Rattle.task.specs.Goals.{option_of};
ghost use Rattle.clients_first.specs.Order.{Filled, Ordered};

// Variable v is of `left`, and its row leads to none of them.
fn is_ready(row: u64, left: u64, v: usize) -> bool
    requires { v < 64 }
    ensures { result ≡ (in_set left v && not (some_below 64 (λ u. in_set left u && in_set row u))) }
{
    sets::member(left, v) && row & left == 0
}

// The lowest variable of `left` with no arc to another of them.
fn lowest_ready(rows: &[u64; 64], left: u64, n: usize) -> Option<usize>
    requires { n ≤ 64 }
    ensures { option_of result ≡ first n (λ v. in_set left v && not (some_below 64 (λ u. in_set left u && sets_of rows.now v u))) }
{
    (0..n).find(|v| is_ready(rows[*v], left, *v))
}

// The black variables in the places of the order, clients first. The answer is their number.
fn fill_order(task: &mut [u16], rows: &[u64; 64], paint: u64) -> usize
    requires { Loaded task.old × (sets_of rows.now ≡ black_arc (task_in task.old)) × (mode_of paint ≡ black (task_in task.old)) }
    ensures { Filled result task.old task.new }
{
    let n = task::variables(task);
    let mut left = paint;
    for k in 0..n {
        let Some(v) = lowest_ready(rows, left, n) else {
            return k;
        };
        task::set_order(task, k, v);
        left ^= sets::single(v);
    }
    n
}

// The clients-first order of the black variables.
pub fn write_order(task: &mut [u16], rows: &[u64; 64], paint: u64)
    requires { Loaded task.old × (sets_of rows.now ≡ black_arc (task_in task.old)) × (mode_of paint ≡ black (task_in task.old)) }
    ensures { Ordered task.old task.new }
{
    let n = fill_order(task, rows, paint);
    task::end_order(task, n);
}
