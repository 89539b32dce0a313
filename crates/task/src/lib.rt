// The loaded task: one list of numbers that states the task of an accepted record. Its readers, and the writers of its parts.
#![tactic(auto)]

ghost use Rattle.std.specs.Prelude.{◌≡◌, ◌+◌, ◌*◌, ◌<◌, ◌≤◌, length, get_or, set};
ghost use Rattle.planning.specs.Runs.{variables, actions, act, variable, count, black};
ghost use Rattle.task.specs.Task.{order_from, links_end, task_in, Heads, Loaded, States, cost_at, pre_at, eff_at, end_at};
ghost use Rattle.task.specs.Links.{head_at, next_at, order_in, linked, Unlinked, Prepared};
ghost use Rattle.task.specs.Rows.{RowWritten};
ghost use Rattle.task.specs.Goals.{option_of};

// Where parts of the list start: the order, the next actions by the fact that they set; and the row of action 0. The place of the heads
// stands in the list.
const ORDER: usize = 260;

const NEXTS: usize = 324;

pub const ACTION_ROWS: usize = 337;

// The number of variables.
pub fn variables(task: &[u16]) -> usize
    requires { Loaded task.now }
    ensures { result ≡ variables (task_in task.now) }
{
    usize::from(task[0])
}

// The number of actions.
pub fn actions(task: &[u16]) -> usize
    requires { Loaded task.now }
    ensures { result ≡ actions (task_in task.now) }
{
    usize::from(task[1])
}

// The count of values of variable v.
pub fn count(task: &[u16], v: usize) -> usize
    requires { Loaded task.now × (v < variables (task_in task.now)) }
    ensures { result ≡ count (task_in task.now) v }
{
    usize::from(task[4 * (1 + v)])
}

// Variable v is painted black.
pub fn is_black(task: &[u16], v: usize) -> bool
    requires { Loaded task.now × (v < variables (task_in task.now)) }
    ensures { result ≡ black (task_in task.now) v }
{
    usize::from(task[4 * (1 + v) + 1]) == 1
}

// The initial value of variable v.
pub fn initial(task: &[u16], v: usize) -> usize
    requires { Loaded task.now × (v < variables (task_in task.now)) }
    ensures { result ≡ (variable (task_in task.now) v).init }
{
    usize::from(task[4 * (1 + v) + 2])
}

// The goal value of variable v, if it has one.
pub fn goal_of(task: &[u16], v: usize) -> Option<u32>
    requires { Loaded task.now × (v < variables (task_in task.now)) }
    ensures { option_of result ≡ (variable (task_in task.now) v).goal }
{
    let g = task[4 * (1 + v) + 3];
    if g < 64 {
        return None;
    }
    Some(u32::from(g % 64))
}

// The cost of action i.
pub fn cost(task: &[u16], i: usize) -> usize
    requires { Loaded task.now × (i < actions (task_in task.now)) }
    ensures { result ≡ cost_at task.now i }
{
    usize::from(task[4 * (ACTION_ROWS + i)])
}

// Where the preconditions of action i start.
pub fn pre_start(task: &[u16], i: usize) -> usize
    requires { Loaded task.now × (i < actions (task_in task.now)) }
    ensures { result ≡ pre_at task.now i }
{
    usize::from(task[4 * (ACTION_ROWS + i) + 1])
}

// Where they end and its effects start.
pub fn eff_start(task: &[u16], i: usize) -> usize
    requires { Loaded task.now × (i < actions (task_in task.now)) }
    ensures { result ≡ eff_at task.now i }
{
    usize::from(task[4 * (ACTION_ROWS + i) + 2])
}

// Where its effects end.
pub fn eff_end(task: &[u16], i: usize) -> usize
    requires { Loaded task.now × (i < actions (task_in task.now)) }
    ensures { result ≡ end_at task.now i }
{
    usize::from(task[4 * (ACTION_ROWS + i) + 3])
}

// The preconditions of action i.
pub fn preconditions<'a>(task: &'a [u16], i: usize) -> &'a [u16]
    requires { Loaded task.now × (i < actions (task_in task.now)) }
    ensures { States result.now (act (task_in task.now) i).pre }
{
    &task[pre_start(task, i)..eff_start(task, i)]
}

// Its effects.
pub fn effects<'a>(task: &'a [u16], i: usize) -> &'a [u16]
    requires { Loaded task.now × (i < actions (task_in task.now)) }
    ensures { States result.now (act (task_in task.now) i).eff }
{
    &task[eff_start(task, i)..eff_end(task, i)]
}

// The first action that changes a black variable to fact f, as it was linked; 65,535 for none, as a link has 16 bits (fixed memory).
pub fn first_mover(task: &[u16], f: usize) -> usize
    requires { Loaded task.now × (f < 64 * variables (task_in task.now)) }
    ensures { result ≡ head_at task.now f }
{
    let heads = usize::from(task[3]);
    usize::from(task[heads + f])
}

// The next action that changes it to the same fact as action i, as it was linked; 65,535 for none likewise.
pub fn next_mover(task: &[u16], i: usize) -> usize
    requires { Loaded task.now × (i < 1024) }
    ensures { result ≡ next_at task.now i }
{
    usize::from(task[NEXTS + i])
}

// The number of black variables in the clients-first order.
pub fn ordered(task: &[u16]) -> usize
    requires { Prepared task.now }
    ensures { result ≡ length (order_in task.now) }
{
    usize::from(task[2])
}

// The black variable at place p of that order.
pub fn order_at(task: &[u16], p: usize) -> usize
    requires { Prepared task.now × (p < length (order_in task.now)) }
    ensures { result ≡ get_or (order_in task.now) p 0 }
{
    usize::from(task[ORDER + p])
}

// No action is linked for the first n facts.
pub fn unlink(task: &mut [u16], n: usize)
    requires { Heads n task.old }
    ensures { Unlinked n task.old task.new }
{
    let heads = usize::from(task[3]);
    task[heads..heads + n].fill(65535);
}

// Action i in front of the chain of fact f.
pub fn link(task: &mut [u16], f: usize, i: usize)
    requires { Heads (f + 1) task.old × (i < 1024) }
    ensures { task.new ≡ linked f i task.old }
{
    let heads = usize::from(task[3]);
    task[NEXTS + i] = task[heads + f];
    task[heads + f] = i as u16;
}

// Variable v at place k of the order.
pub fn set_order(task: &mut [u16], k: usize, v: usize)
    requires { (k < 64) × (v < 64) × (links_end ≤ length task.old) }
    ensures { task.new ≡ set task.old (order_from + k) v }
{
    task[ORDER + k] = v as u16;
}

// The order has n variables.
pub fn end_order(task: &mut [u16], n: usize)
    requires { (n ≤ 64) × (links_end ≤ length task.old) }
    ensures { task.new ≡ set task.old 2 n }
{
    task[2] = n as u16;
}

// Row r.
pub fn write_row(task: &mut [u16], r: usize, a: u16, b: u16, c: u16, d: u16)
    requires { (4 * r + 4 ≤ length task.old) × (r ≤ 20000) }
    ensures { RowWritten r a b c d task.old task.new }
{
    task[4 * r] = a;
    task[4 * r + 1] = b;
    task[4 * r + 2] = c;
    task[4 * r + 3] = d;
}
