// The check of a painting, 7 then 8, and what it leaves in the loaded task: the chains of actions by their moves,
// and the clients-first order. Once the black causal graph has no cycle, an action changes one black variable at most; its move is the fact to
// which it does. The return of an arc is looked for in the chain of the move that it has to be, with what the first action allows marked.
#![tactic(auto)]

ghost use Rattle.std.specs.Prelude.{◌≡◌, IfSome, ◌+◌, ◌*◌, ◌<◌, ◌≤◌};
ghost use Rattle.planning.specs.Basics.{refuse_at};
ghost use Rattle.planning.specs.Runs.{variables, actions, act};
ghost use Rattle.planning.specs.Painting.{reduced_effects, black_arc, unreturned};
ghost use Rattle.answers.specs.Answers.{number_of, check_of};
ghost use Rattle.task.specs.Task.{task_in, Loaded};
ghost use Rattle.task.specs.Links.{Chained};
ghost use Rattle.task.specs.Goals.{option_of};
ghost use Rattle.sets.specs.Sets.{mode_of, sets_of};
ghost use Rattle.lacking.specs.Lacking.{Unmarked, Ready};
ghost use Rattle.painting.specs.Chains.{move_of, linked_move, Acyclic, Linked};
ghost use Rattle.painting.specs.Answers.{lacks, Readied};

use answers::{Reason, Refusal};
use lacking::{KEPT, Memory};
use returns::{Last, NO_ACTION};

// The move of action i, the first black fact that it sets and does not need.
fn move_of(task: &[u16], i: usize, paint: u64) -> Option<usize>
    requires { Loaded task.now × (i < actions (task_in task.now)) }
    ensures { result ≡ move_of (mode_of paint) (reduced_effects (act (task_in task.now) i)) }
{
    let effects = task::effects(task, i);
    for f in effects {
        let f = usize::from(*f);
        if graph::changes(task, i, f, paint) {
            return Some(f);
        }
    }
    None
}

// Action i in front of the chain of its move, if it has one.
fn link(task: &mut [u16], i: usize, paint: u64)
    requires { Loaded task.old × (i < actions (task_in task.old)) }
    ensures { task.new ≡ linked_move (move_of (mode_of paint) (reduced_effects (act (task_in task.old) i))) i task.old }
{
    if let Some(f) = move_of(task, i, paint) {
        task::link(task, f, i);
    }
}

// The chains, from the last action to the first, so that each rises.
fn link_all(task: &mut [u16], paint: u64)
    requires { Acyclic task.old paint }
    ensures { Linked task.old task.new }
{
    let m = task::actions(task);
    let n = task::variables(task);
    task::unlink(task, 64 * n);
    for i in (0..m).rev() {
        link(task, i, paint);
    }
}

// Action i has an arc that lacks its return.
fn is_lacking(task: &[u16], paint: u64, i: usize, marks: &mut [u16], memory: &mut Memory) -> bool
    requires { Acyclic task.now paint × Chained (task_in task.now) task.now × (i < actions (task_in task.now)) × Ready (task_in task.now) (2 * i) marks.old memory.old.kept }
    ensures answer { result ≡ lacks (task_in task.now) i }
    ensures ready { Ready (task_in task.now) (2 * i + 2) marks.new memory.new.kept }
{
    let Some(f) = move_of(task, i, paint) else {
        return false;
    };
    let facts = &task[task::pre_start(task, i)..task::eff_end(task, i)];
    returns::mark(facts, Some(f), (2 * i) as u16, marks);
    lacking::lacks_marked(task, marks, i, f, memory)
}

// The lowest action with an arc that lacks its return; no fact is marked yet.
fn lowest_by(task: &[u16], paint: u64, marks: &mut [u16]) -> Option<usize>
    requires { Acyclic task.now paint × Chained (task_in task.now) task.now × Unmarked (task_in task.now) 0 marks.old }
    ensures { option_of result ≡ unreturned (task_in task.now) }
{
    let n = task::actions(task);
    let mut memory = Memory {
        kept: [None; KEPT],
        last: Last {
            served: [NO_ACTION; 1024],
            place: 0,
            tries: 32,
        },
    };
    for i in 0..n {
        if is_lacking(task, paint, i, marks, &mut memory) {
            return Some(i);
        }
    }
    None
}

// The same with room for N marks.
fn lowest_in<const N: usize>(task: &[u16], paint: u64) -> Option<usize>
    requires { Acyclic task.now paint × Chained (task_in task.now) task.now × (64 * variables (task_in task.now) ≤ N) × (N ≤ 4096) }
    ensures { option_of result ≡ unreturned (task_in task.now) }
{
    // 65,535: no mark. An Option for each doubles what is cleared, and was slower for the actions that served
    let mut marks = [65535u16; N];
    lowest_by(task, paint, &mut marks)
}

// Check 8. A task of few variables needs few marks, so that little has to be cleared.
fn lowest_lacking(task: &[u16], paint: u64) -> Option<usize>
    requires { Acyclic task.now paint × Chained (task_in task.now) task.now }
    ensures { option_of result ≡ unreturned (task_in task.now) }
{
    if task::variables(task) <= 16 {
        return lowest_in::<1024>(task, paint);
    }
    lowest_in::<4096>(task, paint)
}

// What was found is refused with its place.
fn refused_at(reason: Reason, found: Option<usize>) -> Result<(), Refusal>
    requires { IfSome found (λ p. p < 65536) }
    ensures { check_of result ≡ refuse_at (number_of reason) (option_of found) }
{
    let Some(place) = found else {
        return Ok(());
    };
    Err(Refusal {
        reason,
        place: place as u32,
    })
}

// Check 8 of a task of which 7 passes, with its chains and its order.
fn prepare_acyclic(task: &mut [u16], rows: &[u64; 64], paint: u64) -> Result<(), Refusal>
    requires { Acyclic task.old paint × (sets_of rows.now ≡ black_arc (task_in task.old)) }
    ensures { Readied task.old result task.new }
{
    link_all(task, paint);
    clients_first::write_order(task, rows, paint);
    refused_at(Reason::NoReturn, lowest_lacking(task, paint))
}

// The check of a painting: 7, then 8. Where both pass, the task has its chains and its order.
pub fn prepare(task: &mut [u16]) -> Result<(), Refusal>
    requires { Loaded task.old }
    ensures { Readied task.old result task.new }
{
    let paint = sets::painted(task);
    let rows = graph::graph(task, paint);
    refused_at(Reason::Cycle, cycles::cycle(task, rows))?;
    prepare_acyclic(task, &rows, paint)
}
