// The repair of a relaxed plan: one loop that places the next stage where every step placed is taken, and else takes and counts the next
// step. Stages only append, so as soon as one does not fit, the whole plan does not.
#![tactic(auto)]

ghost use Rattle.std.specs.Prelude.{◌≡◌, ◌≤◌, length};
ghost use Rattle.task.specs.Task.{task_in};
ghost use Rattle.repair.specs.Answers.{room_in, Held};
ghost use Rattle.repair.specs.Repairs.{Repairable, EmptyMemo};

use answers::{Plan, Refusal};
use counts::Counts;
use search::Arcs;
use state::State;

// A plan, or why there is none.
type Planned = Result<Plan, Refusal>;

// The repair from the initial state in one pass: where every step placed is taken the next stage is placed behind them, else the next
// step is taken. Where the effects of its action are held the next states have the same sets, and plain steps behind it are taken too.
fn walk(task: &[u16], list: &[u16], plan: &mut [u16], marks: &mut [u8], memo: &mut [u16]) -> Planned
    requires { Repairable task.now list.now × (length plan.old ≤ 32768) × (length marks.old ≡ length plan.old) × EmptyMemo (task_in task.now) memo.old }
    ensures { Held (task_in task.now) list.now plan.new marks.new (length plan.old) result }
{
    let needs = paths::needs(task);
    let mut s = State::initial(task);
    let mut plain = [0u64; 16];
    let mut c = Counts::default();
    let mut searched: usize = 0;
    let mut at: usize = 0;
    let mut j: usize = 0;
    // Stages and steps are taken in turn, so that no range tells the turns.
    while c.steps < at || j <= list.len() {
        let ever = &s.sets;
        let arcs = Arcs { task, ever };
        if c.steps == at {
            let Some(w) = stages::stage(&arcs, &s.newest.values, memo, &list[j..], plan, at) else {
                return Err(counts::too_long(plan.len()));
            };
            counts::mark(&mut marks[at..w.end], j < list.len());
            at = w.end;
            searched += w.searches;
            j += 1;
            continue;
        }
        let i = usize::from(plan[c.steps]);
        if counts::effects_held(task, &s.sets, i, &mut plain) {
            let g = counts::glide(task, s.newest, &plan[..at], c, &plain);
            s.newest = g.newest;
            c = g.counts;
            continue;
        }
        c = counts::counted(task, &s.newest.values, i, c);
        leads::refresh(&arcs, memo, i, needs);
        s = s.step(task, i);
    }
    Ok(counts::verdict(task, &s.newest.values, c, searched))
}

// The same with a memo of its own, which is small where no variable has many values: two lengths in two lines each, as in `forward`.
fn repair_in(task: &[u16], list: &[u16], plan: &mut [u16], marks: &mut [u8]) -> Planned
    requires { Repairable task.now list.now × (length plan.old ≤ 32768) × (length marks.old ≡ length plan.old) }
    ensures { Held (task_in task.now) list.now plan.new marks.new (length plan.old) result }
{
    if paths::has_few_values(task) {
        let mut small = [0u16; paths::SMALL];
        return walk(task, list, plan, marks, &mut small);
    }
    let mut large = [0u16; paths::LARGE];
    walk(task, list, plan, marks, &mut large)
}

// The repair of a relaxed plan, in the front of the plan list: its steps, its cost, those that run for real, and whether it is a plan in a
// real run, with its marks in the front of the mark area; 11 if it is longer than the capacity.
pub fn repair(
    task: &[u16],
    relaxed: &[u16],
    plan: &mut [u16],
    work: &[u16],
    marks: &mut [u8],
) -> Planned
    requires { Repairable task.now relaxed.now }
    ensures { Held (task_in task.now) relaxed.now plan.new marks.new (room_in plan.old work.now marks.old) result }
{
    let room = lists::capacity(plan.len().min(work.len()).min(marks.len()));
    repair_in(task, relaxed, &mut plan[..room], &mut marks[..room])
}
