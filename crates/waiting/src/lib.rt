// What waits. An action that does not apply hangs on the chain of one of its preconditions that is not reached, and is looked at again,
// from that one on, when the fact is reached. Actions go by their rank, the place in an order by cost and number that is made once.
#![tactic(auto)]

ghost use Rattle.std.specs.Prelude.{◌≡◌, [], ℕ, ◌+◌, ◌<◌, ◌≤◌, length, get_or, replicate};
ghost use Rattle.planning.specs.Runs.{has, actions};
ghost use Rattle.task.specs.Task.{facts_of, task_in, Loaded};
ghost use Rattle.sets.specs.Sets.{sets_of};
ghost use Rattle.ready.specs.Ready.{Ready};
ghost use Rattle.waiting.specs.Waiting.{Unmet, hung, place_at, Looked, Settles, Sites, Settled, Headed, Room, Free, ByCost};

// The first place from `from` on whose fact is not in the state; the one behind them all if each is. `position` over the rest would need
// both ends added to its answer: no plainer.
pub fn unmet(sets: &[u64; 64], facts: &[u16], from: usize) -> usize
    requires { (from ≤ length facts.now) × ((k : ℕ) → from ≤ k → k < length facts.now → get_or facts.now k 0 < 4096) }
    ensures { Unmet (sets_of sets.now) facts.now from (length facts.now) result }
{
    for k in from..facts.len() {
        if !sets::holds(sets, usize::from(facts[k])) {
            return k;
        }
    }
    facts.len()
}

// What waits, by rank: each action's next on its chain; from PLACE on the place of the precondition that it waits for; from HEAD on for
// each fact the head of its chain of actions. 65,535 ends a chain, as an array of options would be twice as long (fixed memory). ALL is
// room for the facts of 64 variables, FEW for those of 16.
const PLACE: usize = 1024;

const HEAD: usize = 2048;

pub const FEW: usize = 3072;

pub const ALL: usize = 6144;

// A task's actions in an order by cost and number, and the ranks that are ready. The task stays beside it: of a slice
// in a struct a proof does not know that its numbers have 16 bits; and the list of chains, so that the rest can be copied.
#[derive(Clone, Copy)]
pub struct Waits<'a> {
    pub order: &'a [u16; 1024],
    pub ready: [u64; ready::SETS],
}

// Rank j hangs on the chain of fact f, in front.
fn hang(work: &mut [u16], f: usize, j: u16)
    requires { (f < 4096) × (2048 + f < length work.old) × (j < 1024) }
    ensures { work.new ≡ hung work.old f j }
{
    work[usize::from(j)] = work[HEAD + f];
    work[HEAD + f] = j;
}

impl<'a> Waits<'a> {
    // The action of rank j is ready, or waits for a precondition that is not reached. It is looked at from the place on that it reached
    // before.
    fn settle(&mut self, sets: &[u64; 64], task: &[u16], work: &mut [u16], j: u16)
        requires loaded { Loaded task.now × (j < 1024) × (get_or self.old.order.now j 0 < actions (task_in task.now)) }
        requires ready { Ready self.old.ready × Looked (sets_of sets.now) task.now (get_or self.old.order.now j 0) (place_at work.old j) × Room task.now work.old }
        ensures settles { Settles (sets_of sets.now) task.now self.old.order.now j work.old self.old.ready work.new self.new.ready }
        ensures same { self.new.order.now ≡ self.old.order.now }
    {
        let r = usize::from(j);
        let to = task::eff_start(task, usize::from(self.order[r]));
        let k = unmet(sets, &task[..to], usize::from(work[PLACE + r]));
        work[PLACE + r] = k as u16;
        if k < to {
            hang(work, usize::from(task[k]), j);
        } else {
            ready::mark(&mut self.ready, r);
        }
    }

    // Settles the actions on the chain from h on. The facts that are owed are still to be looked at.
    fn settle_all(&mut self, sets: &[u64; 64], task: &[u16], work: &mut [u16], h: u16, owed: &[u16])
        requires { Loaded task.now × Sites task.now self.old.order.now (actions (task_in task.now)) (sets_of sets.now) (has (facts_of owed.now)) work.old self.old.ready h 1024 }
        ensures settled { Settled task.now self.old.order.now (sets_of sets.now) (has (facts_of owed.now)) work.new self.new.ready }
        ensures same { self.new.order.now ≡ self.old.order.now }
    {
        let mut j = h;
        // No range tells how long a chain is: 1,024 actions at most, so that a `for` ends where a `while` would need a measure.
        for _ in 0..1024usize {
            if 1024 <= j {
                return;
            }
            let after = work[usize::from(j)];
            self.settle(sets, task, work, j);
            j = after;
        }
    }

    // The facts are reached: their chains are taken off, and the actions on them settled.
    pub fn wake(&mut self, sets: &[u64; 64], task: &[u16], work: &mut [u16], facts: &[u16])
        requires { Loaded task.now × Headed task.now facts.now × Settled task.now self.old.order.now (sets_of sets.now) (has (facts_of facts.now)) work.old self.old.ready }
        ensures settled { Settled task.now self.old.order.now (sets_of sets.now) (has []) work.new self.new.ready }
        ensures ready_unchanged { length facts.now ≡ 0 → self.new.ready ≡ self.old.ready }
        ensures same { self.new.order.now ≡ self.old.order.now }
    {
        for (k, f) in facts.iter().enumerate() {
            let f = usize::from(*f);
            let h = work[HEAD + f];
            work[HEAD + f] = 65535;
            self.settle_all(sets, task, work, h, &facts[k + 1..]);
        }
    }

    // Every action is ready, or waits for a precondition that is not reached.
    pub fn settle_each(&mut self, sets: &[u64; 64], task: &[u16], work: &mut [u16])
        requires { Loaded task.now × ByCost task.now self.old.order.now × Free task.now work.old × (self.old.ready ≡ replicate 17 0) }
        ensures settled { Settled task.now self.old.order.now (sets_of sets.now) (has []) work.new self.new.ready }
        ensures same { self.new.order.now ≡ self.old.order.now }
    {
        let n = task::actions(task);
        for j in 0..n {
            work[PLACE + j] = task::pre_start(task, usize::from(self.order[j])) as u16;
            self.settle(sets, task, work, j as u16);
        }
    }
}
