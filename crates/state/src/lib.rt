// States: for each of 64 variables the set of the values that it has had, one bit a value, and the newest of them. The step takes a state
// and hands the next one back whole. The goals of a task stand here too, as facts.
#![tactic(auto)]

ghost use Rattle.std.specs.Prelude.{◌≡◌, ◌/◌, ◌%◌, ◌<◌, ◌≤◌, set, take};
ghost use Rattle.planning.specs.Runs.{actions, act, step, initial, relaxed, size};
ghost use Rattle.planning.specs.Newest.{initial_values, newer};
ghost use Rattle.task.specs.Task.{task_in, Loaded};
ghost use Rattle.sets.specs.Sets.{sets_of, values_of, choose, over};
ghost use Rattle.state.specs.Goals.{GoalsOf};

// The goals, as facts 64 × variable + value in the front of a list: with no heap they keep their place beside their count.
#[derive(Clone, Copy)]
pub struct Goals {
    pub facts: [u16; 64],
    pub count: usize,
}

impl Goals {
    pub fn load(task: &[u16]) -> Goals
        requires { Loaded task.now }
        ensures { GoalsOf (task_in task.now) result }
    {
        let n = task::variables(task);
        let mut goals = Goals {
            facts: [0; 64],
            count: 0,
        };
        for v in 0..n {
            let Some(x) = task::goal_of(task, v) else {
                continue;
            };
            let k = goals.count;
            goals.facts[k] = (64 * v + x as usize) as u16;
            goals.count = k + 1;
        }
        goals
    }

    // The goals alone.
    pub fn listed(&self) -> &[u16]
        requires { self.now.count ≤ 64 }
        ensures { result.now ≡ take self.now.count self.now.facts }
    {
        &self.facts[..self.count]
    }
}

// x if b, else y.
fn choose(b: bool, x: u8, y: u8) -> u8
    ensures { result ≡ choose b x y }
{
    if b { x } else { y }
}

// The values with fact f set. Every entry is chosen anew, by n, which is 64 at the variable of f: after a store of one byte the processor
// waits with a read of many bytes at once. n is a byte that goes with k: to compare k itself takes three times the instructions.
fn placed(values: [u8; 64], f: usize) -> [u8; 64]
    requires { f < 4096 }
    ensures { result ≡ set values (f / 64) (f % 64) }
{
    let x = (f % 64) as u8;
    let mut n = 64 - (f / 64) as u8;
    let mut r = values;
    for k in 0..64 {
        r[k] = choose(n == 64, x, values[k]);
        n += 1;
    }
    r
}

// New values laid over old ones, where 64 is none: with options, of two bytes each, a step takes six times as long.
fn laid(old: [u8; 64], new: [u8; 64]) -> [u8; 64]
    ensures { values_of result ≡ over (values_of old) (values_of new) }
{
    let mut r = old;
    for k in 0..64 {
        r[k] = choose(new[k] == 64, old[k], new[k]);
    }
    r
}

// The newest value of each variable. As long as every step ran for real they are the real state.
#[derive(Clone, Copy)]
pub struct Newest {
    pub values: [u8; 64],
}

impl Newest {
    // The initial values.
    pub fn initial(task: &[u16]) -> Newest
        requires { Loaded task.now }
        ensures { values_of result.values ≡ initial_values (task_in task.now) }
    {
        let n = task::variables(task);
        let mut values = [0u8; 64];
        for v in 0..n {
            values[v] = task::initial(task, v) as u8;
        }
        Newest { values }
    }

    // The newest values after action i, its effects stored one by one.
    fn stored(mut self, task: &[u16], i: usize) -> Newest
        requires { Loaded task.now × (i < actions (task_in task.now)) }
        ensures { values_of result.values ≡ newer (act (task_in task.now) i) (values_of self.values) }
    {
        let effects = task::effects(task, i);
        for f in effects {
            let f = usize::from(*f);
            self.values[f / 64] = (f % 64) as u8;
        }
        self
    }

    // The same with all values chosen anew for each effect, which is faster where there are few (see `placed`).
    fn chosen(self, task: &[u16], i: usize) -> Newest
        requires { Loaded task.now × (i < actions (task_in task.now)) }
        ensures { values_of result.values ≡ newer (act (task_in task.now) i) (values_of self.values) }
    {
        let mut values = self.values;
        let effects = task::effects(task, i);
        for f in effects {
            let next = placed(values, usize::from(*f));
            values = next;
        }
        Newest { values }
    }

    // The newest values after action i: up to three effects by choosing, more are stored apart and laid over the old values.
    pub fn step(self, task: &[u16], i: usize) -> Newest
        requires { Loaded task.now × (i < actions (task_in task.now)) }
        ensures { values_of result.values ≡ newer (act (task_in task.now) i) (values_of self.values) }
    {
        if task::effects(task, i).len() <= 3 {
            return self.chosen(task, i);
        }
        let none = Newest { values: [64; 64] };
        let effects = none.stored(task, i);
        let old = self.values;
        let new = effects.values;
        let values = laid(old, new);
        Newest { values }
    }
}

// The effects of action i put into the sets.
fn add_effects(sets: &mut [u64; 64], task: &[u16], i: usize)
    requires { Loaded task.now × (i < actions (task_in task.now)) }
    ensures { sets_of sets.new ≡ step relaxed (act (task_in task.now) i) (sets_of sets.old) }
{
    let effects = task::effects(task, i);
    for f in effects {
        let f = usize::from(*f);
        sets[f / 64] |= sets::single(f % 64);
    }
}

// The relaxed state: every value that a variable has had.
#[derive(Clone, Copy)]
pub struct Relaxed {
    pub sets: [u64; 64],
}

impl Relaxed {
    // Each set holds the initial value alone.
    pub fn initial(task: &[u16]) -> Relaxed
        requires { Loaded task.now }
        ensures { sets_of result.sets ≡ initial (task_in task.now) }
    {
        let n = task::variables(task);
        let mut sets = [0u64; 64];
        for v in 0..n {
            sets[v] = sets::single(task::initial(task, v));
        }
        Relaxed { sets }
    }

    // The state after action i, whole.
    pub fn step(mut self, task: &[u16], i: usize) -> Relaxed
        requires { Loaded task.now × (i < actions (task_in task.now)) }
        ensures { sets_of result.sets ≡ step relaxed (act (task_in task.now) i) (sets_of self.sets) }
    {
        add_effects(&mut self.sets, task, i);
        self
    }

    // The facts reached: the summed counts of ones.
    pub fn reached(self) -> u64
        ensures { result ≡ size 64 (λ _. 64) (sets_of self.sets) }
    {
        let mut sum = 0;
        for set in &self.sets {
            sum += u64::from(set.count_ones());
        }
        sum
    }
}

// The relaxed state's sets, and the newest value of each variable.
#[derive(Clone, Copy)]
pub struct State {
    pub sets: [u64; 64],
    pub newest: Newest,
}

impl State {
    // Each set holds the initial value alone, and it is the newest.
    pub fn initial(task: &[u16]) -> State
        requires { Loaded task.now }
        ensures sets_value { sets_of result.sets ≡ initial (task_in task.now) }
        ensures values_after { values_of result.newest.values ≡ initial_values (task_in task.now) }
    {
        let relaxed = Relaxed::initial(task);
        let sets = relaxed.sets;
        let newest = Newest::initial(task);
        State { sets, newest }
    }

    // The state after action i, whole. Beside the copies of the sets the newest values may be stored one by one.
    pub fn step(mut self, task: &[u16], i: usize) -> State
        requires { Loaded task.now × (i < actions (task_in task.now)) }
        ensures sets_value { sets_of result.sets ≡ step relaxed (act (task_in task.now) i) (sets_of self.sets) }
        ensures values_after { values_of result.newest.values ≡ newer (act (task_in task.now) i) (values_of self.newest.values) }
    {
        add_effects(&mut self.sets, task, i);
        let old = self.newest;
        let newest = old.stored(task, i);
        self.newest = newest;
        self
    }
}
