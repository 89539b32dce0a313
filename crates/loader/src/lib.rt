// The loader: one pass over the bytes of a record tests them and loads the task that they state. Callers above it hand the bytes on and look at none.
#![tactic(auto)]

ghost use Rattle.std.specs.Prelude.{◌≡◌, ◌+◌, ◌*◌, ◌/◌, ◌%◌, ◌^◌, ◌<◌, ◌≤◌, length, replicate, MatchOption};
ghost use Rattle.std.proofs.Math.Option.{none};
ghost use Rattle.planning.specs.Basics.{in_order};
ghost use Rattle.planning.specs.Record.{record_check, variables_in, actions_in, variable_bit, variable_checks, variables_checks, facts_checks, action_checks};
ghost use Rattle.answers.specs.Answers.{check_of};
ghost use Rattle.lists.specs.Four.{Spread};
ghost use Rattle.record.specs.Stages.{Counts};
ghost use Rattle.task.specs.Task.{links_end};
ghost use Rattle.task_size.specs.Size.{facts_of, RoomIn};
ghost use Rattle.loader.specs.Loading.{FactsFit, FactsRead, ActionRead, VariableRead, VariablesRead, Begun, RecordRead, TaskRead};
ghost use Rattle.loader.specs.Calls.{Callable, Called};

use answers::Refusal;
use task::ACTION_ROWS;

// The four facts at the front of a window, 16 bits each, the first one lowest.
fn spread(window: u64) -> u64
    ensures { Spread (window / 2 ^ 52 % 4096) (window / 2 ^ 40 % 4096) (window / 2 ^ 28 % 4096) (window / 2 ^ 16 % 4096) result }
{
    (window >> 52) % 4096
        + (window >> 40) % 4096 * 65536
        + (window >> 28) % 4096 * 4294967296
        + (window >> 16) % 4096 * 281474976710656
}

// The `count` facts from bit `from` on, tested and put down as numbers from place `first` on, if they are sound: four a turn out of one
// window, of which the last may hold fewer.
fn load_facts(
    bytes: &[u8],
    from: usize,
    count: usize,
    counts: &[u8; 64],
    task: &mut [u16],
    first: usize,
) -> Option<()>
    requires { FactsFit bytes.now from count first task.old × Counts bytes.now counts.now (variables_in bytes.now) }
    ensures { MatchOption result (in_order (facts_checks bytes.now from 0 count) ≡ none → ⊥) (λ _. FactsRead bytes.now from count first task.old task.new) }
{
    let mut at = from;
    let mut left = count;
    let mut to = first;
    let mut low = 0;
    // The loop of `record::sound_windows`, which does not store between two windows. A `for` over the full ones was slower: most lists have none.
    while 4 < left {
        let window = bits::window_at(bytes, at);
        low = record::sound_few(window, 4, low, counts)?;
        lists::put_four(task, to, spread(window));
        at += 48;
        left -= 4;
        to += 4;
    }
    if left == 0 {
        return Some(());
    }
    let window = bits::window_at(bytes, at);
    lists::put_four(task, to, spread(window));
    record::sound_few(window, left, low, counts)?;
    Some(())
}

// The action at bit `at`, tested: row r, and its facts from place `to` on. One read gives its cost and both counts. The answer is
// its number of facts, if it is sound and has room.
fn load_action(
    bytes: &[u8],
    at: usize,
    counts: &[u8; 64],
    task: &mut [u16],
    r: usize,
    to: usize,
) -> Option<usize>
    requires { (42 ≤ at) × (at ≤ 400000) × (4 * r + 4 ≤ to) × (to ≤ 65000) × Counts bytes.now counts.now (variables_in bytes.now) }
    ensures { MatchOption result (in_order (action_checks bytes.now at) ≡ none → to + facts_of bytes.now at + 4 ≤ length task.old → ⊥) (λ n. ActionRead bytes.now at r to task.old task.new n) }
{
    if bytes.len() < (at + 31) / 8 {
        return None;
    }
    let head = bits::read_bits(bytes, at, 24);
    let pre = (head / 16 % 16) as usize;
    let eff = (head % 16) as usize;
    let n = pre + eff;
    if bytes.len() < (at + 31 + 12 * n) / 8 || task.len() < to + n + 4 {
        return None;
    }
    let cost = (head / 256) as u16;
    task::write_row(task, r, cost, to as u16, (to + pre) as u16, (to + n) as u16);
    load_facts(bytes, at + 24, pre, counts, task, to)?;
    load_facts(bytes, at + 24 + 12 * pre, eff, counts, task, to + pre)?;
    Some(n)
}

// Variable v, tested: 20 bits from bit 22 + 20 v on: count of values less one, 6; black, 1; initial value, 6; goal present, 1; goal
// value, 6. The answer is its count of values, if it is sound.
fn load_variable(bytes: &[u8], task: &mut [u16], v: usize) -> Option<u8>
    requires { (v < 64) × (links_end ≤ length task.old) }
    ensures { MatchOption result (in_order (variable_checks bytes.now (variable_bit v)) ≡ none → ⊥) (λ n. VariableRead bytes.now v task.old task.new n) }
{
    let at = 22 + 20 * v;
    if bytes.len() < (at + 27) / 8 {
        return None;
    }
    let fields = bits::read_bits(bytes, at, 20);
    if !record::is_sound_variable(fields) {
        return None;
    }
    let count = (fields / 16384 + 1) as u8;
    task::write_row(
        task,
        1 + v,
        u16::from(count),
        (fields / 8192 % 2) as u16,
        (fields / 128 % 64) as u16,
        (fields % 128) as u16,
    );
    Some(count)
}

// Rows 0 to 64, if the variables are sound; the counts of values go to `counts` too, which is 0 behind them.
fn load_variables(
    bytes: &[u8],
    task: &mut [u16],
    n: usize,
    count: usize,
    counts: &mut [u8; 64],
) -> Option<()>
    requires n_value { (n ≡ variables_in bytes.now) × (n ≤ 64) × (count ≡ actions_in bytes.now) × (count ≤ 1024) × (links_end ≤ length task.old) }
    requires counts_len { (length counts.old ≡ 64) × Counts bytes.now counts.old 0 }
    ensures { MatchOption result (in_order (variables_checks bytes.now 22 (variables_in bytes.now)) ≡ none → ⊥) (λ _. VariablesRead bytes.now task.old task.new counts.new) }
{
    task::write_row(task, 0, n as u16, count as u16, 0, 0);
    for v in 0..n {
        counts[v] = load_variable(bytes, task, v)?;
    }
    Some(())
}

// The actions and the end of a record whose header and variables are loaded, if they are sound; heads have their room behind the facts.
fn load_actions(
    bytes: &[u8],
    variables: usize,
    count: usize,
    counts: &[u8; 64],
    task: &mut [u16],
) -> Option<()>
    requires { Begun bytes.now variables count counts.now task.old }
    ensures { MatchOption result (record_check bytes.now ≡ none → ⊥) (λ _. RecordRead bytes.now task.new) }
{
    let mut at = 22 + 20 * variables;
    let mut to = 4 * (ACTION_ROWS + count);
    for i in 0..count {
        let n = load_action(bytes, at, counts, task, ACTION_ROWS + i, to)?;
        at += 24 + 12 * n;
        to += n;
    }
    let Ok(()) = record::check_end(bytes, at as u32) else {
        return None;
    };
    task[3] = to as u16;
    Some(())
}

// The whole record, if it is accepted.
fn load(bytes: &[u8], task: &mut [u16]) -> Option<()>
    requires { RoomIn bytes.now task.old }
    ensures { MatchOption result (record_check bytes.now ≡ none → ⊥) (λ _. RecordRead bytes.now task.new) }
{
    if bytes.len() < 3 {
        return None;
    }
    let head = bits::read_bits(bytes, 0, 22);
    if !record::is_sound_header(head) {
        return None;
    }
    let variables = (head / 2048 % 128) as usize;
    let count = (head % 2048) as usize;
    let mut counts = [0u8; 64];
    load_variables(bytes, task, variables, count, &mut counts)?;
    load_actions(bytes, variables, count, &counts, task)
}

// The record's check, and its task if it is accepted: one pass does both. Where it fails the check says why, and is never passed.
pub fn read(bytes: &[u8], task: &mut [u16]) -> Result<(), Refusal>
    requires { RoomIn bytes.now task.old }
    ensures { (check_of result ≡ record_check bytes.now) × (record_check bytes.now ≡ none → TaskRead bytes.now task.new) }
{
    let Some(()) = load(bytes, task) else {
        let Err(f) = record::check(bytes) else {
            return Ok(());
        };
        return Err(f);
    };
    Ok(())
}

// A call on the task of a record, in a list of N numbers. It is never put into its caller, whose frame would hold lists of every length.
#[inline(never)]
fn within<const N: usize, R, F: FnOnce(&mut [u16], &mut [u16], &mut [u8]) -> Result<R, Refusal>>(
    bytes: &[u8],
    list: &mut [u16],
    marks: &mut [u8],
    run: F,
) -> Result<R, Refusal>
    requires room { RoomIn bytes.now (replicate N 0) }
    requires small { N ≤ 65536 }
    requires runs { Callable F.pre run bytes.now }
    ensures { Called F.post run bytes.now list.old marks.old result list.new marks.new }
{
    let mut task = [0u16; N];
    read(bytes, &mut task)?;
    run(&mut task, list, marks)
}

// A call on the task of a record, if it is accepted, with a list and marks for it to write; a record that is refused leaves both as they were.
// The task of a small record is small, so that little has to be cleared.
pub fn with_task<R, F: FnOnce(&mut [u16], &mut [u16], &mut [u8]) -> Result<R, Refusal>>(
    bytes: &[u8],
    list: &mut [u16],
    marks: &mut [u8],
    run: F,
) -> Result<R, Refusal>
    requires { Callable F.pre run bytes.now }
    ensures { Called F.post run bytes.now list.old marks.old result list.new marks.new }
{
    let size = task_size::room_for(bytes);
    if size <= task_size::LEAST {
        return within::<{ task_size::LEAST }, R, F>(bytes, list, marks, run);
    }
    if size <= task_size::TINY {
        return within::<{ task_size::TINY }, R, F>(bytes, list, marks, run);
    }
    if size <= task_size::SHORT {
        return within::<{ task_size::SHORT }, R, F>(bytes, list, marks, run);
    }
    within::<{ task_size::LONG }, R, F>(bytes, list, marks, run)
}
