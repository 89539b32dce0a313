// Newest values of a list for the control desk: the value of each variable that was set last, where the red-black run stops.
#![tactic(auto)]

ghost use Rattle.std.specs.Prelude.{◌≡◌, ◌++◌, ◌≤◌, length, drop};
ghost use Rattle.planning.specs.Calls.{newest_call, newest_list};
ghost use Rattle.task.specs.Task.{task_in, Loaded};
ghost use Rattle.entries.specs.Entries.{Ready};
ghost use Rattle.newest.specs.Answers.{answer_of, Fits, Tells, Called};

use answers::{Reason, Refusal};
use state::Newest;

// How many steps of the list run red-black and for real.
#[derive(Clone, Copy)]
pub struct Progress {
    pub steps: u32,
    pub runs: u32,
}

// The answer, and the newest values where the run stops, of which those of `count` variables are shown: with no heap they keep their place
// beside their count.
#[derive(Clone, Copy)]
pub struct Board {
    pub progress: Progress,
    pub count: usize,
    pub newest: Newest,
}

// 11 where there are more variables than room, then the run.
fn tell_ready(task: &[u16], list: &[u16], room: usize) -> Result<Board, Refusal>
    requires { Ready task.now list.now }
    ensures { Fits (task_in task.now) list.now room result }
{
    let n = task::variables(task);
    if room < n {
        return Err(Refusal {
            reason: Reason::Room,
            place: room as u32,
        });
    }
    let x = execution::follow(task, list);
    let steps = x.steps as u32;
    let runs = x.runs as u32;
    Ok(Board {
        progress: Progress { steps, runs },
        count: n,
        newest: x.state.newest,
    })
}

// Checks 13 and 9 of the list, then the same.
fn tell_loaded(task: &[u16], list: &[u16], room: usize) -> Result<Board, Refusal>
    requires { Loaded task.now }
    ensures { Tells (task_in task.now) list.now room result }
{
    let Err(f) = entries::check_list(task, list) else {
        return tell_ready(task, list, room);
    };
    Err(f)
}

// The same from a record, whose check comes first.
fn tell(bytes: &[u8], list: &[u16], room: usize) -> Result<Board, Refusal>
    ensures { Called bytes.now list.now room result }
{
    let run = |task: &mut [u16], _: &mut [u16], _: &mut [u8]| -> Result<Board, Refusal>
        requires { Loaded task.old }
        ensures { Tells (task_in task.old) list.entry.now room result }
    { tell_loaded(task, list, room) };
    let answer = loader::with_task(bytes, &mut [], &mut [], run);
    let Err(f) = answer else {
        return answer;
    };
    Err(f)
}

// The newest values, in the front of a list.
fn put(newest: &[u8], values: &mut [u16])
    requires { length newest.now ≤ length values.old }
    ensures { values.new ≡ newest.now ++ drop (length newest.now) values.old }
{
    for (v, x) in newest.iter().enumerate() {
        values[v] = u16::from(*x);
    }
}

// The newest value of each variable in the front of the list lent for them, or the refusal by 1 to 6, 13, 9, 11.
pub fn newest(bytes: &[u8], list: &[u16], values: &mut [u16]) -> Result<Progress, Refusal>
    ensures result_value { answer_of result ≡ newest_call bytes.now list.now (length values.old) }
    ensures values_after { values.new ≡ newest_list bytes.now list.now (length values.old) }
{
    match tell(bytes, list, values.len()) {
        Ok(b) => {
            put(&b.newest.values[..b.count], values);
            lists::blank_from(values, b.count);
            Ok(b.progress)
        }
        Err(f) => {
            lists::blank(values);
            Err(f)
        }
    }
}
