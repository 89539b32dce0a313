// Judging: for each of the three semantics, the steps of a list that run and whether it is a plan. One pass red-black tells the real run as
// well, by the newest values; the relaxed run goes on where the red-black one stops.
#![tactic(auto)]

ghost use Rattle.std.specs.Prelude.{◌≡◌};
ghost use Rattle.planning.specs.Runs.{judgement};
ghost use Rattle.planning.specs.Calls.{judge_call};
ghost use Rattle.task.specs.Task.{task_in, Loaded};
ghost use Rattle.entries.specs.Entries.{Ready};
ghost use Rattle.judge.specs.Answers.{judgement_of, answer_of, judged_list};

use answers::Refusal;
use applying::RedBlack;
use callers::Verdict;

#[derive(Clone, Copy)]
pub struct Verdicts {
    pub relaxed: Verdict,
    pub red_black: Verdict,
    pub real: Verdict,
}

// The three verdicts: the red-black one from the state shown where the pass stops, the real one from the newest values there. A red-black plan
// is a relaxed one; else the relaxed run goes on where the red-black one stops.
fn judge_all(task: &[u16], list: &[u16]) -> Verdicts
    requires { Ready task.now list.now }
    ensures { judgement_of result ≡ judgement (task_in task.now) list.now }
{
    let x = execution::follow(task, list);
    let newest = &x.state.newest.values;
    let shown = RedBlack {
        paint: x.paint,
        sets: &x.state.sets,
        newest,
    };
    let red_black = callers::judge_at(task, list, &shown, x.steps);
    let real = callers::judge_at(task, list, newest, x.runs);
    if red_black.plan {
        return Verdicts {
            relaxed: red_black,
            red_black,
            real,
        };
    }
    let relaxed = callers::judge_relaxed(task, list, x.state, x.steps);
    Verdicts {
        relaxed,
        red_black,
        real,
    }
}

// Checks 13 and 9 of a list, then the verdicts.
fn judge_loaded(task: &[u16], list: &[u16]) -> Result<Verdicts, Refusal>
    requires { Loaded task.now }
    ensures { answer_of result ≡ judged_list (task_in task.now) list.now }
{
    let Err(f) = entries::check_list(task, list) else {
        return Ok(judge_all(task, list));
    };
    Err(f)
}

// A list of actions judged: checks 1 to 6, 13, 9.
pub fn judge(bytes: &[u8], list: &[u16]) -> Result<Verdicts, Refusal>
    ensures { answer_of result ≡ judge_call bytes.now list.now }
{
    let run = |task: &mut [u16], _: &mut [u16], _: &mut [u8]| -> Result<Verdicts, Refusal>
        requires { Loaded task.old }
        ensures { answer_of result ≡ judged_list (task_in task.old) list.entry.now }
    { judge_loaded(task, list) };
    let answer = loader::with_task(bytes, &mut [], &mut [], run);
    let Err(f) = answer else {
        return answer;
    };
    Err(f)
}
