// The checks of a list of actions: that it is not too long, and that each entry is the number of an action.
#![tactic(auto)]

ghost use Rattle.std.specs.Prelude.{◌≡◌, ◌≤◌, length};
ghost use Rattle.planning.specs.Basics.{answer};
ghost use Rattle.answers.specs.Answers.{value_of};
ghost use Rattle.task.specs.Task.{task_in, Loaded};
ghost use Rattle.entries.specs.Entries.{leading, list_check};

use answers::{Reason, Refusal};

// The entries before the first that is not below n.
pub fn leading(list: &[u16], n: usize) -> usize
    ensures { (result ≡ leading n list.now) × (result ≤ length list.now) }
{
    for (k, &i) in list.iter().enumerate() {
        if n <= usize::from(i) {
            return k;
        }
    }
    list.len()
}

// A list of actions: 13, then 9.
pub fn check_list(task: &[u16], list: &[u16]) -> Result<u32, Refusal>
    requires { Loaded task.now }
    ensures { value_of result ≡ answer (list_check (task_in task.now) list.now) (length list.now) }
{
    if 32768 < list.len() {
        return Err(Refusal {
            reason: Reason::Length,
            place: 32768,
        });
    }
    let n = leading(list, task::actions(task));
    if n < list.len() {
        return Err(Refusal {
            reason: Reason::Entry,
            place: n as u32,
        });
    }
    Ok(n as u32)
}
