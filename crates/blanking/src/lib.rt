// What a call that plans hands back: the plan stands in the front of the plan list and its marks in that of the mark area, as many as its
// answer has steps; whatever stood behind them, and after a refusal everywhere, is blanked.
#![tactic(auto)]

ghost use Rattle.std.specs.Prelude.{◌≡◌, length};
ghost use Rattle.planning.specs.Calls.{plan_in, marks_in, lent, lent_bytes};
ghost use Rattle.answers.specs.Plans.{answer_of, steps_of};

use answers::{Plan, Refusal};

// The steps of an answer, 0 after a refusal.
fn steps_of(answer: Result<Plan, Refusal>) -> usize
    ensures { result ≡ steps_of answer }
{
    let Ok(plan) = answer else {
        return 0;
    };
    plan.steps as usize
}

// What stands behind the plan is 65,535, and behind the marks 0.
pub fn finish(answer: Result<Plan, Refusal>, plan: &mut [u16], marks: &mut [u8])
    ensures plan_after { plan.new ≡ lent (answer_of answer) (length plan.old) (plan_in (answer_of answer) plan.old) }
    ensures marks_after { marks.new ≡ lent_bytes (answer_of answer) (length marks.old) (marks_in (answer_of answer) marks.old) }
{
    let steps = steps_of(answer);
    lists::blank_from(plan, steps);
    lists::clear_from(marks, steps);
}
