// What C reads of an answer: its code, 0 or 32 times the place and the number; and the planner's answer as one struct, whose other fields
// are 0 after a refusal.
#![tactic(auto)]

ghost use Rattle.std.specs.Prelude.{◌≡◌, ℕ};
ghost use Rattle.planning.specs.Basics.{code, refused};
ghost use Rattle.answers.specs.Answers.{answer_by};
ghost use Rattle.answers.specs.Plans.{answer_of};
ghost use Rattle.codes.specs.Plans.{plan_result_of};

use answers::{Plan, Refusal};

// The code of a refusal by its number, whatever that is, and its place.
pub fn code_of(number: u8, place: u32) -> u64
    ensures { result ≡ code {A = ℕ} (refused number place) }
{
    32 * u64::from(place) + u64::from(number)
}

// The code of an answer: 0, or that of its refusal.
pub fn code<T: Copy>(answer: Result<T, Refusal>) -> u64
    ensures { result ≡ code (answer_by (λ x. x) answer) }
{
    let Err(f) = answer else {
        return 0;
    };
    code_of(u8::from(f.reason), f.place)
}

#[repr(C)]
#[derive(Clone, Copy, Default)]
pub struct PlanResult {
    pub code: u64,
    pub steps: u32,
    pub cost: u32,
    pub runs: u32,
    pub searches: u32,
    pub real: bool,
}

// What C reads of an answer.
pub fn flat(answer: Result<Plan, Refusal>) -> PlanResult
    ensures { result ≡ plan_result_of (answer_of answer) }
{
    let Ok(plan) = answer else {
        return PlanResult {
            code: code(answer),
            ..PlanResult::default()
        };
    };
    PlanResult {
        code: 0,
        steps: plan.steps,
        cost: plan.cost,
        runs: plan.runs,
        searches: plan.searches,
        real: plan.real,
    }
}
