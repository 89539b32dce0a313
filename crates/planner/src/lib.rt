// The planner: from a record to a repaired plan, and the repair of a caller's relaxed plan. Both are one way: the record, the painting, the
// relaxed plan, the repair, each check in the table's order. The plan stands in the front of the plan list from the repair on, its marks in
// that of the mark area, and what is behind them is blanked at the end.
#![tactic(auto)]

ghost use Rattle.std.specs.Prelude.{◌≡◌, true, false, [], ◌≤◌, length};
ghost use Rattle.planning.specs.Record.{task_of};
ghost use Rattle.planning.specs.Runs.{relaxed, is_plan};
ghost use Rattle.planning.specs.Relaxed.{relaxed_plan};
ghost use Rattle.planning.specs.Calls.{plan_call, plan_list, plan_marks, repair_call, repair_list, repair_marks, work_list, plan_in, marks_in, runnable};
ghost use Rattle.planning.specs.Existence.{Demand3, Bounded, Ceiling, Recovers};
ghost use Rattle.task.specs.Task.{task_in, Loaded};
ghost use Rattle.task.specs.Links.{Prepared};
ghost use Rattle.answers.specs.Plans.{answer_of};
ghost use Rattle.repair.specs.Answers.{room_in};
ghost use Rattle.planner.specs.Drafts.{Drafted, Sourced, Painted, Called};

use answers::{Plan, Refusal};

// The repair of a relaxed plan in the front of the plan list, its marks in that of the mark area; 11 if it is longer than the capacity.
fn draft(
    task: &[u16],
    list: &[u16],
    plan: &mut [u16],
    work: &[u16],
    marks: &mut [u8],
) -> Result<Plan, Refusal>
    requires { Prepared task.now × (is_plan (task_in task.now) relaxed list.now ≡ true) }
    ensures { Drafted (task_in task.now) [] list.now (room_in plan.old work.now marks.old) plan.new marks.new result }
{
    repair::repair(task, list, plan, work, marks)
}

// The repair of the task's own relaxed plan, or 10.
fn plan_prepared(
    task: &[u16],
    plan: &mut [u16],
    work: &[u16],
    marks: &mut [u8],
) -> Result<Plan, Refusal>
    requires { Prepared task.now }
    ensures { Sourced false (task_in task.now) [] (room_in plan.old work.now marks.old) plan.new marks.new result }
{
    let mut relaxed = [65535u16; 1024];
    let found = relax::relaxed_plan(task, &mut relaxed);
    let Err(f) = found else {
        let count = found.unwrap_or(0) as usize;
        return draft(task, &relaxed[..count], plan, work, marks);
    };
    Err(f)
}

// The repair of the caller's list, checked by 13 and 9.
fn repair_prepared(
    task: &[u16],
    list: &[u16],
    plan: &mut [u16],
    work: &[u16],
    marks: &mut [u8],
) -> Result<Plan, Refusal>
    requires { Prepared task.now }
    ensures { Sourced true (task_in task.now) list.now (room_in plan.old work.now marks.old) plan.new marks.new result }
{
    let Err(f) = callers::check_relaxed(task, list) else {
        return draft(task, list, plan, work, marks);
    };
    Err(f)
}

// Checks 7 and 8 of a loaded task, then its plan.
fn plan_loaded(
    task: &mut [u16],
    plan: &mut [u16],
    work: &[u16],
    marks: &mut [u8],
) -> Result<Plan, Refusal>
    requires { Loaded task.old }
    ensures { Painted false (task_in task.old) [] (room_in plan.old work.now marks.old) plan.new marks.new result }
{
    let Err(f) = painting::prepare(task) else {
        return plan_prepared(task, plan, work, marks);
    };
    Err(f)
}

// The same of a caller's list: one function for both would be handed what to call behind the checks, which is longer.
fn repair_loaded(
    task: &mut [u16],
    list: &[u16],
    plan: &mut [u16],
    work: &[u16],
    marks: &mut [u8],
) -> Result<Plan, Refusal>
    requires { Loaded task.old }
    ensures { Painted true (task_in task.old) list.now (room_in plan.old work.now marks.old) plan.new marks.new result }
{
    let Err(f) = painting::prepare(task) else {
        return repair_prepared(task, list, plan, work, marks);
    };
    Err(f)
}

// Checks 1 to 6 of a record, then the plan of its task.
fn plan_record(
    bytes: &[u8],
    plan: &mut [u16],
    work: &[u16],
    marks: &mut [u8],
) -> Result<Plan, Refusal>
    ensures { Called false bytes.now [] (room_in plan.old work.now marks.old) plan.new marks.new result }
{
    let answer = loader::with_task(bytes, plan, marks, |task, plan, marks| {
        plan_loaded(task, plan, work, marks)
    });
    let Err(f) = answer else {
        return answer;
    };
    Err(f)
}

// The same of a caller's list.
fn repair_record(
    bytes: &[u8],
    list: &[u16],
    plan: &mut [u16],
    work: &[u16],
    marks: &mut [u8],
) -> Result<Plan, Refusal>
    ensures { Called true bytes.now list.now (room_in plan.old work.now marks.old) plan.new marks.new result }
{
    let answer = loader::with_task(bytes, plan, marks, |task, plan, marks| {
        repair_loaded(task, list, plan, work, marks)
    });
    let Err(f) = answer else {
        return answer;
    };
    Err(f)
}

// The planner: from a record to a repaired plan and its marks. Checks 1 to 8, 10, 11.
pub fn plan(
    bytes: &[u8],
    plan: &mut [u16],
    work: &mut [u16],
    marks: &mut [u8],
) -> Result<Plan, Refusal>
    ensures result_value { answer_of result ≡ plan_call bytes.now (length plan.old) (length work.old) (length marks.old) }
    ensures plan_after { plan.new ≡ plan_list bytes.now (length plan.old) (length work.old) (length marks.old) }
    ensures work_after { work.new ≡ work_list (length work.old) }
    ensures marks_after { marks.new ≡ plan_marks bytes.now (length plan.old) (length work.old) (length marks.old) }
    ensures demand3 { Demand3 bytes.now (length plan.old) (length work.old) (length marks.old) (answer_of result) (plan_in (answer_of result) plan.new) }
    ensures bounded { Bounded bytes.now (relaxed_plan (task_of bytes.now)) (answer_of result) (plan_in (answer_of result) plan.new) }
    ensures ceiling { Ceiling bytes.now (relaxed_plan (task_of bytes.now)) (answer_of result) }
    ensures recovers { Recovers bytes.now (relaxed_plan (task_of bytes.now)) (answer_of result) (plan_in (answer_of result) plan.new) (marks_in (answer_of result) marks.new) }
{
    let r = plan_record(bytes, plan, work, marks);
    blanking::finish(r, plan, marks);
    lists::blank(work);
    r
}

// The repair of a caller's relaxed plan, and its marks. Checks 1 to 8, 13, 9, 11.
pub fn repair(
    bytes: &[u8],
    list: &[u16],
    plan: &mut [u16],
    work: &mut [u16],
    marks: &mut [u8],
) -> Result<Plan, Refusal>
    ensures result_value { answer_of result ≡ repair_call bytes.now list.now (length plan.old) (length work.old) (length marks.old) }
    ensures plan_after { plan.new ≡ repair_list bytes.now list.now (length plan.old) (length work.old) (length marks.old) }
    ensures work_after { work.new ≡ work_list (length work.old) }
    ensures marks_after { marks.new ≡ repair_marks bytes.now list.now (length plan.old) (length work.old) (length marks.old) }
    ensures bounded { Bounded bytes.now list.now (answer_of result) (plan_in (answer_of result) plan.new) }
    ensures ceiling { Ceiling bytes.now list.now (answer_of result) }
    ensures recovers { Recovers bytes.now list.now (answer_of result) (plan_in (answer_of result) plan.new) (marks_in (answer_of result) marks.new) }
{
    let r = repair_record(bytes, list, plan, work, marks);
    blanking::finish(r, plan, marks);
    lists::blank(work);
    r
}

// The steps that run for real, as a part of the caller's plan list; after a refusal none.
pub fn runnable<'a>(answer: Result<Plan, Refusal>, plan: &'a [u16]) -> &'a [u16]
    ensures { result.now ≡ runnable (answer_of answer) plan.now }
{
    let Ok(found) = answer else {
        return &plan[..0];
    };
    &plan[..plan.len().min(found.runs as usize)]
}
