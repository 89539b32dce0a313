// The planner as C calls it. The code is 0, or 32 times the place and the number; after a refusal the other fields are 0.
ghost use Rattle.std.specs.Prelude.{◌≡◌, length};
ghost use Rattle.planning.specs.Record.{task_of};
ghost use Rattle.planning.specs.Relaxed.{relaxed_plan};
ghost use Rattle.planning.specs.Calls.{plan_call, plan_list, plan_marks, repair_call, repair_list, repair_marks, work_list, plan_in, marks_in};
ghost use Rattle.planning.specs.Existence.{Demand3, Bounded, Ceiling, Recovers};
ghost use Rattle.codes.specs.Plans.{plan_result_of, answer_in};

use codes::PlanResult;

// The plan of a record in the front of the plan list and its marks in that of the mark area, or the refusal by 1 to 8, 10, 11. The work list
// is 65,535 at the end.
#[unsafe(no_mangle)]
pub extern "C" fn mardiskos_plan(
    bytes: &[u8],
    plan: &mut [u16],
    work: &mut [u16],
    marks: &mut [u8],
) -> PlanResult
    ensures value { result ≡ plan_result_of (plan_call bytes.now (length plan.old) (length work.old) (length marks.old)) }
    ensures plan_after { plan.new ≡ plan_list bytes.now (length plan.old) (length work.old) (length marks.old) }
    ensures work_after { work.new ≡ work_list (length work.old) }
    ensures marks_after { marks.new ≡ plan_marks bytes.now (length plan.old) (length work.old) (length marks.old) }
    ensures demand3 { Demand3 bytes.now (length plan.old) (length work.old) (length marks.old) (answer_in result) (plan_in (answer_in result) plan.new) }
    ensures bounded { Bounded bytes.now (relaxed_plan (task_of bytes.now)) (answer_in result) (plan_in (answer_in result) plan.new) }
    ensures ceiling { Ceiling bytes.now (relaxed_plan (task_of bytes.now)) (answer_in result) }
    ensures recovers { Recovers bytes.now (relaxed_plan (task_of bytes.now)) (answer_in result) (plan_in (answer_in result) plan.new) (marks_in (answer_in result) marks.new) }
{
    codes::flat(planner::plan(bytes, plan, work, marks))
}

// The caller's list repaired, in the front of the plan list, and its marks in that of the mark area, or the refusal by 1 to 8, 13, 9, 11. The
// work list is 65,535 at the end.
#[unsafe(no_mangle)]
pub extern "C" fn mardiskos_repair(
    bytes: &[u8],
    list: &[u16],
    plan: &mut [u16],
    work: &mut [u16],
    marks: &mut [u8],
) -> PlanResult
    ensures value { result ≡ plan_result_of (repair_call bytes.now list.now (length plan.old) (length work.old) (length marks.old)) }
    ensures plan_after { plan.new ≡ repair_list bytes.now list.now (length plan.old) (length work.old) (length marks.old) }
    ensures work_after { work.new ≡ work_list (length work.old) }
    ensures marks_after { marks.new ≡ repair_marks bytes.now list.now (length plan.old) (length work.old) (length marks.old) }
    ensures bounded { Bounded bytes.now list.now (answer_in result) (plan_in (answer_in result) plan.new) }
    ensures ceiling { Ceiling bytes.now list.now (answer_in result) }
    ensures recovers { Recovers bytes.now list.now (answer_in result) (plan_in (answer_in result) plan.new) (marks_in (answer_in result) marks.new) }
{
    codes::flat(planner::repair(bytes, list, plan, work, marks))
}
