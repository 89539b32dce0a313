// The forward run, the relaxed plan and the newest values of a list as C calls them. The code is 0, or 32 times the place and the number; after a refusal
// the other fields are 0.
ghost use Rattle.std.specs.Prelude.{◌≡◌, length};
ghost use Rattle.planning.specs.Calls.{forward_call, forward_list, relax_call, relax_list, newest_call, newest_list};
ghost use Rattle.mardiskos.specs.Runs.{forward_run_of, relaxed_plan_of, newest_values_of};

use codes::code;

#[repr(C)]
#[derive(Clone, Copy, Default)]
pub struct ForwardRun {
    pub code: u64,
    pub steps: u32,
    pub reached: u32,
}

#[repr(C)]
#[derive(Clone, Copy, Default)]
pub struct RelaxedPlan {
    pub code: u64,
    pub steps: u32,
}

// The forward run of a record in the front of the list, or the refusal by 1 to 6, 10, 11.
#[unsafe(no_mangle)]
pub extern "C" fn mardiskos_forward(bytes: &[u8], plan: &mut [u16]) -> ForwardRun
    ensures { (result ≡ forward_run_of (forward_call bytes.now (length plan.old))) × (plan.new ≡ forward_list bytes.now (length plan.old)) }
{
    let answer = forward::forward(bytes, plan);
    let Ok(run) = answer else {
        return ForwardRun {
            code: code(answer),
            ..ForwardRun::default()
        };
    };
    ForwardRun {
        code: 0,
        steps: run.steps,
        reached: run.reached,
    }
}

// The relaxed plan of a record in the front of the list, or the refusal by 1 to 6, 10, 11.
#[unsafe(no_mangle)]
pub extern "C" fn mardiskos_relax(bytes: &[u8], plan: &mut [u16]) -> RelaxedPlan
    ensures { (result ≡ relaxed_plan_of (relax_call bytes.now (length plan.old))) × (plan.new ≡ relax_list bytes.now (length plan.old)) }
{
    let answer = relax::relax(bytes, plan);
    let Ok(steps) = answer else {
        return RelaxedPlan {
            code: code(answer),
            ..RelaxedPlan::default()
        };
    };
    RelaxedPlan { code: 0, steps }
}

#[repr(C)]
#[derive(Clone, Copy, Default)]
pub struct NewestValues {
    pub code: u64,
    pub steps: u32,
    pub runs: u32,
}

// The newest value of each variable, where the red-black run of the list stops, in the front of the list lent for the values, or the refusal
// by 1 to 6, 13, 9, 11.
#[unsafe(no_mangle)]
pub extern "C" fn mardiskos_newest(bytes: &[u8], list: &[u16], values: &mut [u16]) -> NewestValues
    ensures value { result ≡ newest_values_of (newest_call bytes.now list.now (length values.old)) }
    ensures values_after { values.new ≡ newest_list bytes.now list.now (length values.old) }
{
    let answer = newest::newest(bytes, list, values);
    let Ok(progress) = answer else {
        return NewestValues {
            code: code(answer),
            ..NewestValues::default()
        };
    };
    NewestValues {
        code: 0,
        steps: progress.steps,
        runs: progress.runs,
    }
}
