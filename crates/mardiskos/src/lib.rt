// The entry points as C calls them: a slice is a pointer and a length.
#![tactic(auto)]

mod plans;
mod runs;
mod sheets;

ghost use Rattle.std.specs.Prelude.{◌≡◌};
ghost use Rattle.planning.specs.Calls.{check_code, judge_call};
ghost use Rattle.mardiskos.specs.Flat.{flat_of};

use codes::{code, code_of};

// The check of a record: 0 for accepted, else 32 times the place and the number.
#[unsafe(no_mangle)]
pub extern "C" fn mardiskos_check(bytes: &[u8]) -> u64
    ensures { result ≡ check_code bytes.now }
{
    let Err(f) = record::check(bytes) else {
        return 0;
    };
    code_of(u8::from(f.reason), f.place)
}

// After a refusal every field but the code is zero.
#[repr(C)]
#[derive(Clone, Copy, Default)]
pub struct Judgement {
    pub code: u64,
    pub relaxed_steps: u32,
    pub red_black_steps: u32,
    pub real_steps: u32,
    pub relaxed_plan: bool,
    pub red_black_plan: bool,
    pub real_plan: bool,
}

// A list judged: the code of the refusal, or 0 and the verdicts.
#[unsafe(no_mangle)]
pub extern "C" fn mardiskos_judge(bytes: &[u8], list: &[u16]) -> Judgement
    ensures { result ≡ flat_of (judge_call bytes.now list.now) }
{
    let answer = judge::judge(bytes, list);
    let Ok(v) = answer else {
        return Judgement {
            code: code(answer),
            ..Judgement::default()
        };
    };
    Judgement {
        code: 0,
        relaxed_steps: v.relaxed.steps,
        red_black_steps: v.red_black.steps,
        real_steps: v.real.steps,
        relaxed_plan: v.relaxed.plan,
        red_black_plan: v.red_black.plan,
        real_plan: v.real.plan,
    }
}
