// What a listing takes from the answers of the calls: its first two lines, by the forward run and the relaxed plan; and, for the line that the
// planner's answer gives, the first entries of a list.
#![tactic(auto)]

ghost use Rattle.std.specs.Prelude.{◌≤◌, ◌≡◌, length, take};
ghost use Rattle.planning.specs.Calls.{forward_call, relax_call, relax_list};
ghost use Rattle.text.specs.Put.{Put};
ghost use Rattle.lines.specs.Answers.{facts_in, steps_in, runs_text};

// The first n entries.
pub fn front<'a>(list: &'a [u16], n: u32) -> &'a [u16]
    ensures { (result.now ≡ take n list.now) × (length result.now ≤ n) × (length result.now ≤ length list.now) }
{
    &list[..list.len().min(n as usize)]
}

// The facts that the forward run reaches; its actions are left in the list.
fn reached(bytes: &[u8], list: &mut [u16]) -> u32
    ensures { result ≡ facts_in (forward_call bytes.now (length list.old)) }
{
    let Ok(run) = forward::forward(bytes, list) else {
        return 0;
    };
    run.reached
}

// The relaxed plan in the front of the list; its steps.
fn relaxed(bytes: &[u8], list: &mut [u16]) -> u32
    ensures { (result ≡ steps_in (relax_call bytes.now (length list.old))) × (list.new ≡ relax_list bytes.now (length list.old)) }
{
    let Ok(n) = relax::relax(bytes, list) else {
        return 0;
    };
    n
}

// The first two lines: the facts reached, and the relaxed plan. The list serves both.
pub fn put_runs(bytes: &[u8], list: &mut [u16], out: &mut [u8]) -> usize
    requires { (steps_in (relax_call bytes.now (length list.old)) ≤ 4032) × (24234 ≤ length out.old) }
    ensures { Put out.old 0 (runs_text bytes.now (length list.old)) out.new result × (result ≤ 24230) }
{
    let end = text::put_line(out, 0, b"reached", reached(bytes, list));
    let n = relaxed(bytes, list);
    text::put_relaxed(out, end, front(list, n))
}
