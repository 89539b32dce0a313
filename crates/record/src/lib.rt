// The check of a record: 1 to 6 in the order of clause 2.9. A whole variable, the two counts of an action and four facts at a time are read in
// one load and tested quickly. Where such a test fails, the fields are gone through one by one, and the first refusal is handed on with its
// place. The loader of the task uses the quick tests too.
#![tactic(auto)]

ghost use Rattle.std.specs.Prelude.{◌≡◌, true, ◌+◌, ◌*◌, ◌/◌, ◌<◌, ◌≤◌, length, IfSome, MatchOption, OnOk};
ghost use Rattle.std.specs.Bool.{Decides};
ghost use Rattle.std.proofs.Math.Option.{none};
ghost use Rattle.planning.specs.Basics.{answer, done, in_order, bits_at};
ghost use Rattle.planning.specs.Record.{variables_in, action_end, actions_end, record_end};
ghost use Rattle.planning.specs.Record.{field_check, variable_checks, variables_checks, fact_checks, facts_checks, action_checks, actions_checks, record_check};
ghost use Rattle.answers.specs.Answers.{check_of, value_of};
ghost use Rattle.record.specs.Stages.{from_end, Counts, Windows, Known, Few, Unsound, SoundHeader, SoundVariable, Sound};

use answers::{Reason, Refusal};

// The variables of a record that are checked: how many, and the count of values of each, 0 behind them.
#[derive(Clone, Copy)]
struct Variables {
    count: u32,
    values: [u8; 64],
}

// A field, or refusal 1 at its first bit.
fn take(bytes: &[u8], at: u32, width: usize) -> Result<u32, Refusal>
    requires { (at ≤ 500000) × (width ≤ 25) }
    ensures { value_of result ≡ answer (field_check bytes.now at width) (bits_at bytes.now at width) }
{
    if bytes.len() < (at as usize + width + 7) / 8 {
        return Err(Refusal {
            reason: Reason::Cut,
            place: at,
        });
    }
    Ok(bits::read_bits(bytes, at as usize, width) as u32)
}

// The end of the record (2.6): padding of zeros, no byte too many or too few.
pub fn check_end(bytes: &[u8], at: u32) -> Result<(), Refusal>
    requires { (at ≤ 500000) × (at ≡ record_end bytes.now) }
    ensures { check_of result ≡ in_order (from_end bytes.now) }
{
    let size = (at as usize + 7) / 8;
    if bytes.len() != size || bits::read_bits(bytes, at as usize, size * 8 - at as usize) != 0 {
        return Err(Refusal {
            reason: Reason::End,
            place: at,
        });
    }
    Ok(())
}

// The fact at bit `at`, field by field, whose variable is to be at least `low`: its variable.
fn check_fact(bytes: &[u8], at: u32, low: u32, variables: &Variables) -> Result<u32, Refusal>
    requires { (at ≤ 400000) × Known bytes.now variables.now.count variables.now.values }
    ensures { value_of result ≡ answer (in_order (fact_checks bytes.now at low)) (bits_at bytes.now at 6) }
{
    let v = take(bytes, at, 6)?;
    if variables.count <= v || v < low {
        return Err(Refusal {
            reason: Reason::Variable,
            place: at,
        });
    }
    let value = take(bytes, at + 6, 6)?;
    if variables.values[v as usize] <= (value % 64) as u8 {
        return Err(Refusal {
            reason: Reason::Value,
            place: at + 6,
        });
    }
    Ok(v)
}

// `count` facts from bit `from` on: the bit behind them.
fn check_facts(bytes: &[u8], from: u32, count: u32, variables: &Variables) -> Result<u32, Refusal>
    requires { (from ≤ 399000) × (count ≤ 15) × Known bytes.now variables.now.count variables.now.values }
    ensures { value_of result ≡ answer (in_order (facts_checks bytes.now from 0 count)) (from + 12 * count) }
{
    let mut low = 0;
    for i in 0..count {
        let v = check_fact(bytes, from + 12 * i, low, variables)?;
        low = v + 1;
    }
    Ok(from + 12 * count)
}

// The action at bit `at`, field by field: the bit behind it.
fn check_action_fields(bytes: &[u8], at: u32, variables: &Variables) -> Result<u32, Refusal>
    requires { (at ≤ 398000) × Known bytes.now variables.now.count variables.now.values }
    ensures { value_of result ≡ answer (in_order (action_checks bytes.now at)) (action_end bytes.now at) }
{
    take(bytes, at, 16)?;
    let pre = take(bytes, at + 16, 4)?;
    let eff = take(bytes, at + 20, 4)?;
    let mid = check_facts(bytes, at + 24, pre, variables)?;
    check_facts(bytes, mid, eff, variables)
}

// The least variable that may follow a fact of 12 bits, if it is sound: its variable at least `low`, its value below that variable's
// count, which is 0 for no variable of the task.
fn sound(fact: u64, low: u64, counts: &[u8; 64]) -> Option<u64>
    requires { fact < 4096 }
    ensures { MatchOption result (Sound counts.now fact low → ⊥) (λ next. Sound counts.now fact low × (next ≡ fact / 64 + 1)) }
{
    let v = fact / 64;
    if v < low || counts[v as usize] <= (fact % 64) as u8 {
        return None;
    }
    Some(v + 1)
}

// The first n facts of a window, of which there are four: the least variable that may follow them, if each is sound.
pub fn sound_few(w: u64, n: usize, low: u64, counts: &[u8; 64]) -> Option<u64>
    requires { (1 ≤ n) × (n ≤ 4) }
    ensures { MatchOption result (Unsound w n low counts.now) (λ next. Few w n low counts.now next) }
{
    let a = sound((w >> 52) % 4096, low, counts)?;
    if n == 1 {
        return Some(a);
    }
    let b = sound((w >> 40) % 4096, a, counts)?;
    if n == 2 {
        return Some(b);
    }
    let c = sound((w >> 28) % 4096, b, counts)?;
    if n == 3 {
        return Some(c);
    }
    sound((w >> 16) % 4096, c, counts)
}

// Whether `count` facts from bit `from` on are sound: four to a window.
fn sound_windows<W: Fn(&[u8], usize) -> u64>(
    bytes: &[u8],
    from: usize,
    count: usize,
    counts: &[u8; 64],
    window: W,
) -> bool
    requires bounds { (from ≤ 399000) × (count ≤ 15) × (from + 12 * count ≤ 8 * length bytes.now) × Counts bytes.now counts.now (variables_in bytes.now) }
    requires windows { Windows W.pre W.post window bytes.now from count }
    ensures { result ≡ true → in_order (facts_checks bytes.now from 0 count) ≡ none }
{
    let mut at = from;
    let mut left = count;
    let mut low = 0;
    // A `for` over the full windows was slower: most lists have none.
    while 4 < left {
        let Some(next) = sound_few(window(bytes, at), 4, low, counts) else {
            return false;
        };
        low = next;
        at += 48;
        left -= 4;
    }
    left == 0 || sound_few(window(bytes, at), left, low, counts).is_some()
}

// Whether `count` facts from bit `from` on are there and sound. Where eight bytes are left from where they end, a window is at hand from
// each byte on.
fn sound_facts(bytes: &[u8], from: usize, count: usize, counts: &[u8; 64]) -> bool
    requires { (8 ≤ length bytes.now) × (from ≤ 399000) × (count ≤ 15) × Counts bytes.now counts.now (variables_in bytes.now) }
    ensures { result ≡ true → in_order (facts_checks bytes.now from 0 count) ≡ none }
{
    if (from + 12 * count) / 8 + 8 <= bytes.len() {
        return sound_windows(bytes, from, count, counts, |bytes, at| {
            bits::window_from(bytes, at / 8, at % 8)
        });
    }
    if bytes.len() < (from + 12 * count + 7) / 8 {
        return false;
    }
    sound_windows(bytes, from, count, counts, bits::window_at)
}

// The bit behind the action at bit `at`, if all of it is there and sound.
fn sound_action(bytes: &[u8], at: usize, counts: &[u8; 64]) -> Option<usize>
    requires { (at ≤ 398000) × Counts bytes.now counts.now (variables_in bytes.now) }
    ensures { IfSome result (λ end. (in_order (action_checks bytes.now at) ≡ none) × (end ≡ action_end bytes.now at)) }
{
    if bytes.len() < 8 || bytes.len() < (at + 31) / 8 {
        return None;
    }
    let both = bits::window_at(bytes, at + 16) >> 56;
    let pre = (both / 16) as usize;
    let eff = (both % 16) as usize;
    if sound_facts(bytes, at + 24, pre, counts)
        && sound_facts(bytes, at + 24 + 12 * pre, eff, counts)
    {
        return Some(at + 24 + 12 * (pre + eff));
    }
    None
}

// The action at bit `at`: the bit behind it.
fn check_action(bytes: &[u8], at: u32, variables: &Variables) -> Result<u32, Refusal>
    requires { (at ≤ 398000) × Known bytes.now variables.now.count variables.now.values }
    ensures { value_of result ≡ answer (in_order (action_checks bytes.now at)) (action_end bytes.now at) }
{
    let Some(end) = sound_action(bytes, at as usize, &variables.values) else {
        return check_action_fields(bytes, at, variables);
    };
    Ok(end as u32)
}

// All actions, from the bit behind the variables on: the bit behind them.
fn check_actions(bytes: &[u8], count: u32, variables: &Variables) -> Result<u32, Refusal>
    requires { (count ≤ 1024) × Known bytes.now variables.now.count variables.now.values }
    ensures { value_of result ≡ answer (in_order (actions_checks bytes.now (22 + 20 * variables.now.count) count)) (actions_end bytes.now (22 + 20 * variables.now.count) count) }
{
    let mut at = 22 + 20 * variables.count;
    for _ in 0..count {
        at = check_action(bytes, at, variables)?;
    }
    Ok(at)
}

// The variable at bit `at`, field by field: its greatest value.
fn check_variable_fields(bytes: &[u8], at: u32) -> Result<u32, Refusal>
    requires { at ≤ 2000 }
    ensures { value_of result ≡ answer (in_order (variable_checks bytes.now at)) (bits_at bytes.now at 6) }
{
    let last = take(bytes, at, 6)?;
    take(bytes, at + 6, 1)?;
    let initial = take(bytes, at + 7, 6)?;
    if last < initial {
        return Err(Refusal {
            reason: Reason::Value,
            place: at + 7,
        });
    }
    let present = take(bytes, at + 13, 1)?;
    let goal = take(bytes, at + 14, 6)?;
    if last * present < goal {
        return Err(Refusal {
            reason: Reason::Value,
            place: at + 14,
        });
    }
    Ok(last)
}

// Whether the 20 bits of a variable are sound: its initial value and its goal are not above its greatest value, and without a
// goal its value is 0.
pub fn is_sound_variable(fields: u64) -> bool
    requires { fields < 1048576 }
    ensures { Decides result (SoundVariable fields) }
{
    let last = fields / 16384;
    fields / 128 % 64 <= last && fields % 64 <= last * (fields / 64 % 2)
}

// Whether the 22 bits of a header are sound: edition 1, 1 to 64 variables, at most 1,024 actions.
pub fn is_sound_header(fields: u64) -> bool
    ensures { Decides result (SoundHeader fields) }
{
    let variables = fields / 2048 % 128;
    fields / 262144 == 1 && 1 <= variables && variables <= 64 && fields % 2048 <= 1024
}

// The greatest value of the variable at bit `at`, if all of it is there and sound.
fn sound_variable(bytes: &[u8], at: usize) -> Option<u32>
    requires { at ≤ 2000 }
    ensures { IfSome result (λ last. done last ≡ answer (in_order (variable_checks bytes.now at)) (bits_at bytes.now at 6)) }
{
    if bytes.len() < 8 || bytes.len() < (at + 27) / 8 {
        return None;
    }
    let fields = bits::window_at(bytes, at) >> 44;
    if !is_sound_variable(fields) {
        return None;
    }
    Some((fields / 16384) as u32)
}

// The variable at bit `at`: its greatest value.
fn check_variable(bytes: &[u8], at: u32) -> Result<u32, Refusal>
    requires { at ≤ 2000 }
    ensures { value_of result ≡ answer (in_order (variable_checks bytes.now at)) (bits_at bytes.now at 6) }
{
    let Some(last) = sound_variable(bytes, at as usize) else {
        return check_variable_fields(bytes, at);
    };
    Ok(last)
}

// All variables: the count of values of each goes to `counts`, which is 0 behind them.
fn check_variables(bytes: &[u8], count: u32, counts: &mut [u8; 64]) -> Result<(), Refusal>
    requires { (count ≤ 64) × (length counts.old ≡ 64) × Counts bytes.now counts.old 0 }
    ensures answer { check_of result ≡ in_order (variables_checks bytes.now 22 count) }
    ensures counts { OnOk result (Counts bytes.now counts.new count) }
{
    for i in 0..count {
        let last = check_variable(bytes, 22 + 20 * i)?;
        counts[i as usize] = ((last + 1) % 256) as u8;
    }
    Ok(())
}

// The check of a record: accepted, or its refusal with its place.
pub fn check(bytes: &[u8]) -> Result<(), Refusal>
    ensures { check_of result ≡ record_check bytes.now }
{
    let edition = take(bytes, 0, 4)?;
    if edition != 1 {
        return Err(Refusal {
            reason: Reason::Edition,
            place: 0,
        });
    }
    let count = take(bytes, 4, 7)?;
    if count < 1 || 64 < count {
        return Err(Refusal {
            reason: Reason::Size,
            place: 4,
        });
    }
    let actions = take(bytes, 11, 11)?;
    if 1024 < actions {
        return Err(Refusal {
            reason: Reason::Size,
            place: 11,
        });
    }
    let mut values = [0u8; 64];
    check_variables(bytes, count, &mut values)?;
    let end = check_actions(bytes, actions, &Variables { count, values })?;
    check_end(bytes, end)
}
