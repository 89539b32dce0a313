// Text in lent bytes: words, numbers, and the lines of a listing. Each function writes from the place `at` on and answers where
// its text ends.
#![tactic(auto)]

ghost use Rattle.std.specs.Prelude.{◌+◌, ◌*◌, ◌≤◌, ◌<◌, [], ◌∷◌, ◌++◌, ◌≡◌, length};
ghost use Rattle.planning.specs.Listing.{numbers, line, relaxed_word, plan_word, refused_word, verdict_word};
ghost use Rattle.answers.specs.Answers.{number_of};
ghost use Rattle.text.specs.Put.{Put};

use answers::Refusal;

// The word in the text from `at` on; where it ends.
fn put(out: &mut [u8], at: usize, word: &[u8]) -> usize
    requires { at + length word.now ≤ length out.old }
    ensures { Put out.old at word.now out.new result }
{
    let end = at + word.len();
    out[at..end].copy_from_slice(word);
    end
}

// A space and a number: 11 bytes at most, and 6 for a number of five digits.
fn put_number(out: &mut [u8], at: usize, n: u32) -> usize
    requires { at + 11 ≤ length out.old }
    ensures { Put out.old at (numbers (n ∷ [])) out.new result × (result ≤ at + 11) × (n < 100000 → result ≤ at + 6) }
{
    let start = put(out, at, b" ");
    let mut digits = [0u8; 20];
    let k = io::decimal(u64::from(n), &mut digits);
    put(out, start, &digits[..k])
}

// The numbers of a list.
fn put_list(out: &mut [u8], at: usize, list: &[u16]) -> usize
    requires { at + 6 * length list.now + 5 ≤ length out.old }
    ensures { Put out.old at (numbers list.now) out.new result × (result ≤ at + 6 * length list.now) }
{
    let mut end = at;
    for n in list {
        end = put_number(out, end, u32::from(*n));
    }
    end
}

// A line up to its first number.
fn put_head(out: &mut [u8], at: usize, word: &[u8], n: u32) -> usize
    requires { (length word.now ≤ 7) × (at + 18 ≤ length out.old) }
    ensures { Put out.old at (word.now ++ numbers (n ∷ [])) out.new result × (result ≤ at + 18) }
{
    let end = put(out, at, word);
    put_number(out, end, n)
}

// A line of one number.
pub fn put_line(out: &mut [u8], at: usize, word: &[u8], n: u32) -> usize
    requires { (length word.now ≤ 7) × (at + 19 ≤ length out.old) }
    ensures { Put out.old at (line word.now (n ∷ [])) out.new result × (result ≤ at + 19) }
{
    let end = put_head(out, at, word, n);
    put(out, end, b"\n")
}

// The rest of a line: a list.
fn put_rest(out: &mut [u8], at: usize, list: &[u16]) -> usize
    requires { at + 6 * length list.now + 5 ≤ length out.old }
    ensures { Put out.old at (numbers list.now ++ (10 ∷ [])) out.new result × (result ≤ at + 6 * length list.now + 1) }
{
    let end = put_list(out, at, list);
    put(out, end, b"\n")
}

// The line of the relaxed plan.
pub fn put_relaxed(out: &mut [u8], at: usize, list: &[u16]) -> usize
    requires { (length list.now ≤ 4032) × (at + 24215 ≤ length out.old) }
    ensures { Put out.old at (line relaxed_word (length list.now ∷ list.now)) out.new result × (result ≤ at + 24211) }
{
    let end = put_head(out, at, b"relaxed", list.len() as u32);
    put_rest(out, end, list)
}

// The line of the plan.
fn put_plan(out: &mut [u8], at: usize, cost: u32, list: &[u16]) -> usize
    requires { (length list.now ≤ 16384) × (at + 98338 ≤ length out.old) }
    ensures { Put out.old at (line plan_word (length list.now ∷ cost ∷ list.now)) out.new result × (result ≤ at + 98334) }
{
    let steps = put_head(out, at, b"plan", list.len() as u32);
    let end = put_number(out, steps, cost);
    put_rest(out, end, list)
}

// The last line: whether the plan is real, and the steps that run.
fn put_verdict(out: &mut [u8], at: usize, real: bool, runs: u32) -> usize
    requires { at + 19 ≤ length out.old }
    ensures { Put out.old at (line (verdict_word real) (runs ∷ [])) out.new result }
{
    if real {
        return put_line(out, at, b"real", runs);
    }
    put_line(out, at, b"unreal", runs)
}

// The last two lines: the plan, and what its steps come to.
pub fn put_result(
    out: &mut [u8],
    at: usize,
    cost: u32,
    list: &[u16],
    real: bool,
    runs: u32,
) -> usize
    requires { (length list.now ≤ 16384) × (at + 98353 ≤ length out.old) }
    ensures { Put out.old at (line plan_word (length list.now ∷ cost ∷ list.now) ++ line (verdict_word real) (runs ∷ [])) out.new result }
{
    let end = put_plan(out, at, cost, list);
    put_verdict(out, end, real, runs)
}

// The line of a refusal: its number and its place.
pub fn put_refusal(out: &mut [u8], f: Refusal) -> usize
    requires { 30 ≤ length out.old }
    ensures { Put out.old 0 (line refused_word (number_of f.reason ∷ f.place ∷ [])) out.new result }
{
    let number = put_head(out, 0, b"refused", u32::from(u8::from(f.reason)));
    let place = put_number(out, number, f.place);
    put(out, place, b"\n")
}
