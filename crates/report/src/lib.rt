// The listing of a record, as text in a lent area of bytes; and its printing.
#![tactic(auto)]

ghost use Rattle.std.specs.Prelude.{◌-◌, ◌≤◌, ◌≡◌, [], ◌∷◌, ◌++◌, IfErr, OnOk, length, replicate};
ghost use Rattle.std.specs.Io.KnownBytes.{Appends};
ghost use Rattle.planning.specs.Calls.{runnable};
ghost use Rattle.planning.specs.Listing.{listing_of, line, refused_word};
ghost use Rattle.answers.specs.Answers.{number_of};
ghost use Rattle.answers.specs.Plans.{answer_of};
ghost use Rattle.text.specs.Put.{Put};

use answers::{Plan, Refusal};
use std::io;

// How many steps of the planner's list run.
fn running(answer: Result<Plan, Refusal>, plan: &[u16]) -> u32
    requires { length plan.now ≤ 16384 }
    ensures { result ≡ length (runnable (answer_of answer) plan.now) }
{
    let part = planner::runnable(answer, plan);
    part.len() as u32
}

// The line of a refusal, if the answer is one.
fn write_refusal(answer: Result<Plan, Refusal>, out: &mut [u8]) -> usize
    requires { 30 ≤ length out.old }
    ensures { IfErr answer (λ f. Put out.old 0 (line refused_word (number_of f.reason ∷ f.place ∷ [])) out.new result) }
{
    let Err(f) = answer else {
        return 0;
    };
    text::put_refusal(out, f)
}

// The listing, in the front of the bytes; its length.
fn write(bytes: &[u8], out: &mut [u8]) -> usize
    requires { length out.old ≡ 122880 }
    ensures { Put out.old 0 (listing_of bytes.now) out.new result }
{
    let mut plan = [0u16; 16384];
    let mut work = [0u16; 16384];
    let mut marks = [0u8; 16384];
    let answer = planner::plan(bytes, &mut plan, &mut work, &mut marks);
    let Ok(told) = answer else {
        return write_refusal(answer, out);
    };
    let end = lines::put_runs(bytes, &mut work, out);
    let runs = running(answer, &plan);
    let steps = lines::front(&plan, told.steps);
    text::put_result(out, end, told.cost, steps, told.real, runs)
}

// The bytes that every listing fits in: 6 for each of at most 16,384 steps of a plan and 4,032 of a relaxed plan, and 83 more.
pub const AREA: usize = 122880;

// Writes the listing of a record, and zeros behind it; the listing's length.
pub fn report(bytes: &[u8], out: &mut [u8; AREA]) -> usize
    ensures value { result ≡ length (listing_of bytes.now) }
    ensures out_after { out.new ≡ listing_of bytes.now ++ replicate (122880 - length (listing_of bytes.now)) 0 }
{
    let end = write(bytes, out);
    lists::clear_from(out, end);
    end
}

// Writes the listing of a record to a writer.
pub fn print<W: io::Write>(bytes: &[u8], writer: &mut W) -> io::Result<()>
    ensures { OnOk result (Appends (W.contents writer.old) (W.contents writer.new) (listing_of bytes.now)) }
{
    let mut out = [0u8; AREA];
    let n = report(bytes, &mut out);
    writer.write_all(&out[..n])
}
