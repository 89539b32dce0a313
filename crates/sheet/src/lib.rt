// Plan sheets (clause 8): what a sheet and its round trip are, in specs/ and proofs/, and the checks before one is written or read. A sheet
// is a list of steps with their marks, its cost and its verdict; an edition counts only by the bits of a mark, none or one.
#![tactic(auto)]

ghost use Rattle.std.specs.Prelude.{◌≡◌, Bool, List, ℕ, ◌*◌, ◌≤◌, min, length};
ghost use Rattle.std.proofs.Math.Option.{none};
ghost use Rattle.planning.specs.Basics.{bits_at, answer, refuse_at};
ghost use Rattle.planning.specs.Record.{ends_at};
ghost use Rattle.planning.specs.Sheet.{mark_width, sheet_check, edition_in, steps_in};
ghost use Rattle.planning.specs.Calls.{not_below, write_call, read_call};
ghost use Rattle.answers.specs.Answers.{check_of, value_of};
ghost use Rattle.sheet.specs.Answers.{sheet, reading_as, declined, heading_of, end_check, cut_in};

use answers::{Reason, Refusal};

// What a sheet says of its plan.
#[derive(Clone, Copy, Debug, PartialEq, Eq)]
pub struct Heading {
    pub steps: u32,
    pub cost: u32,
    pub edition: u32,
    pub real: bool,
}

// The bits of a mark: none in edition 1, one in any other (8.6).
pub fn mark_width(edition: u32) -> usize
    ensures { (result ≡ mark_width edition) × (result ≤ 1) }
{
    usize::from(edition != 1)
}

// 13 at the lowest entry that no sheet can hold.
fn check_each(list: &[u16]) -> Result<(), Refusal>
    requires { length list.now ≤ 32768 }
    ensures { check_of result ≡ refuse_at 13 (not_below 1024 0 list.now) }
{
    if let Some(i) = list.iter().position(|x| 1023 < *x) {
        return Err(Refusal {
            reason: Reason::Length,
            place: i as u32,
        });
    }
    Ok(())
}

// 0 only if no entry is over 1,023: a pass without a branch, which most lists need alone.
fn excess(list: &[u16]) -> u16
    ensures { result ≡ 0 → not_below 1024 0 list.now ≡ none }
{
    let mut any: u16 = 0;
    for x in list {
        any = any | *x;
    }
    any / 1024
}

fn check_entries(list: &[u16]) -> Result<(), Refusal>
    requires { length list.now ≤ 32768 }
    ensures { check_of result ≡ refuse_at 13 (not_below 1024 0 list.now) }
{
    if excess(list) == 0 {
        return Ok(());
    }
    check_each(list)
}

// Whether the list can be written into that many bytes: 13, length first, then 11.
pub fn size_for(list: &[u16], edition: u32, room: usize) -> Result<u32, Refusal>
    ensures { (ms : List ℕ) (c : ℕ) (b : Bool) → value_of result ≡ write_call (sheet edition list.now ms c b) room }
{
    if 32768 < list.len() {
        return Err(Refusal {
            reason: Reason::Length,
            place: 32768,
        });
    }
    check_entries(list)?;
    let size = (53 + (mark_width(edition) + 10) * list.len()).div_ceil(8);
    if room < size {
        return Err(Refusal {
            reason: Reason::Room,
            place: room as u32,
        });
    }
    Ok(size as u32)
}

fn refused(place: u32) -> Result<Heading, Refusal>
    ensures { reading_as result ≡ declined 12 place }
{
    Err(Refusal {
        reason: Reason::Sheet,
        place,
    })
}

// the padding is 0 and there is no byte behind it (8.4)
fn ends(bytes: &[u8], end: usize) -> bool
    requires { (end ≤ 8 * length bytes.now) × (end ≤ 400000) }
    ensures { result ≡ ends_at bytes.now end }
{
    let n = bytes.len();
    if n != end.div_ceil(8) {
        return false;
    }
    bits::read_bits(bytes, end, 8 * n - end) == 0
}

fn cost_in(bytes: &[u8]) -> u32
    requires { 7 ≤ length bytes.now }
    ensures { result ≡ bits_at bytes.now 21 32 }
{
    (bits::read_bits(bytes, 21, 16) * 65536 + bits::read_bits(bytes, 37, 16)) as u32
}

// The first bit of the mark or the step that is cut short by the end of so many bits.
fn cut_at(bits: usize, mark: usize) -> usize
    requires { (mark ≤ 1) × (53 ≤ bits) × (bits ≤ 400000) }
    ensures { (result ≡ cut_in mark bits) × (result ≤ bits) }
{
    let held = bits - 53;
    let entry = mark + 10;
    53 + held / entry * entry + mark.min(held % entry)
}

// The steps and what is behind them, of a sheet whose fields before the steps are there.
fn read_end(bytes: &[u8], edition: u32, steps: usize) -> Result<Heading, Refusal>
    requires { (7 ≤ length bytes.now) × (edition ≡ edition_in bytes.now) × (steps ≡ steps_in bytes.now) × (steps ≤ 32768) }
    ensures { reading_as result ≡ answer (end_check bytes.now) (heading_of bytes.now) }
{
    let mark = mark_width(edition);
    let end = 53 + (mark + 10) * steps;
    if bytes.len() < end.div_ceil(8) {
        return refused(cut_at(8 * bytes.len(), mark) as u32);
    }
    if !ends(bytes, end) {
        return refused(end as u32);
    }
    Ok(Heading {
        steps: steps as u32,
        cost: cost_in(bytes),
        edition,
        real: bits::read_bits(bytes, 4, 1) == 1,
    })
}

// The fields of a sheet in bit order: 12.
fn read_fields(bytes: &[u8]) -> Result<Heading, Refusal>
    ensures { reading_as result ≡ answer (sheet_check bytes.now) (heading_of bytes.now) }
{
    if bytes.len() < 1 {
        return refused(0);
    }
    let edition = bits::read_bits(bytes, 0, 4);
    if edition < 1 {
        return refused(0);
    }
    if 2 < edition {
        return refused(0);
    }
    if bytes.len() < 3 {
        return refused(5);
    }
    let steps = bits::read_bits(bytes, 5, 16);
    if 32768 < steps {
        return refused(5);
    }
    if bytes.len() < 7 {
        return refused(21);
    }
    read_end(bytes, edition as u32, steps as usize)
}

// 12, then 11 with the room of list and marks.
pub fn read_checked(bytes: &[u8], room: usize) -> Result<Heading, Refusal>
    ensures { (n m : ℕ) → room ≡ min n m → reading_as result ≡ read_call bytes.now n m }
{
    let heading = read_fields(bytes)?;
    if room < heading.steps as usize {
        return Err(Refusal {
            reason: Reason::Room,
            place: room as u32,
        });
    }
    Ok(heading)
}
