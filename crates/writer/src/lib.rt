// Writing a sheet into bytes that the caller lends, eight entries a turn: they fill as many bytes as one of them has bits, so that each
// eight starts behind five bits of what was before.
#![tactic(auto)]

ghost use Rattle.std.specs.Prelude.{◌≡◌, ◌++◌, ℕ, suc, ◌+◌, ◌-◌, ◌*◌, ◌^◌, ◌<◌, ◌≤◌, length, take};
ghost use Rattle.planning.specs.Basics.{done};
ghost use Rattle.planning.specs.Sheet.{bits_of, packed, step_bits, sheet_size};
ghost use Rattle.planning.specs.Calls.{write_call, write_bytes};
ghost use Rattle.answers.specs.Answers.{value_of};
ghost use Rattle.sheet.specs.Answers.{sheet};
ghost use Rattle.sheet.specs.Again.{ReadsAs};
ghost use Rattle.pack.specs.Fields.{AllSteps, eight_bits};

use answers::Refusal;
use pack::Eight;

// Eight entries behind five bits: as many bytes as an entry has bits, and five bits more. Each word is one store of eight bytes; the second
// starts before the first one ends, and has the same bits there.
fn write_eight<const MARK: usize>(bytes: &mut [u8], at: usize, five: u64, e: Eight)
    requires { (MARK ≤ 1) × (at + MARK + 11 ≤ length bytes.old) × (five < 32) × (e.first < 2 ^ (4 * (MARK + 10))) × (e.second < 2 ^ (4 * (MARK + 10))) }
    ensures { take (at + (MARK + 10)) bytes.new ≡ take at bytes.old ++ packed (MARK + 10) (eight_bits MARK five e.first e.second) }
{
    bits::put_word(bytes, at, pack::first_word::<MARK>(five, e.first));
    bits::put_word(
        bytes,
        at + MARK + 3,
        pack::second_word::<MARK>(e.first, e.second),
    );
}

// The same by fewer bytes.
fn write_last<const MARK: usize>(bytes: &mut [u8], at: usize, count: usize, five: u64, e: Eight)
    requires { (MARK ≤ 1) × (count ≤ MARK + 10) × (at + count ≤ length bytes.old) × (five < 32) × (e.first < 2 ^ (4 * (MARK + 10))) × (e.second < 2 ^ (4 * (MARK + 10))) }
    ensures { take (at + count) bytes.new ≡ take at bytes.old ++ packed count (eight_bits MARK five e.first e.second) }
{
    let n = count.min(MARK + 3);
    bits::write_bits(bytes, at, pack::first_word::<MARK>(five, e.first), 64, n);
    bits::write_bits(
        bytes,
        at + n,
        pack::second_word::<MARK>(e.first, e.second),
        64,
        count - n,
    );
}

// The steps and their marks behind the last five bits of the front.
fn write_entries<const MARK: usize>(
    list: &[u16],
    marks: &[u8],
    head: u64,
    size: usize,
    bytes: &mut [u8],
)
    requires { (MARK ≤ 1) × AllSteps list.now × (length list.now ≤ 32768) × (size ≡ sheet_size (suc MARK) (length list.now)) × (size ≤ length bytes.old) }
    ensures { take size bytes.new ≡ take 6 bytes.old ++ packed (size - 6) (bits_of 5 head ++ step_bits (suc MARK) list.now marks.now) }
{
    let eights = list.len() / 8;
    let mut five = head % 32;
    let mut at: usize = 6;
    for k in 0..eights {
        let e = pack::eight_at::<MARK>(list, marks, 8 * k);
        write_eight::<MARK>(bytes, at, five, e);
        five = e.second % 32;
        at += MARK + 10;
    }
    let e = pack::any_eight::<MARK>(list, marks, 8 * eights);
    write_last::<MARK>(bytes, at, size - at, five, e);
}

// The same where the bits of a mark are known when it runs.
fn write_steps(list: &[u16], marks: &[u8], mark: usize, head: u64, size: usize, bytes: &mut [u8])
    requires { (mark ≤ 1) × AllSteps list.now × (length list.now ≤ 32768) × (size ≡ sheet_size (suc mark) (length list.now)) × (size ≤ length bytes.old) }
    ensures { take size bytes.new ≡ take 6 bytes.old ++ packed (size - 6) (bits_of 5 head ++ step_bits (suc mark) list.now marks.now) }
{
    if mark == 0 {
        return write_entries::<0>(list, marks, head, size, bytes);
    }
    write_entries::<1>(list, marks, head, size, bytes);
}

// Writes the sheet of a list with its marks, an edition, a cost and a verdict: the count of its bytes, zeros behind it, and zeros throughout
// after a refusal.
pub fn write(
    list: &[u16],
    marks: &[u8],
    edition: u32,
    cost: u32,
    real: bool,
    bytes: &mut [u8],
) -> Result<u32, Refusal>
    ensures result_value { value_of result ≡ write_call (sheet edition list.now marks.now cost real) (length bytes.old) }
    ensures bytes_after { bytes.new ≡ write_bytes (sheet edition list.now marks.now cost real) (length bytes.old) }
    ensures by_index { (n : ℕ) → value_of result ≡ done n → ReadsAs (take n bytes.new) (sheet edition list.now marks.now cost real) }
{
    let answer = sheet::size_for(list, edition, bytes.len());
    let Ok(n) = answer else {
        lists::clear(bytes);
        return answer;
    };
    let size = n as usize;
    let mark = sheet::mark_width(edition);
    let head = pack::front(mark, list.len() as u16, cost, real);
    bits::write_bits(bytes, 0, head, 53, 6);
    write_steps(list, marks, mark, head, size, bytes);
    lists::clear_from(bytes, size);
    answer
}
