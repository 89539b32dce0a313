// Reading a sheet: its checks, then its steps and its marks in front of what the caller lends, and the rest of that overwritten.
#![tactic(auto)]

ghost use Rattle.std.specs.Prelude.{◌≡◌, ◌++◌, ◌+◌, ◌-◌, ◌*◌, ◌≤◌};
ghost use Rattle.std.proofs.Math.ListN.{length, take, replicate};
ghost use Rattle.planning.specs.Basics.{done};
ghost use Rattle.planning.specs.Sheet.{steps_at, marks_at};
ghost use Rattle.planning.specs.Calls.{Read, read_call, read_list, read_marks};
ghost use Rattle.sheet.specs.Answers.{handed_out, reading_as};
ghost use Rattle.sheet.specs.Again.{WritesAs};

use answers::Refusal;
use sheet::Heading;

// The steps of a sheet in front of the list, its marks in front of the area and zeros behind them; in edition 1 zeros throughout.
fn unfold(bytes: &[u8], mark: usize, steps: usize, list: &mut [u16], marks: &mut [u8])
    requires { (mark ≤ 1) × (steps ≤ 32768) × (steps ≤ length list.old) × (steps ≤ length marks.old) × (53 + (mark + 10) * steps ≤ 8 * length bytes.now) }
    ensures list_after { take steps list.new ≡ steps_at bytes.now mark 53 steps }
    ensures marks_after { marks.new ≡ marks_at bytes.now mark 53 steps ++ replicate (length marks.old - steps) 0 }
{
    if mark == 0 {
        unpack::read_steps(bytes, steps, list);
        lists::clear(marks);
        return;
    }
    unpack::read_marked(bytes, steps, list, marks);
    lists::clear_from(marks, steps);
}

// Reads a sheet: what it says of its plan, the plan in the front of the list and 65,535 behind, its marks in the front of the mark area and 0
// behind; after a refusal 65,535 and 0 throughout.
pub fn read(bytes: &[u8], list: &mut [u16], marks: &mut [u8]) -> Result<Heading, Refusal>
    ensures result_value { reading_as result ≡ read_call bytes.now (length list.old) (length marks.old) }
    ensures list_after { list.new ≡ read_list bytes.now (length list.old) (length marks.old) }
    ensures marks_after { marks.new ≡ read_marks bytes.now (length list.old) (length marks.old) }
    ensures writes_as { (h : Read) → reading_as result ≡ done h → WritesAs (handed_out h list.new marks.new) bytes.now }
{
    let answer = sheet::read_checked(bytes, list.len().min(marks.len()));
    let Ok(heading) = answer else {
        lists::blank(list);
        lists::clear(marks);
        return answer;
    };
    let count = heading.steps as usize;
    let mark = sheet::mark_width(heading.edition);
    unfold(bytes, mark, count, list, marks);
    lists::blank_from(list, count);
    answer
}
