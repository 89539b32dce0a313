// How long a list the loaded task of a record needs. It is told before the record is read, so that a small store clears little.
#![tactic(auto)]

ghost use Rattle.std.specs.Prelude.{◌≡◌, ◌≤◌};
ghost use Rattle.std.proofs.Math.Option.{none};
ghost use Rattle.planning.specs.Record.{record_check};
ghost use Rattle.task_size.specs.Size.{task_size};

// Lengths of a list for a loaded task; one of LONG numbers is enough for every record.
pub const LEAST: usize = 2048;

pub const TINY: usize = 3072;

pub const SHORT: usize = 9280;

pub const LONG: usize = 40260;

// A length that is enough for an accepted record, by its header and its number of bytes: an action takes 24 bits and 4 numbers, a fact
// 12 bits and one, a variable 20 bits and 64. No record has more than 49,315 bytes.
pub fn room_for(bytes: &[u8]) -> usize
    ensures { record_check bytes.now ≡ none → task_size bytes.now ≤ result }
{
    let n = bytes.len();
    if n < 3 {
        return 0;
    }
    if 49315 < n {
        return LONG;
    }
    let head = bits::read_bits(bytes, 0, 22);
    let variables = (head / 2048 % 128) as usize;
    let count = (head % 2048) as usize;
    (16154 + 748 * variables + 24 * count + 8 * n) / 12
}
