// What a reader gives, read into lent bytes until they are full or it ends.
#![tactic(auto)]

ghost use Rattle.std.specs.Prelude.{ℕ, ◌<◌, length, take, IfOk};
ghost use Rattle.std.specs.Io.{ReadsAtMost};
ghost use Rattle.std.specs.Io.KnownBytes.{Consumes, IsAtEnd};

use std::io;

// Reads until the bytes are full or the input ends; how many bytes were read. They stand in front.
pub fn read<R: io::Read>(reader: &mut R, bytes: &mut [u8]) -> io::Result<usize>
    ensures front { ReadsAtMost result bytes.new }
    ensures taken { IfOk result (λ n. Consumes (R.remaining reader.old) (R.remaining reader.new)
        (take n bytes.new)) }
    ensures whole { IfOk result (λ n. n < length bytes.new → IsAtEnd (R.remaining reader.new)) }
{
    let mut done = 0;
    // A `while`: how much a read gives is the reader's, so that no range tells the turns.
    while done < bytes.len() {
        let more = reader.read(&mut bytes[done..])?;
        if more == 0 {
            break;
        }
        done += more;
    }
    Ok(done)
}
