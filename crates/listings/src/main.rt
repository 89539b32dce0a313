// Writes the listings of several records. Standard input has the records one after another, each behind the count of its bytes:
// two bytes, the most significant first. rust/generate/src/bin/write-listings.rs writes what stands in `stdin` and `stdout`.
#![tactic(auto)]

use std::io;

// The count in front of a record; none if the input ends there.
fn read_count<R: io::Read>(reader: &mut R) -> io::Result<Option<usize>> {
    let mut count = [0u8; 2];
    let n = input::read(reader, &mut count)?;
    if n < 2 {
        return Ok(None);
    }
    Ok(Some(usize::from(u16::from_be_bytes(count))))
}

// Whether there was one more record, whole, and its listing is written.
fn list_next<R: io::Read, W: io::Write>(
    reader: &mut R,
    writer: &mut W,
    bytes: &mut [u8],
) -> io::Result<bool> {
    let Some(n) = read_count(reader)? else {
        return Ok(false);
    };
    if bytes.len() < n {
        return Ok(false);
    }
    let m = input::read(reader, &mut bytes[..n])?;
    if m < n {
        return Ok(false);
    }
    report::print(&bytes[..n], writer)?;
    Ok(true)
}

// A loop has to end: no input has more records than this.
fn list_all<R: io::Read, W: io::Write>(
    reader: &mut R,
    writer: &mut W,
    bytes: &mut [u8],
) -> io::Result<()> {
    for _ in 0..u64::MAX {
        if !list_next(reader, writer, bytes)? {
            break;
        }
    }
    Ok(())
}

fn main(rt: HostRuntime) -> io::Result<()> {
    let mut bytes = [0u8; 49316];
    list_all(&mut rt.stdin(), &mut rt.stdout(), &mut bytes)
}
