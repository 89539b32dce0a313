// Reads a record on standard input and writes its listing. A record has at most 49,315 bytes, so one byte more tells a longer
// input from it: its listing depends on no byte behind (crates/laws/proofs/Listing.antt). Where a read or a write fails, one line on
// standard error says so; after a failed read nothing is listed.
#![tactic(auto)]

ghost use Rattle.std.specs.Prelude.{IfSome, OnOk};
ghost use Rattle.std.specs.Io.KnownBytes.{Appends};
ghost use Rattle.planning.specs.Listing.{listing_of};

use std::io;

// Writes the listing of what the reader gives, all of it, or tells what failed.
fn list<R: io::Read, W: io::Write>(reader: &mut R, writer: &mut W) -> Result<(), &'static str>
    ensures { OnOk result (IfSome (R.remaining reader.old) (λ input.
        Appends (W.contents writer.old) (W.contents writer.new) (listing_of input))) }
{
    let mut bytes = [0u8; 49316];
    let Ok(n) = input::read(reader, &mut bytes) else {
        return Err("listing: reading failed");
    };
    let Ok(()) = report::print(&bytes[..n], writer) else {
        return Err("listing: writing failed");
    };
    Ok(())
}

fn main(rt: HostRuntime) {
    if let Err(message) = list(&mut rt.stdin(), &mut rt.stdout()) {
        let _ = rt.eprintln(message);
    }
}
