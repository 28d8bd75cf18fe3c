// The listing program on no bytes (stdin).
// A program of its own, as lister is, since a stored run is a crate with its stdin and stdout.
#![tactic(auto)]

use std::io;

fn main(rt: HostRuntime) -> io::Result<()> {
    listing_run::run(&mut rt.reader(), &mut io::writer(&rt))
}
