// Reads a rule book from standard input and prints its listing, with room for 4,096 records: the header's groups, a line for each record, and
// whether the listing is complete. A book that is refused gives one line: refused, the number, the place.
#![tactic(auto)]

use std::io;

fn main(rt: HostRuntime) -> io::Result<()> {
    listing_run::run(&mut rt.reader(), &mut io::writer(&rt))
}
