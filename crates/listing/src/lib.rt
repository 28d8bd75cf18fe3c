// What the listing program prints.
#![tactic(auto)]

ghost use Rattle.std.specs.Prelude.{◌≡◌, ◌+◌, ◌*◌, ◌≤◌, length};
ghost use Rattle.answer.specs.Refusals.{number_of};
ghost use Rattle.answer.specs.Space.{Wrote};
ghost use Rattle.records.specs.Words.{room};
ghost use Rattle.report.specs.Text.{refusal_text};
ghost use Rattle.listing.specs.Prints.{printed};

use answer::Refusal;
use list::Listed;
use report::Ending;

// Writes the line of a refusal, and gives its length.
fn put_refused(refusal: Refusal, out: &mut [u8]) -> usize
    requires { 64 ≤ length out.old }
    ensures { Wrote out.old 0 (refusal_text (number_of refusal.cause) refusal.place) out.new result }
{
    report::put_refusal(refusal.cause.number(), refusal.place, out, 0)
}

// Writes what is to be printed of some bytes, with room for as many records as the words hold, and gives its length.
pub fn put_text(bytes: &[u8], records: &mut [u32], work: &mut [u16], out: &mut [u8]) -> usize
    requires { (8192 ≤ length work.old) × (104 * room records.old + 64 ≤ length out.old) }
    ensures { Wrote out.old 0 (printed bytes.now (room records.old)) out.new result }
{
    let groups = match book::check(bytes) {
        Ok(book) => book.groups,
        Err(refusal) => return put_refused(refusal, out),
    };
    match list::list(bytes, records, 0, work) {
        Ok(Listed::Complete { records: count }) => {
            report::put_listing(groups, records, count, Ending::Complete, out)
        }
        Ok(Listed::Stopped { records: count }) => {
            report::put_listing(groups, records, count, Ending::Stopped, out)
        }
        Err(refusal) => put_refused(refusal, out),
    }
}
