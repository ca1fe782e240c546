ghost use Rattle.std.specs.Prelude.{◌≡◌, ◌≤◌, ◌==◌, Ok, Err, None, if◌then◌else◌};
ghost use Rattle.http_wire.specs.Taking.{Gathers};
ghost use Rattle.http_wire.specs.declared.faults.WireFault.TheVariants as fault;

use crate::empty_line::empty_line_end;
use crate::{Kept, WireFault};
use flow_base::Source;

const MOST_OF_A_HEAD: usize = 16384;

// Keeps pieces of the source until a whole head is there, and says its length; None where the input
// ends with nothing kept. Looks for the empty line in each byte once.
pub(crate) fn gather_head<S: Source>(
    source: &mut S,
    kept: &mut Kept,
) -> Result<Option<usize>, WireFault>
    ensures gathers { Gathers kept.old kept.new (S.left source.old) (S.left source.new)
        (S.faults source.old) (S.faults source.new) result }
    ensures later { S.faults source.old ≤ S.faults source.new }
{
    let mut seen: usize = 0;
    'pieces: loop {
        let there = kept.as_slice().len();
        let most = there.min(MOST_OF_A_HEAD);
        if let Some(at) = empty_line_end(kept.as_slice(), seen, most) {
            return Ok(Some(at + 1));
        }
        if there > MOST_OF_A_HEAD {
            return Err(WireFault::TooLong(there as u64));
        }
        seen = there;
        match kept.fill(source) {
            Err(fault) => return Err(fault),
            Ok(count) => {
                if count == 0 {
                    return end_of_input(there);
                }
            }
        }
    }
}

fn end_of_input(there: usize) -> Result<Option<usize>, WireFault>
    ensures { result ≡ (if there == 0 then Ok None else Err (fault.Cut there)) }
{
    if there == 0 {
        Ok(None)
    } else {
        Err(WireFault::Cut(there as u64))
    }
}
