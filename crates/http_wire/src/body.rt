ghost use Rattle.std.specs.Prelude.{◌≤◌};
ghost use Rattle.http_wire.specs.Taking.{GathersTo};

use crate::{Kept, WireFault};
use flow_base::Source;

// Keeps pieces of the source until `want` bytes are there.
pub(crate) fn gather_to<S: Source>(
    source: &mut S,
    kept: &mut Kept,
    want: usize,
) -> Result<(), WireFault>
    ensures gathers { GathersTo want kept.old kept.new (S.left source.old) (S.left source.new)
        (S.faults source.old) (S.faults source.new) result }
    ensures later { S.faults source.old ≤ S.faults source.new }
{
    'pieces: while kept.as_slice().len() < want {
        match kept.fill(source) {
            Err(fault) => return Err(fault),
            Ok(count) => {
                if count == 0 {
                    return Err(WireFault::Cut(kept.as_slice().len() as u64));
                }
            }
        }
    }
    Ok(())
}
