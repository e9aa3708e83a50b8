//! Numbers in texts that are written.
ghost use Rattle.std.specs.Prelude.{◌≡◌, ◌++◌, OnOk};
ghost use Rattle.dp_text.specs.Labels.{labelled};

use dp_room::{NoMemory, Row};
use itoa::Buffer;

/// A label, and a number right after it, in decimal.
#[tactic(auto, unfolding(crate::specs::Labels::labelled))]
pub fn put_labelled(out: &mut Row<u8>, label: &[u8], n: u64) -> Result<(), NoMemory>
    ensures { OnOk result (out.new ≡ out.old ++ labelled label.now n) }
{
    let mut digits = Buffer::new();
    out.extend_from_slice(label)?;
    out.extend_from_slice(digits.format(n).as_bytes())
}
