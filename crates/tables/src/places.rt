// The occurrence table: for each byte, how far before the last place of the probe it stands last.
ghost use Rattle.std.specs.Prelude.{◌≡◌};
ghost use Rattle.tables.specs.Occurrence.{occurrence_table};

use crate::probe::Probe;

// From the first byte on, so that a later place overwrites an earlier one. The last place does not count.
pub(crate) fn by_byte(x: Probe) -> [u32; 256]
    ensures { result ≡ occurrence_table x.entry.bytes.now }
{
    let last = x.len() - 1;
    let mut t = [x.len() as u32; 256];
    for (j, b) in x.bytes[..last].iter().enumerate() {
        let b = usize::from(*b);
        t[b] = (last - j) as u32;
    }
    t
}
