// What a scan looks into: the probe, the stream, and the tables of the probe; and a window of the stream.
ghost use Rattle.std.specs.Prelude.{◌≡◌, ◌+◌, ◌<◌, ◌≤◌, length, MatchOption};
ghost use Rattle.tables.specs.Suffix.{suffix_at};
ghost use Rattle.tables.specs.Shift.{shift_at};
ghost use Rattle.scans.specs.inside.Ready.{Ready};

// Every place that makes one shows that the sizes are within the limits and the tables those of the probe.
#[derive(Clone, Copy)]
pub(crate) struct Scan<'a> {
    pub probe: &'a [u8],
    pub stream: &'a [u8],
    // Suffix entry then shift entry for each index.
    pub tables: &'a [u16],
    pub occ: &'a [u32; 256],
    ghost ready: { Ready probe.now stream.now tables.now occ.now },
}

// A window of a scan lies in the stream.
#[derive(Clone, Copy)]
pub(crate) struct Window<'a> {
    pub scan: Scan<'a>,
    pub at: usize,
    ghost lies: { at + length scan.probe.now ≤ length scan.stream.now },
}

impl<'a> Scan<'a> {
    // The window at j, where one fits.
    pub(crate) fn window(&self, j: usize) -> Option<Window<'a>>
        requires { j ≤ 33554432 }
        ensures { MatchOption result (length self.now.stream.now < j + length self.now.probe.now) (λ w. (w.scan ≡ self.now) × (w.at ≡ j)) }
    {
        if self.stream.len() < j + self.probe.len() {
            return None;
        }
        Some(Window { scan: *self, at: j })
    }

    // Entry i of the suffix table. The two tables have a reader each, as they have a definition each (`suffix_at`, `shift_at`);
    // one for both would be no plainer.
    pub(crate) fn suffix(&self, i: usize) -> usize
        requires { i < length self.now.probe.now }
        ensures { result ≡ suffix_at self.now.probe.now i }
    {
        usize::from(self.tables[2 * i])
    }

    // Entry i of the shift table.
    pub(crate) fn shift(&self, i: usize) -> usize
        requires { i < length self.now.probe.now }
        ensures { result ≡ shift_at self.now.probe.now i }
    {
        usize::from(self.tables[2 * i + 1])
    }
}
