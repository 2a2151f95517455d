// From one window to the next.
ghost use Rattle.std.specs.Prelude.{◌≡◌, ◌≤◌, length};
ghost use Rattle.scans.specs.Move.{move};
ghost use Rattle.scans.specs.inside.Window.{end_of, Within};

use crate::scan::Window;

impl Window<'_> {
    // The move after the window, which stopped there, or matched. Reading a stream byte as an index of the occurrence
    // table compares nothing; where its move would be negative, it counts as 0.
    pub(crate) fn advance(&self, stop: Option<usize>) -> usize
        requires { Within (length self.now.scan.probe.now) stop }
        ensures value { result ≡ move self.now.scan.probe.now self.now.scan.stream.now self.now.at (end_of stop) }
        ensures bounds { (1 ≤ result) × (result ≤ length self.now.scan.probe.now) }
    {
        let Some(i) = stop else {
            let period = self.scan.shift(0);
            return period;
        };
        let by_shift = self.scan.shift(i);
        let b = usize::from(self.scan.stream[self.at + i]);
        let by_byte = (self.scan.occ[b] as usize).saturating_sub(self.scan.probe.len() - 1 - i);
        by_shift.max(by_byte)
    }
}
