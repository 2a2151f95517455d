// How close the windows came.
ghost use Rattle.std.specs.Prelude.{◌≡◌, ◌≤◌};
ghost use Rattle.scans.specs.Trace.{equal_by};
ghost use Rattle.scans.specs.inside.Window.{end_of, Within};
ghost use Rattle.scans.specs.inside.Closest.{closer_by};

// The closest window so far: how many trailing bytes of the probe equal the stream there, and where it starts.
#[derive(Clone, Copy)]
pub(crate) struct Closest {
    pub equal: usize,
    pub at: usize,
}

// How many trailing bytes are equal in a window of m bytes that stopped there, or matched.
pub(crate) fn trailing(m: usize, stop: Option<usize>) -> usize
    requires { Within m stop }
    ensures { result ≡ equal_by m (end_of stop) }
{
    match stop {
        Some(i) => m - 1 - i,
        None => m,
    }
}

impl Closest {
    // The closer of the best so far and the window at j with so many bytes equal. Of two as close it is the earlier.
    pub(crate) fn closer(self, equal: usize, j: usize) -> Closest
        ensures { result ≡ closer_by self equal j }
    {
        if self.equal < equal {
            return Closest { equal, at: j };
        }
        self
    }

    // The same for a window of m bytes that stopped there, or matched. Nothing is closer than a match, so where one match
    // follows another, as in a stuck stream, one test for equality is all that it costs. By `closer` alone the remembering
    // scan of two letters took 1.1 times as long.
    pub(crate) fn after(self, m: usize, stop: Option<usize>, j: usize) -> Closest
        requires within { Within m stop }
        requires best { self.equal ≤ m }
        ensures { result ≡ closer_by self (equal_by m (end_of stop)) j }
    {
        let Some(i) = stop else {
            if self.equal == m {
                return self;
            }
            return Closest { equal: m, at: j };
        };
        self.closer(m - 1 - i, j)
    }
}
