// A trace's counts.
ghost use Rattle.std.specs.Prelude.{◌≡◌, ◌+◌, ◌-◌, ◌*◌, ◌^◌, ◌<◌};
ghost use Rattle.trace.specs.Trace.{max};
ghost use Rattle.trace.specs.way.Tally.{MorePre};

// Blocks handed out, figures written, blocks out, their bytes, and the highest bytes so far.
#[derive(Clone, Copy)]
pub struct Tally {
    pub at: usize,
    pub written: usize,
    pub out: u64,
    pub bytes: u64,
    pub highest: u64,
}

impl Tally {
    // Before the first word.
    pub const START: Tally = Tally {
        at: 0,
        written: 0,
        out: 0,
        bytes: 0,
        highest: 0,
    };

    // After m more blocks of so many bytes each.
    pub fn with(self, m: u32, size: u64) -> Tally
        requires { MorePre self m size }
        ensures { result ≡ record { at = self.at + m; written = self.written; out = self.out + m; bytes = self.bytes + m * size; highest = max self.highest (self.bytes + m * size) } }
    {
        let bytes = self.bytes + u64::from(m) * size;
        Tally {
            at: self.at + m as usize,
            out: self.out + u64::from(m),
            bytes,
            highest: self.highest.max(bytes),
            ..self
        }
    }

    // After a release of a block of so many bytes.
    pub fn without(self, size: u64) -> Tally
        ensures { result ≡ record { at = self.at; written = self.written; out = self.out - 1; bytes = self.bytes - size; highest = max self.highest (self.bytes - size) } }
    {
        let bytes = self.bytes.saturating_sub(size);
        Tally {
            out: self.out.saturating_sub(1),
            bytes,
            highest: self.highest.max(bytes),
            ..self
        }
    }

    // After a report.
    pub fn reported(self) -> Tally
        requires { self.written + 5 < 2 ^ 64 }
        ensures { result ≡ record { at = self.at; written = self.written + 5; out = self.out; bytes = self.bytes; highest = self.highest } }
    {
        Tally {
            written: self.written + 5,
            ..self
        }
    }
}
