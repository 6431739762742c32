// The host word, made and taken apart.
ghost use Rattle.std.specs.Prelude.{◌≡◌, ◌<◌};
ghost use Rattle.words.specs.Host.{bit, host_bits, bad_host, host_word, reservation_granted, commit_granted, discard_zeroed};

use super::Host;

impl Host {
    // The largest host word: its four bits all set.
    pub const MOST: u32 = 15;

    // The word as the editor gives it.
    pub fn of(bits: u32) -> Host
        ensures { result.bits ≡ bits }
    {
        Host { bits }
    }

    // The word of four answers, as specs/Host.antt orders them.
    pub fn new(reservation: bool, commit: bool, done: bool, zeroes: bool) -> Host
        ensures { result.bits ≡ host_word reservation commit done zeroes }
    {
        Host {
            bits: reservation as u32
                | (commit as u32) << 1
                | (done as u32) << 2
                | (zeroes as u32) << 3,
        }
    }

    // Number 3.
    pub fn is_bad(self) -> bool
        ensures { result ≡ bad_host self.bits }
    {
        Host::MOST < self.bits
    }

    fn bit(self, k: u32) -> bool
        requires { k < host_bits }
        ensures { result ≡ bit k self.bits }
    {
        (self.bits >> k) & 1 == 1
    }

    pub fn reservation_granted(self) -> bool
        ensures { result ≡ reservation_granted self.bits }
    {
        self.bit(0)
    }

    pub fn commit_granted(self) -> bool
        ensures { result ≡ commit_granted self.bits }
    {
        self.bit(1)
    }

    // Does a discard of this call leave zeroed pages: it is done, and a done one zeroes.
    pub fn discard_zeroed(self) -> bool
        ensures { result ≡ discard_zeroed self.bits }
    {
        self.bit(2) && self.bit(3)
    }
}
