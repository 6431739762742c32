// A growth of a over b, up to a top: what is not refused, and the sizes that it gives.
ghost use Rattle.std.specs.Prelude.{◌≡◌, ◌≤◌, length, IfOk};
ghost use Rattle.words.specs.Refusal.{code_of};
ghost use Rattle.tables.specs.Table.{next_size, table, last_size, bad_rate, bad_top, bad_slots, Growth};
ghost use Rattle.tables.specs.way.Rate.{rate_code};

use words::refusal::Refusal;

// The first size, and what every size is a multiple of.
const STEP: u64 = 16;

const MAX_TOP: u64 = 65472;

const MAX_RATE: u64 = 1000;

#[derive(Clone, Copy)]
pub struct Rate {
    pub a: u64,
    pub b: u64,
    pub top: u64,
    ghost bounded: { Growth a b top },
}

// Does number 22 apply?
fn bad_rate(a: u64, b: u64) -> bool
    ensures { result ≡ bad_rate a b }
{
    a <= b || b == 0 || MAX_RATE < a || MAX_RATE < b
}

// Does number 23 apply?
fn bad_top(top: u64) -> bool
    ensures { result ≡ bad_top top }
{
    top < STEP || top % STEP != 0 || MAX_TOP < top
}

impl Rate {
    pub fn of(a: u64, b: u64, top: u64) -> Result<Rate, Refusal>
        ensures code { code_of result ≡ rate_code a b top }
        ensures rate { IfOk result (λ r. (r.a ≡ a) × (r.b ≡ b) × (r.top ≡ top)) }
    {
        if bad_rate(a, b) {
            return Err(Refusal::Growth);
        }
        if bad_top(top) {
            return Err(Refusal::Top);
        }
        Ok(Rate { a, b, top })
    }

    // The size after one: grown, rounded up twice, cut at the top.
    fn next_size(self, size: u64) -> u64
        requires { size ≤ self.top }
        ensures same { result ≡ next_size self.a self.b self.top size }
        ensures within { result ≤ self.top }
    {
        let grown = (size * self.a).div_ceil(self.b);
        let whole = grown.next_multiple_of(STEP);
        whole.min(self.top)
    }

    // The size in the last slot.
    fn last_size(self, slots: u64) -> u64
        requires { 1 ≤ slots }
        ensures { result ≡ last_size self.a self.b self.top slots }
    {
        let mut size = STEP;
        for _ in 1..slots {
            size = self.next_size(size);
        }
        size
    }

    // Does number 24 apply, to a list of so many places?
    pub fn bad_slots(self, slots: u64, room: u64) -> bool
        ensures { result ≡ bad_slots self.a self.b self.top slots room }
    {
        slots == 0 || room < slots || self.last_size(slots) < self.top
    }

    // Writes a size into each slot.
    pub fn fill(self, list: &mut [u32])
        ensures { list.new ≡ table self.a self.b self.top (length list.old) }
    {
        let mut size = STEP;
        for slot in list {
            *slot = size as u32;
            size = self.next_size(size);
        }
    }
}
