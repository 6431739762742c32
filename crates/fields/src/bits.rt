// Bits of a word: a slot of a stack is 16 of them, an out bit is one.
ghost use Rattle.std.specs.Prelude.{◌≡◌, ◌+◌, ◌-◌, ◌%◌, ◌^◌, ◌≤◌, ◌<◌};
ghost use Rattle.fields.specs.Field.{bits, read, place};

pub fn low_bits(w: u32, n: u32) -> u32
    requires { n < 32 }
    ensures { result ≡ w % 2 ^ n }
{
    w % (1u32 << n)
}

pub fn read_bits(w: u32, at: u32, n: u32) -> u32
    requires { (at < 32) × (n < 32) }
    ensures { result ≡ read (bits at n) w }
{
    low_bits(w >> at, n)
}

pub fn place_bits(w: u32, at: u32, n: u32, v: u32) -> u32
    requires { (at < 32) × (n < 32) × (at + n ≤ 32) }
    ensures { result ≡ place (bits at n) w v }
{
    w - (read_bits(w, at, n) << at) + (low_bits(v, n) << at)
}

// The lowest n bits.
fn ones(n: u32) -> u32
    requires { n ≤ 32 }
    ensures { result ≡ 2 ^ n - 1 }
{
    ((1u64 << n) - 1) as u32
}

// The word with its n bits from `at` on set.
pub fn set_ones(w: u32, at: u32, n: u32) -> u32
    requires { (at < 32) × (at + n ≤ 32) }
    ensures { result ≡ place (bits at n) w (2 ^ n - 1) }
{
    w | ones(n) << at
}
