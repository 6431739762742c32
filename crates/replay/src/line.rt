// A line as it is read: a number for each of its words. The name has one too, and stands first.
ghost use Rattle.std.specs.Prelude.{◌≡◌, ◌+◌, ◌<◌, ◌≤◌, map, min, slice_index};
ghost use Rattle.replay.specs.way.Line as way;

// A line's numbers, or its answers.
pub type Numbers = [u64; 4096];

#[derive(Drop)]
pub struct Line {
    pub numbers: Numbers,
    // The place of the number that is read, and that of the `=`; 0 where there is none.
    pub count: usize,
    pub equals: usize,
}

// A number with a byte more: a blank starts another, a digit counts as one. Of a name the first letter counts a hundred times its byte,
// each other letter one.
fn read(value: u64, b: u8) -> u64
    ensures { result ≡ way.read_byte value b }
{
    if b == b' ' || b == b'\n' {
        return 0;
    }
    if b'0' <= b && b <= b'9' {
        return (value % 1_844_674_407_370_955_162 * 10).wrapping_add(u64::from(b % 48));
    }
    if value == 0 {
        return u64::from(b) * 100;
    }
    value.wrapping_add(1)
}

// The place of the number that a byte is of.
fn place_after(at: usize, b: u8) -> usize
    ensures { result ≡ way.place_after at b }
{
    if b == b' ' { at.wrapping_add(1) } else { at }
}

pub fn low(value: u64) -> u32
    ensures { result ≡ way.low value }
{
    (value % 4_294_967_296) as u32
}

impl Line {
    pub fn new() -> Line
        ensures { result ≡ way.blank }
    {
        Line {
            numbers: [0; 4096],
            count: 0,
            equals: 0,
        }
    }

    // The low half of a number.
    pub fn word(&self, i: usize) -> u32
        requires { i < 4096 }
        ensures { result ≡ way.low (slice_index self.now.numbers i) }
    {
        low(self.numbers[i])
    }

    // The low halves of all numbers.
    pub fn words(&self) -> [u32; 4096]
        ensures { result ≡ map way.low self.now.numbers }
    {
        let mut words = [0; 4096];
        for (i, number) in self.numbers.iter().enumerate() {
            words[i] = low(*number);
        }
        words
    }

    // A byte more of the number that is read.
    fn put(&mut self, b: u8)
        ensures { self.new ≡ record { numbers = way.put_byte self.old.numbers self.old.count b; count = self.old.count; equals = self.old.equals } }
    {
        if self.count < 4096 {
            self.numbers[self.count] = read(self.numbers[self.count], b);
        }
    }

    // A byte more that doesn't end the line.
    pub fn byte(&mut self, b: u8)
        ensures { self.new ≡ way.with_byte self.old b }
    {
        self.count = place_after(self.count, b);
        self.put(b);
        if b == b'=' {
            self.equals = self.count;
        }
    }

    // The line's end. What later places hold stays for the lines that leave them out.
    pub fn end(&mut self)
        ensures { self.new ≡ way.ended self.old }
    {
        self.count = 0;
        self.equals = 0;
        self.put(b'\n');
    }
}

// The end of so many words from `from` on, at `most` where there are not so many.
pub fn end(from: usize, count: u32, most: usize) -> usize
    requires { from ≤ most }
    ensures { result ≡ min (from + count) most }
{
    from.saturating_add(count as usize).min(most)
}
