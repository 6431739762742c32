// The block sizes, in bytes: every other number of a class comes from these.
ghost use Rattle.std.specs.Prelude.{◌≡◌, ◌<◌, ◌≤◌};
ghost use Rattle.classes.specs.Sizes.{page_bytes, small_capacity, span_pages, span_capacity};
ghost use Rattle.classes.specs.way.Near.{entry_in, block_bytes};

// The largest size with a small class of its own, with a medium one.
pub const MAX_SMALL_SIZE: u32 = 16384;

pub const MAX_MEDIUM_SIZE: u32 = 65472;

const PAGE_SIZE: u32 = 65536;

// Bytes before the first block of a small page, and of a span.
pub const PAGE_HEADER: u32 = 48;

pub const SPAN_HEADER: u32 = 64;

const TARGET_BLOCKS_PER_SPAN: u32 = 8;

pub const NUM_CLASSES: u32 = 64;

pub const NUM_MEDIUM: u32 = 12;

// The numbers that a caller can name: small and medium classes by one number.
pub const CLASS_COUNT: u32 = 76;

// The rows of the book.
pub const CLASS_ROWS: u32 = 152;

const CLASSES: [u16; 64] = [
    16, 32, 48, 64, 80, 96, 112, 128, 144, 176, 208, 240, 272, 320, 368, 416, 480, 544, 624, 704,
    800, 912, 1040, 1184, 1344, 1520, 1712, 1936, 2192, 2480, 2800, 3152, 3552, 4000, 4512, 5088,
    5728, 6448, 7264, 8176, 9200, 10352, 11648, 13104, 14752, // the rest saturates
    16384, 16384, 16384, 16384, 16384, 16384, 16384, 16384, 16384, 16384, 16384, 16384, 16384,
    16384, 16384, 16384, 16384, 16384, 16384,
];

const MEDIUM_CLASSES: [u16; 12] = [
    18432, 20736, 23328, 26256, 29552, 33248, 37408, 42096, 47360, 53280, 59952, 65472,
];

// A class's entry, by its id; past the last class it is the last one's. The places are constants, so that the back end has the arrays in a read-only
// table; read at a place that is computed they would be built anew on the stack each time (docs/BACKEND.md).
fn entry(small: &[u16; 64], medium: &[u16; 12], id: u32) -> u16
    ensures { result ≡ entry_in small.now medium.now id }
{
    match id {
        0 => small[0],
        1 => small[1],
        2 => small[2],
        3 => small[3],
        4 => small[4],
        5 => small[5],
        6 => small[6],
        7 => small[7],
        8 => small[8],
        9 => small[9],
        10 => small[10],
        11 => small[11],
        12 => small[12],
        13 => small[13],
        14 => small[14],
        15 => small[15],
        16 => small[16],
        17 => small[17],
        18 => small[18],
        19 => small[19],
        20 => small[20],
        21 => small[21],
        22 => small[22],
        23 => small[23],
        24 => small[24],
        25 => small[25],
        26 => small[26],
        27 => small[27],
        28 => small[28],
        29 => small[29],
        30 => small[30],
        31 => small[31],
        32 => small[32],
        33 => small[33],
        34 => small[34],
        35 => small[35],
        36 => small[36],
        37 => small[37],
        38 => small[38],
        39 => small[39],
        40 => small[40],
        41 => small[41],
        42 => small[42],
        43 => small[43],
        44 => small[44],
        45 => small[45],
        46 => small[46],
        47 => small[47],
        48 => small[48],
        49 => small[49],
        50 => small[50],
        51 => small[51],
        52 => small[52],
        53 => small[53],
        54 => small[54],
        55 => small[55],
        56 => small[56],
        57 => small[57],
        58 => small[58],
        59 => small[59],
        60 => small[60],
        61 => small[61],
        62 => small[62],
        63 => small[63],
        64 => medium[0],
        65 => medium[1],
        66 => medium[2],
        67 => medium[3],
        68 => medium[4],
        69 => medium[5],
        70 => medium[6],
        71 => medium[7],
        72 => medium[8],
        73 => medium[9],
        74 => medium[10],
        _ => medium[11],
    }
}

// The block size of a class, small or medium.
pub fn block_bytes(id: u32) -> u32
    ensures { result ≡ block_bytes id }
{
    u32::from(entry(&CLASSES, &MEDIUM_CLASSES, id))
}

// Blocks of a small page.
pub fn small_capacity_for(size: u32) -> u32
    requires { 0 < size }
    ensures { result ≡ small_capacity size }
{
    (PAGE_SIZE - PAGE_HEADER) / size
}

// Pages of a span: the fewest that hold eight blocks after the header.
pub fn span_pages_for(size: u32) -> u32
    requires { size ≤ page_bytes }
    ensures { result ≡ span_pages size }
{
    (SPAN_HEADER + TARGET_BLOCKS_PER_SPAN * size + (PAGE_SIZE - 1)) / PAGE_SIZE
}

// Blocks of a span.
pub fn medium_capacity_for(size: u32) -> u32
    requires size_nonzero { 0 < size }
    requires size_le_page_bytes { size ≤ page_bytes }
    ensures { result ≡ span_capacity size }
{
    (span_pages_for(size) * PAGE_SIZE - SPAN_HEADER) / size
}
