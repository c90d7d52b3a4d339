// 32-bit words: a byte area as a row of them, and what registers do with them.
#![tactic(auto)]

ghost use Rattle.std.specs.Prelude.{◌≡◌, ◌+◌, ◌*◌, ◌<◌, ◌≤◌, length};
ghost use Rattle.numbers.specs.Words as Words;
ghost use Rattle.numbers.specs.Areas as Areas;

// ---- a byte area as a row of words, low byte first

// Word i of an area that has it.
pub fn whole_word(area: &[u8], i: usize) -> u32
    requires { i * 4 + 4 ≤ length area.now }
    ensures { result ≡ Areas.word area.now i }
{
    let a = i * 4;
    u32::from_le_bytes([area[a], area[a + 1], area[a + 2], area[a + 3]])
}

// Word i of an area, and 0 past its last.
pub fn word(area: &[u8], i: usize) -> u32
    ensures { result ≡ Areas.word area.now i }
{
    if i < area.len() / 4 {
        whole_word(area, i)
    } else {
        0
    }
}

// Word i of an area becomes w; nothing changes past its last.
pub fn put_word(area: &mut [u8], i: usize, w: u32)
    ensures { area.new ≡ Areas.put_word area.old i w }
{
    if i < area.len() / 4 {
        let a = i * 4;
        let bytes = w.to_le_bytes();
        area[a] = bytes[0];
        area[a + 1] = bytes[1];
        area[a + 2] = bytes[2];
        area[a + 3] = bytes[3];
    }
}

// ---- words and numbers

// The signed number of a word.
pub fn signed(w: u32) -> i64
    ensures { result ≡ Words.signed w }
{
    i64::from(w.cast_signed())
}

// The low 32 bits of a number.
pub fn low32(z: i64) -> u32
    ensures { result ≡ Words.low32 z }
{
    (z & 0xffff_ffff) as u32
}

// ---- ranges

// Whether a word is one of low to high.
pub fn between(low: u32, high: u32, w: u32) -> bool
    ensures { result ≡ Words.between low high w }
{
    low <= w && w <= high
}

// Whether a word's signed number is within n of 0.
pub fn near(n: u32, w: u32) -> bool
    requires { n ≤ 2147483647 }
    ensures { result ≡ Words.within n (Words.signed w) }
{
    w <= n || u32::MAX - n < w
}

// Whether a number is one of 0 to n - 1.
pub fn inside(n: u32, z: i64) -> bool
    ensures { result ≡ Words.inside n z }
{
    0 <= z && z < i64::from(n)
}

// ---- what registers do

pub fn plus(a: u32, b: u32) -> u32
    ensures { result ≡ Words.plus a b }
{
    a.wrapping_add(b)
}

pub fn minus(a: u32, b: u32) -> u32
    ensures { result ≡ Words.minus a b }
{
    a.wrapping_sub(b)
}

// The wrapped product.
pub fn times(a: u32, b: u32) -> u32
    ensures { result ≡ Words.times a b }
{
    a.wrapping_mul(b)
}

// The quotient of the two signed numbers, toward zero. In 64 bits the least number divided by -1 needs no case of its own.
pub fn over(a: u32, b: u32) -> u32
    requires { 0 < b }
    ensures { result ≡ Words.over a b }
{
    low32(signed(a) / signed(b))
}
