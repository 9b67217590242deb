// A pixel's bits and bytes, wherever its frame keeps them: masks and fields of a byte at depths 1, 2 and 4, the bytes of a colour from depth 8 on, and
// runs of bytes that hold pixels of one colour.
#![tactic(auto)]

ghost use Rattle.std.specs.Prelude.{◌≡◌, true, ℕ, ◌+◌, ◌*◌, ◌/◌, ◌%◌, ◌^◌, ◌≤◌, ◌<◌, length, get_or, replicate};
ghost use Rattle.layout.specs.Digits.{digit, value, replaced, set_run};
ghost use Rattle.layout.specs.Packed.{good_depth, field, parts, per, turned, slot_of, full_byte};
ghost use Rattle.packing.specs.Words.{Part, pixel_mask, masks_of, bits_from, bits_to, merged, merged_at, pixel_byte, block_size};

// ---- a pixel's field of its byte, at depths 1, 2 and 4

// Pixel x's field of its byte, the lowest being field 0. The first pixel is in the high bits.
fn slot(depth: u32, x: u32) -> u32
    requires { Part depth x }
    ensures { result ≡ slot_of depth x }
{
    !x & (7 >> (depth / 2))
}

// The bits below pixel x's field.
fn shift(depth: u32, x: u32) -> u32
    requires { Part depth x }
    ensures { result ≡ field depth * slot_of depth x }
{
    depth * slot(depth, x)
}

// The bits of a pixel at each position in its byte: 8 masks at depth 1, 4 at depth 2, 2 at depth 4, the first pixel's first.
const MASKS: [u8; 14] = [
    0x80, 0x40, 0x20, 0x10, 0x08, 0x04, 0x02, 0x01, 0xC0, 0x30, 0x0C, 0x03, 0xF0, 0x0F,
];

// The masks of a depth as one number, the first pixel's the highest. Each is taken at a constant place of the table: where a place is worked out, the table is laid out on
// the stack first, which measured slower than working out the mask (docs/BENCHMARKS.md).
fn masks_of(depth: u32) -> u64
    requires { (good_depth depth ≡ true) × (depth < 8) }
    ensures { result ≡ masks_of depth }
{
    match depth {
        1 => u64::from_be_bytes([
            MASKS[0], MASKS[1], MASKS[2], MASKS[3], MASKS[4], MASKS[5], MASKS[6], MASKS[7],
        ]),
        2 => u32::from_be_bytes([MASKS[8], MASKS[9], MASKS[10], MASKS[11]]) as u64,
        _ => u16::from_be_bytes([MASKS[12], MASKS[13]]) as u64,
    }
}

// Pixel x's bits.
fn mask(depth: u32, x: u32) -> u8
    requires { Part depth x }
    ensures { result ≡ pixel_mask depth x }
{
    (masks_of(depth) >> (8 * slot(depth, x)) & 255) as u8
}

// Inside the library: the bits of pixel x and of those after it in its byte.
pub fn bits_from(depth: u32, x: u32) -> u8
    requires { Part depth x }
    ensures { result ≡ bits_from depth x }
{
    255u8 >> (x * depth % 8)
}

// Inside the library: the bits of pixel x and of those before it in its byte.
pub fn bits_to(depth: u32, x: u32) -> u8
    requires { Part depth x }
    ensures { result ≡ bits_to depth x }
{
    !((255u32 >> (x * depth % 8 + depth)) as u8)
}

// The byte p where m has ones, and else v.
fn merge(v: u8, p: u8, m: u8) -> u8
    ensures { result ≡ merged v p m }
{
    (v & !m) | (p & m)
}

// Inside the library: the byte v with pixel x in the colour.
pub fn with_field(v: u8, depth: u32, x: u32, colour: u32) -> u8
    requires { Part depth x × (colour < 2 ^ depth) }
    ensures { result ≡ replaced (2 ^ field depth) (slot_of depth x) colour v }
{
    (v & !mask(depth, x)) | (colour << shift(depth, x)) as u8
}

// Inside the library: the colour of pixel x in the byte v.
pub fn field_of(v: u8, depth: u32, x: u32) -> u32
    requires { Part depth x }
    ensures { result ≡ digit (2 ^ field depth) (slot_of depth x) v }
{
    ((v as u32) >> shift(depth, x)) & ((1u32 << depth) - 1)
}

// Inside the library: a byte all of whose pixels have the colour, at depths up to 8.
pub fn pattern(depth: u32, colour: u32) -> u8
    requires { (good_depth depth ≡ true) × (depth ≤ 8) × (colour < 2 ^ depth) }
    ensures { result ≡ value (2 ^ field depth) (per depth) (λ k. colour) }
{
    let byte = match depth {
        1 => colour * 255,
        2 => colour * 85,
        4 => colour * 17,
        _ => colour,
    };
    byte as u8
}

// Inside the library: the byte at a place takes p where m has ones.
pub fn merge_at(buf: &mut [u8], at: usize, p: u8, m: u8)
    requires { at < length buf.old }
    ensures { buf.new ≡ merged_at at p m buf.old }
{
    buf[at] = merge(buf[at], p, m);
}

// ---- a pixel's bytes, at depths 8 to 32

// The number whose byte k is byte k of a pixel: the colour, or with the big end first its digits the other way round, of which the compiler makes one instruction.
fn in_order(big: bool, parts: usize, colour: u32) -> u32
    requires { parts ≤ 4 }
    ensures { (k : ℕ) → k < parts → digit 256 k result ≡ digit 256 (turned big parts k) colour }
{
    if !big {
        return colour;
    }
    colour.swap_bytes().wrapping_shr(8 * (4 - parts as u32))
}

// Inside the library: the colour, written over all of a part of the buffer, a digit a byte. Byte by byte: a copy of n bytes where n is no constant is a call of memcpy, 25
// instructions more a pixel, and a match on n with a copy in each arm takes 5 more a pixel at depth 8 (docs/BENCHMARKS.md).
pub fn store(part: &mut [u8], big: bool, colour: u32)
    requires { (0 < length part.old) × (length part.old ≤ 4) }
    ensures { part.new ≡
        (let n = length part.old in set_run 0 n (λ j. digit 256 (turned big n j) colour) part.old) }
{
    let n = part.len();
    let bytes = in_order(big, n, colour).to_le_bytes();
    part[0] = bytes[0];
    if n == 1 {
        return;
    }
    part[1] = bytes[1];
    if n == 2 {
        return;
    }
    part[2] = bytes[2];
    if n == 3 {
        return;
    }
    part[3] = bytes[3];
}

// Inside the library: the colour that all of a part of the buffer holds, its highest digit read first.
pub fn load(part: &[u8], big: bool) -> u32
    requires { length part.now ≤ 4 }
    ensures { result ≡
        (let n = length part.now in value 256 n (λ k. get_or part.now (turned big n k) 0)) }
{
    let more = |sum: u32, byte: u8| (sum << 8) | byte as u32;
    if big {
        part.iter().copied().fold(0, more)
    } else {
        part.iter().rev().copied().fold(0, more)
    }
}

// ---- runs of bytes

// Inside the library: every byte of a part of a buffer set to v, by one plain store a turn: `fill` takes 12 to 23 instructions more a call (docs/BENCHMARKS.md).
pub fn set_all(part: &mut [u8], v: u8)
    ensures { part.new ≡ set_run 0 (length part.old) (λ j. v) part.old }
{
    for byte in part.iter_mut() {
        *byte = v;
    }
}

// Whole pixels of the colour side by side over all of a part of the buffer. By index, as `repeat` goes: after `chunks_exact_mut` a proof knows the part's length alone.
fn pixels(part: &mut [u8], parts: usize, big: bool, colour: u32)
    requires { (0 < parts) × (parts ≤ 4) × (length part.old % parts ≡ 0) }
    ensures { part.new ≡ set_run 0 (length part.old) (pixel_byte parts big colour) part.old }
{
    for k in 0..part.len() / parts {
        let start = k * parts;
        store(&mut part[start..start + parts], big, colour);
    }
}

// A block of whole pixels at a depth above 8. Each call has the number of a pixel's bytes as a constant, of which the compiler makes stores without a loop. Each returns its
// own array: where the arms of a match join, the block is kept in registers, 50 to 70 instructions more (docs/BENCHMARKS.md).
fn block(depth: u32, big: bool, colour: u32) -> [u8; 64]
    requires { (good_depth depth ≡ true) × (8 < depth) }
    ensures { result ≡ set_run 0 (block_size depth) (pixel_byte (depth / 8) big colour) (replicate 64 0) }
{
    let mut bytes = [0u8; 64];
    if depth == 16 {
        pixels(&mut bytes, 2, big, colour);
        return bytes;
    }
    if depth == 24 {
        pixels(&mut bytes[..48], 3, big, colour);
        return bytes;
    }
    pixels(&mut bytes, 4, big, colour);
    bytes
}

// A part of the buffer takes the first bytes of a block, as many as it has.
fn lay(part: &mut [u8], block: &[u8; 64])
    requires { length part.old ≤ 64 }
    ensures { part.new ≡ set_run 0 (length part.old) (λ j. get_or block.now j 0) part.old }
{
    part.copy_from_slice(&block[..part.len()]);
}

// The first N bytes of a block again and again over all of a part of the buffer. The block comes by value: of an own copy the compiler knows that no store into the part
// changes it, and a turn of the loop becomes three or four stores of 16 bytes.
fn repeat<const N: usize>(part: &mut [u8], block: [u8; 64])
    requires { (0 < N) × (N ≤ 64) }
    ensures { part.new ≡ set_run 0 (length part.old) (λ j. get_or block (j % N) 0) part.old }
{
    let blocks = part.len() / N;
    for k in 0..blocks {
        let start = k * N;
        lay(&mut part[start..start + N], &block);
    }
    lay(&mut part[blocks * N..], &block);
}

// Blocks of pixels over all of a part of the buffer, at a depth above 8: lines of the cache, or at 24 bits 48 bytes. As it is called from two places the compiler does not
// inline it, and `fill_part` needs no stack for the other depths (docs/BENCHMARKS.md).
fn fill_blocks(part: &mut [u8], depth: u32, big: bool, colour: u32)
    requires { (good_depth depth ≡ true) × (8 < depth) }
    ensures { part.new ≡ set_run 0 (length part.old) (full_byte depth big colour) part.old }
{
    let bytes = block(depth, big, colour);
    if depth == 24 {
        repeat::<48>(part, bytes);
    } else {
        repeat::<64>(part, bytes);
    }
}

// Inside the library: a part of the buffer that holds whole pixels, all of them in the colour. A part of less than 48 bytes is stored pixel by pixel, unless its end cuts
// one off, which the contract allows.
pub fn fill_part(part: &mut [u8], depth: u32, big: bool, colour: u32)
    requires { (good_depth depth ≡ true) × (colour < 2 ^ depth) × (parts depth ≤ length part.old) }
    ensures { part.new ≡ set_run 0 (length part.old) (full_byte depth big colour) part.old }
{
    if depth <= 8 {
        set_all(part, pattern(depth, colour));
    } else if 48 <= part.len() {
        fill_blocks(part, depth, big, colour);
    } else {
        let parts = (depth / 8) as usize;
        if part.len() % parts == 0 {
            pixels(part, parts, big, colour);
        } else {
            fill_blocks(part, depth, big, colour);
        }
    }
}
