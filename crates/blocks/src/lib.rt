// A byte range cut at page boundaries (block_range.rs; page_aligned and pages of vm/mod.rs). The block size is the page's.

#![tactic(auto, unfolding(crate::specs::Blocks::pages_of, crate::specs::Blocks::block_end, crate::specs::Blocks::next_of, crate::specs::Blocks::next_by, crate::specs::Blocks::count_of))]

ghost use Rattle.std.specs.Prelude.{◌≡◌, ◌+◌, ◌-◌, ◌%◌, ◌≤◌, ◌<◌};
ghost use Rattle.std.specs.Iterator.{at_most};
ghost use Rattle.blocks.specs.Blocks.{aligned_of, pages_of, block_end, Gives, count_of};

pub const PAGE_SIZE: u64 = 4096;

#[derive(Clone, Copy, Debug, PartialEq, Eq)]
pub struct BlockIter {
    pub begin: u64,
    pub end: u64,
}

// Part of a block. Any ends: the rules speak of all, so no order is in the type.
#[derive(Clone, Copy, Debug, PartialEq, Eq)]
pub struct BlockRange {
    pub block: u64,
    pub begin: u64,
    pub end: u64,
}

pub fn page_aligned(x: u64) -> bool
    ensures { result ≡ aligned_of 4096 x }
{
    x % PAGE_SIZE == 0
}

// How many pages hold so many bytes. The source wraps near the end of the numbers; no argument inside the domain is there.
pub fn pages(size: u64) -> u64
    ensures { result ≡ pages_of 4096 size }
{
    size.div_ceil(PAGE_SIZE)
}

impl BlockRange {
    pub fn len(self) -> u64
        requires { self.begin ≤ self.end }
        ensures { result ≡ self.end - self.begin }
    {
        self.end - self.begin
    }
}

impl BlockIter {
    // Where the first block ends, inside its page.
    fn block_end(self) -> u64
        requires { self.begin < self.end }
        ensures value { result ≡ block_end 4096 self }
        ensures inside { (self.begin % 4096 < result) × (self.begin + (result - self.begin % 4096) ≤ self.end) }
    {
        if self.begin / PAGE_SIZE == self.end / PAGE_SIZE {
            self.end % PAGE_SIZE
        } else {
            PAGE_SIZE
        }
    }

    // How many blocks are left.
    pub fn block_count(self) -> u64
        ensures { result ≡ count_of 4096 self }
    {
        if self.end <= self.begin {
            0
        } else {
            pages(self.end) - self.begin / PAGE_SIZE
        }
    }
}

impl Iterator for BlockIter {
    type Item = BlockRange;

    ghost next_gives = { Gives 4096 };

    ghost remaining = { λ it. at_most (it.end - it.begin) };

    fn next(&mut self) -> Option<BlockRange> {
        if self.end <= self.begin {
            return None;
        }
        let block = self.begin / PAGE_SIZE;
        let begin = self.begin % PAGE_SIZE;
        let end = self.block_end();
        self.begin += end - begin;
        Some(BlockRange { block, begin, end })
    }
}
