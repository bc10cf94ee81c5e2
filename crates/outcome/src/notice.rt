// Notices to mappings, and the lent list of them.
ghost use Rattle.std.specs.Prelude.{◌≡◌};
ghost use Rattle.outcome.specs.Told.{op_number, told_of, put_notice};
ghost use Rattle.outcome.specs.Lent.{SameList, told_at};

// What a mapping has to do with pages of its own (RangeChangeOp, vmar.rs).
#[derive(Clone, Copy, Debug, PartialEq, Eq)]
pub enum RangeChangeOp {
    Unmap,
    RemoveWrite,
}

impl From<RangeChangeOp> for u32 {
    ghost from_gives = { λ op n. n ≡ op_number op };

    fn from(op: RangeChangeOp) -> u32 {
        match op {
            RangeChangeOp::Unmap => 1,
            RangeChangeOp::RemoveWrite => 2,
        }
    }
}

// A mapping's number, the first page in it, how many pages, and what is due: any number, as `put` answers for all.
#[derive(Clone, Copy, Debug, PartialEq, Eq)]
pub struct Notice {
    pub mapping: u32,
    pub first: u32,
    pub pages: u32,
    pub op: u32,
}

// The lent list, four words a notice, and how many are in it.
#[derive(Drop)]
pub struct Notices<'a> {
    pub list: &'a mut [u32],
    pub count: usize,
}

impl<'a> Notices<'a> {
    pub fn new(list: &'a mut [u32]) -> Self
        ensures same { result.list.ghost_name ≡ list.entry.ghost_name }
        ensures value { told_at result ≡ told_of list.old 0 }
    {
        Notices { list, count: 0 }
    }

    // The next place of the list, where there is one.
    #[tactic(auto, using(std::proofs::lemmas::Bool::Decides::nat_tests), unfolding(crate::specs::Told::put_notice))]
    pub fn put(&mut self, n: Notice)
        ensures same { SameList self.old self.new }
        ensures value { told_at self.new ≡ put_notice (told_at self.old) n }
    {
        if self.count < self.list.len() / 4 {
            let a = self.count * 4;
            tables::put(self.list, a, n.mapping);
            tables::put(self.list, a + 1, n.first);
            tables::put(self.list, a + 2, n.pages);
            tables::put(self.list, a + 3, n.op);
            self.count += 1;
        }
    }
}
