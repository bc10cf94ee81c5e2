// What a caller lends, taken together to look at. The tables are the caller's and of fixed length, so a tree is numbers and no boxes.

// A whole pool. The memory has a lifetime of its own: who is shown bytes of it may change the tables.
#[derive(Clone, Copy)]
pub struct View<'a, 'm> {
    pub nodes: &'a [u32],
    pub pages: &'a [u32],
    pub used: &'a [u8],
    pub mappings: &'a [u32],
    pub head: &'a [u32],
    pub memory: &'m [u8],
}

// The records of the nodes and the list of mappings, which no page lookup changes.
#[derive(Clone, Copy)]
pub struct Tree<'a> {
    pub nodes: &'a [u32],
    pub mappings: &'a [u32],
}
