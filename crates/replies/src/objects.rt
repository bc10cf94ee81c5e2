// The calls that make objects and change who maps them.
ghost use Rattle.std.specs.Prelude.{◌≡◌};

use lookup::Store;
use outcome::{Answer, Reply};
use tables::Tree;

// The nodes, the mappings and the head: what a pool has beside its store.
#[derive(Drop)]
pub struct Objects<'a> {
    pub nodes: &'a mut [u32],
    pub mappings: &'a mut [u32],
    pub head: &'a mut [u32],
}

// What a call is lent as `&` beside a `&mut` is taken first, as the proof needs it.
impl Objects<'_> {
    pub(crate) fn tree(&self) -> Tree<'_>
        ensures nodes { result.nodes.now ≡ self.now.nodes.now }
        ensures mappings { result.mappings.now ≡ self.now.mappings.now }
    {
        Tree {
            nodes: self.nodes,
            mappings: self.mappings,
        }
    }

    pub(crate) fn head(&self) -> &[u32]
        ensures { result.now ≡ self.now.head.now }
    {
        self.head
    }

    // A fresh pool, memory zeros.
    pub(crate) fn start(&mut self, store: &mut Store) -> Answer {
        store.memory.fill(0);
        let memory = &mut *store.memory;
        pool::start(
            self.nodes,
            store.pages,
            store.used,
            self.mappings,
            self.head,
            memory,
        )
    }

    pub(crate) fn new(&mut self, store: &Store, size: u64) -> Answer {
        let mappings = &mut *self.mappings;
        pool::new(
            self.nodes,
            store.pages,
            store.used,
            mappings,
            self.head,
            store.memory,
            size,
        )
    }

    pub(crate) fn map(&mut self, store: &Store, object: u64, first: u64, pages: u64) -> Answer {
        let nodes = &mut *self.nodes;
        let head = &mut *self.head;
        mapped::append_mapping(
            nodes,
            store.pages,
            store.used,
            self.mappings,
            head,
            store.memory,
            object,
            first,
            pages,
        )
    }

    pub(crate) fn unmap(&mut self, store: &Store, object: u64, mapping: u64) -> Answer {
        let nodes = &mut *self.nodes;
        let head = &mut *self.head;
        mapped::remove_mapping(
            nodes,
            store.pages,
            store.used,
            self.mappings,
            head,
            store.memory,
            object,
            mapping,
        )
    }

    pub(crate) fn child(
        &mut self,
        store: &mut Store,
        notices: &mut [u32],
        object: u64,
        offset: u64,
        len: u64,
    ) -> Reply {
        let mappings = &mut *self.mappings;
        let used = &mut *store.used;
        let memory = &mut *store.memory;
        child::create_child(
            self.nodes,
            store.pages,
            used,
            mappings,
            self.head,
            memory,
            notices,
            object,
            offset,
            len,
        )
    }
}
