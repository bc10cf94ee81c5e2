// What page lookup is about (commit_page_internal, paged.rs 531 to 640); its rule is in specs/, its code in the crates above.

#![tactic(auto)]

ghost use Rattle.std.specs.Prelude.{◌≡◌};
ghost use Rattle.tables.specs.Lent.{pool_in};
ghost use Rattle.lookup.specs.Lent.{pool_with};
ghost use Rattle.lookup.specs.Commit.{ask_of, refusal_of};

use entry::PageState;
use outcome::Refusal;
use tables::{Tree, View};

// The page table, the frames in use and their bytes: what page lookup may change beside the notices.
#[derive(Drop)]
pub struct Store<'a> {
    pub pages: &'a mut [u32],
    pub used: &'a mut [u8],
    pub memory: &'a mut [u8],
}

impl Store<'_> {
    // The whole pool, with what else belongs to it.
    pub fn view<'b>(&'b self, tree: Tree<'b>, head: &'b [u32]) -> View<'b, 'b>
        ensures { pool_in result ≡ pool_with tree.entry head.now self.now }
    {
        View {
            nodes: tree.nodes,
            pages: self.table(),
            used: self.flags(),
            mappings: tree.mappings,
            head,
            memory: self.bytes(),
        }
    }

    // The page table, to look at.
    pub fn table(&self) -> &[u32]
        ensures { result.now ≡ self.now.pages.now }
    {
        self.pages
    }

    // Which frames are in use.
    pub fn flags(&self) -> &[u8]
        ensures { result.now ≡ self.now.used.now }
    {
        self.used
    }

    // The frames' bytes.
    pub fn bytes(&self) -> &[u8]
        ensures { result.now ≡ self.now.memory.now }
    {
        self.memory
    }
}

// CommitResult (paged.rs 466), with the zero frame: what a node answers to who asks it for a page.
#[derive(Clone, Copy, Debug, PartialEq, Eq)]
pub enum CommitResult {
    // A frame that stays where it is.
    Ref(u32),
    // No frame: the page reads as zeros.
    Zero,
    // A frame that the asker keeps, and whether an Unmap is due below.
    CopyOnWrite(u32, bool),
    // A cleared frame, which a hidden node doesn't keep.
    NewPage(u32),
}

// Why page lookup gives no frame.
#[derive(Clone, Copy, Debug, PartialEq, Eq)]
pub enum LookupError {
    NoMemory,
    Stopped,
}

impl From<LookupError> for Refusal {
    ghost from_gives = { λ why r. r ≡ refusal_of why };

    fn from(why: LookupError) -> Refusal {
        match why {
            LookupError::NoMemory => Refusal::NoMemory,
            LookupError::Stopped => Refusal::Stopped,
        }
    }
}

pub type Looked = Result<CommitResult, LookupError>;

// A node's page, and the child of the node that asks for it (or the node itself). Any numbers: the rules speak of all, so no bound is in the type.
#[derive(Clone, Copy)]
pub struct Place {
    pub node: u32,
    pub page: u64,
    pub asker: u32,
}

// A page asked for, for reading or for writing.
#[derive(Clone, Copy)]
pub struct Ask {
    pub place: Place,
    pub write: bool,
}

impl Ask {
    // An object asks for a page of its own.
    pub fn of(node: u32, page: u64, write: bool) -> Self
        ensures { result ≡ ask_of node page write }
    {
        let place = Place {
            node,
            page,
            asker: node,
        };
        Ask { place, write }
    }
}

// What page lookup gives: a frame, or none for the shared zero frame.
pub type Committed = Result<Option<u32>, Refusal>;

// Where a walk ends: at a node that has the page, at one that has no parent to ask, or for want of steps.
#[derive(Clone, Copy)]
pub enum End {
    Has(PageState),
    Bare,
    Tired,
}

// One node's turn of a walk: the end, or the parent's page. No Result: neither is a refusal, and one `match` reads both.
#[derive(Clone, Copy)]
pub enum Turn {
    Ends(End),
    Climbs(Place),
}

// So many levels up a walk ends, at the place `top`; `hidden`: all nodes above the first are hidden.
#[derive(Clone, Copy)]
pub struct Walked {
    pub levels: u32,
    pub end: End,
    pub top: Place,
    pub hidden: bool,
}
