// A node's record (paged.rs 18 to 99), by value. Windows and size are counted in pages. A link is 0 for none, else a node's number + 1.

#![tactic(auto, unfolding(crate::specs::Node::cached_of, crate::specs::Node::contains_of, crate::specs::Node::out_of, crate::specs::Node::side_of))]

ghost use Rattle.std.specs.Prelude.{◌≡◌, true, ◌+◌, ◌≤◌, ◌<◌};
ghost use Rattle.node.specs.Node.{byte_limit, free_node, origin_node, hidden_of, leaf_of, cached_of, contains_of, window_of, out_of, side_of, snapshot_node, hidden_node, below_node, relinked_node};

use entry::PageStateTag;

#[derive(Clone, Copy, Debug, PartialEq, Eq)]
pub struct Node {
    pub kind: u32,
    pub parent: u32,
    pub left: u32,
    pub right: u32,
    pub parent_offset: u32,
    pub parent_limit: u32,
    pub size: u32,
    pub owner: u32,
    pub cache_policy: u32,
    pub pin_count: u32,
}

// How a child is tagged, and the link to the other child.
#[derive(Clone, Copy, Debug, PartialEq, Eq)]
pub struct Side {
    pub tag: PageStateTag,
    pub other: u32,
}

// A kind and a policy stay numbers: the lent table may hold any, and the sound test has to see it.
impl Node {
    pub const FREE: u32 = 0;

    pub const ORIGIN: u32 = 1;

    pub const SNAPSHOT: u32 = 2;

    pub const HIDDEN: u32 = 3;
    // The link to no node.
    pub const NONE: u32 = 0;

    pub const MAX_PIN_COUNT: u32 = 31;

    pub const MAX_PAGES: u32 = 64;

    pub const LAST_OWNER: u32 = 16777215;

    pub fn free() -> Self
        ensures { result ≡ free_node }
    {
        Node {
            kind: Node::FREE,
            parent: Node::NONE,
            left: Node::NONE,
            right: Node::NONE,
            parent_offset: 0,
            parent_limit: 0,
            size: 0,
            owner: 0,
            cache_policy: 0,
            pin_count: 0,
        }
    }

    // A fresh leaf: no parent, no page, cached.
    pub fn origin(pages: u32, owner: u32) -> Self
        ensures { result ≡ origin_node pages owner }
    {
        Node {
            kind: Node::ORIGIN,
            size: pages,
            owner,
            ..Node::free()
        }
    }

    pub fn is_hidden(self) -> bool
        ensures { result ≡ hidden_of self }
    {
        self.kind == Node::HIDDEN
    }

    pub fn is_leaf(self) -> bool
        ensures { result ≡ leaf_of self }
    {
        matches!(self.kind, Node::ORIGIN | Node::SNAPSHOT)
    }

    pub fn is_cached(self) -> bool
        ensures { result ≡ cached_of self }
    {
        self.cache_policy == 0
    }

    // The byte range lies inside. (No sum: it could be too large for a number.)
    pub fn contains(self, offset: u64, len: u64) -> bool
        ensures value { result ≡ contains_of 4096 self offset len }
        ensures fits { result ≡ true → offset + len < byte_limit }
    {
        let size = u64::from(self.size) * 4096;
        len <= size && offset <= size - len
    }

    // The parent's page lies in this node's window.
    pub fn in_window(self, page: u64) -> bool
        ensures { result ≡ window_of self page }
    {
        u64::from(self.parent_offset) <= page && page < u64::from(self.parent_limit)
    }

    // Lookup's out_of_range: a hidden or parentless node goes by its size, another by its window.
    pub fn out_of_range(self, page: u64) -> bool
        requires { page ≤ 281474976710656 }
        ensures { result ≡ out_of self page }
    {
        if self.is_hidden() || self.parent == Node::NONE {
            u64::from(self.size) <= page
        } else {
            u64::from(self.parent_limit) <= u64::from(self.parent_offset) + page
        }
    }

    pub fn get_tag_and_other(self, child: u32) -> Side
        ensures { result ≡ side_of self child }
    {
        let link = u64::from(child) + 1;
        if self.is_hidden() && u64::from(self.left) == link {
            Side {
                tag: PageStateTag::LeftSplit,
                other: self.right,
            }
        } else if self.is_hidden() && u64::from(self.right) == link {
            Side {
                tag: PageStateTag::RightSplit,
                other: self.left,
            }
        } else {
            Side {
                tag: PageStateTag::Owned,
                other: Node::NONE,
            }
        }
    }

    // create_child's child: so many pages of a node of that size, from first on, below the hidden node.
    pub fn snapshot(hidden: u32, first: u32, pages: u32, size: u32, owner: u32) -> Self
        requires { hidden < 64 }
        ensures { result ≡ snapshot_node hidden first pages size owner }
    {
        Node {
            kind: Node::SNAPSHOT,
            parent: hidden + 1,
            parent_offset: first,
            parent_limit: first.saturating_add(pages).min(size),
            size: pages,
            owner,
            ..Node::free()
        }
    }

    // The hidden node that takes this one's place above two children.
    pub fn hidden_above(self, left: u32, right: u32) -> Self
        requires { (left < 64) × (right < 64) }
        ensures { result ≡ hidden_node self left right }
    {
        Node {
            kind: Node::HIDDEN,
            left: left + 1,
            right: right + 1,
            cache_policy: 0,
            ..self
        }
    }

    // This node below a hidden one, with a window over all of it.
    pub fn below(self, hidden: u32) -> Self
        requires { hidden < 64 }
        ensures { result ≡ below_node self hidden }
    {
        Node {
            parent: hidden + 1,
            parent_offset: 0,
            parent_limit: self.size,
            ..self
        }
    }

    // The link to the old child becomes one to the new.
    pub fn relinked(self, old: u32, new: u32) -> Self
        requires { (old < 64) × (new < 64) }
        ensures { result ≡ relinked_node self old new }
    {
        if self.left == old + 1 {
            Node {
                left: new + 1,
                ..self
            }
        } else if self.right == old + 1 {
            Node {
                right: new + 1,
                ..self
            }
        } else {
            self
        }
    }
}
