// A page's state (paged.rs 102 to 152) and the word that holds it in the lent table: 0 for none, else frame + 1, + 4,096 x tag, + 16,384 x pins.

#![tactic(auto, unfolding(crate::specs::Entry::tag_of, crate::specs::Entry::slot_of, crate::specs::Entry::state_of, crate::specs::Entry::entry_word))]

ghost use Rattle.std.specs.Prelude.{◌≡◌, ◌≤◌};
ghost use Rattle.entry.specs.Entry.{negate_of, split_of, tag_number, tag_of, new_state, entry_word, slot_of, tagged_of};

#[derive(Clone, Copy, Debug, PartialEq, Eq)]
pub enum PageStateTag {
    Owned,
    LeftSplit,
    RightSplit,
}

#[derive(Clone, Copy, Debug, PartialEq, Eq)]
pub struct PageState {
    pub frame: u32,
    pub tag: PageStateTag,
    pub pin_count: u32,
}

impl PageStateTag {
    // As the source has it. Nothing here asks for it, but a public promise stays.
    pub fn negate(self) -> Self
        ensures { result ≡ negate_of self }
    {
        match self {
            PageStateTag::Owned => PageStateTag::Owned,
            PageStateTag::LeftSplit => PageStateTag::RightSplit,
            PageStateTag::RightSplit => PageStateTag::LeftSplit,
        }
    }

    pub fn is_split(self) -> bool
        ensures { result ≡ split_of self }
    {
        matches!(self, PageStateTag::LeftSplit | PageStateTag::RightSplit)
    }
}

impl From<PageStateTag> for u32 {
    ghost from_gives = { λ tag n. (n ≡ tag_number tag) × (n ≤ 2) };

    fn from(tag: PageStateTag) -> u32 {
        match tag {
            PageStateTag::Owned => 0,
            PageStateTag::LeftSplit => 1,
            PageStateTag::RightSplit => 2,
        }
    }
}

// A word has two bits for a tag: 3 is read as 2.
impl From<u32> for PageStateTag {
    ghost from_gives = { λ n tag. tag ≡ tag_of n };

    fn from(n: u32) -> PageStateTag {
        match n {
            0 => PageStateTag::Owned,
            1 => PageStateTag::LeftSplit,
            _ => PageStateTag::RightSplit,
        }
    }
}

impl PageState {
    pub fn new(frame: u32) -> Self
        ensures { result ≡ new_state frame }
    {
        PageState {
            frame,
            tag: PageStateTag::Owned,
            pin_count: 0,
        }
    }

    pub fn with_tag(self, tag: PageStateTag) -> Self
        ensures { result ≡ tagged_of self tag }
    {
        PageState { tag, ..self }
    }

    // What a node's map has for a page.
    pub fn of_word(word: u32) -> Option<Self>
        ensures { result ≡ slot_of word }
    {
        let low = word % 4096;
        if low == 0 {
            return None;
        }
        Some(PageState {
            frame: low - 1,
            tag: PageStateTag::from(word / 4096 % 4),
            pin_count: word / 16384 % 32,
        })
    }
}

impl From<PageState> for u32 {
    ghost from_gives = { λ state word. word ≡ entry_word state };

    // The remainders leave every frame below 4,095 and every count below 32 as it is, and spare callers a precondition.
    fn from(state: PageState) -> u32 {
        state.frame % 4095 + 1 + 4096 * u32::from(state.tag) + 16384 * (state.pin_count % 32)
    }
}
