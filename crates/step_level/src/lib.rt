// One node's part of a lookup.

#![tactic(auto)]

ghost use Rattle.std.specs.Prelude.{◌≡◌, Bool, List, ℕ, ◌+◌, ◌≤◌, ◌<◌};
ghost use Rattle.node.specs.Node.{side_of};
ghost use Rattle.tables.specs.Tables.{node_of};
ghost use Rattle.frames.specs.Frames.{free_frame_in};
ghost use Rattle.outcome.specs.Told.{Told, unmap};
ghost use Rattle.outcome.specs.Lent.{SameList, told_at};
ghost use Rattle.lookup.specs.Work.{looking_of};
ghost use Rattle.lookup.specs.Mode.{today};
ghost use Rattle.lookup.specs.Lent.{SameStore, mode_in, work_in};
ghost use Rattle.lookup.specs.Level.{fresh_in, child_told, copy_by, share_in, leaf_told, serve, pass_by};

use entry::{PageState, PageStateTag};
use lookup::{Ask, CommitResult, Looked, LookupError, Place, Store};
use notices::Span;
use outcome::{Notices, RangeChangeOp};
use tables::Tree;

// An absent page that no parent is asked for.
#[tactic(auto, unfolding(lookup::specs::Level::fresh_in, lookup::specs::Level::fresh_by, lookup::specs::Level::cleared))]
pub fn make_fresh(store: &mut Store, p: Place, hidden: bool, halts: bool, write: bool) -> Looked
    ensures same { SameStore store.old store.new }
    ensures value { (t : Told) → looking_of result (work_in store.new t) ≡ fresh_in 4096 write (work_in store.old t) p hidden halts }
{
    if !write {
        return Ok(CommitResult::Zero);
    }
    let Some(f) = frames::take_frame(store.used) else {
        return Err(LookupError::NoMemory);
    };
    frames::clear_frame(store.memory, f);
    if hidden {
        if halts {
            frames::give_frame(store.used, f);
            return Err(LookupError::Stopped);
        }
        return Ok(CommitResult::NewPage(f));
    }
    tables::set_state(store.pages, p.node, p.page, PageState::new(f));
    Ok(CommitResult::Ref(f))
}

// The asker's own copy of a hidden node's page, which is tagged with the asker's side.
#[tactic(auto, unfolding(lookup::specs::Level::copy_by, lookup::specs::Level::child_told))]
fn copy_page(store: &mut Store, p: Place, s: PageState, tag: PageStateTag) -> Looked
    ensures same { SameStore store.old store.new }
    ensures value { (N M : List ℕ) (t : Told) (u : Bool) → (side_of (node_of N p.node) p.asker).tag ≡ tag →
        looking_of result (work_in store.new t) ≡ copy_by (today 4096 N M) p s u (free_frame_in store.old.used.now) (work_in store.old t) }
{
    let Some(f) = frames::take_frame(store.used) else {
        return Err(LookupError::NoMemory);
    };
    frames::copy_frame(store.memory, f, s.frame);
    tables::set_state(store.pages, p.node, p.page, s.with_tag(tag));
    Ok(CommitResult::CopyOnWrite(f, true))
}

// The other child has the page too: it is handed over if split, copied for writing, else shared.
#[tactic(auto, unfolding(lookup::specs::Level::share_in))]
fn share(store: &mut Store, ask: Ask, s: PageState, tag: PageStateTag, unmap: bool) -> Looked
    ensures same { SameStore store.old store.new }
    ensures value { (N M : List ℕ) (t : Told) → (side_of (node_of N ask.place.node) ask.place.asker).tag ≡ tag →
        looking_of result (work_in store.new t) ≡ share_in (today 4096 N M) ask.write ask.place s unmap (work_in store.old t) }
{
    let p = ask.place;
    let own = s.tag;
    if own.is_split() {
        tables::clear_state(store.pages, p.node, p.page);
        return Ok(CommitResult::CopyOnWrite(s.frame, unmap));
    }
    if ask.write & tag.is_split() {
        return copy_page(store, p, s, tag);
    }
    Ok(CommitResult::Ref(s.frame))
}

// An Unmap of one page.
fn unmap_of(page: u64) -> Span
    requires { page ≤ 281474976710656 }
    ensures { result ≡ record { lo = page; hi = page + 1; op = unmap } }
{
    Span {
        lo: page,
        hi: page + 1,
        op: u32::from(RangeChangeOp::Unmap),
    }
}

// An Unmap that is due goes to everything below the child.
#[tactic(auto, unfolding(lookup::specs::Level::child_told))]
fn tell_child(tree: Tree, notices: &mut Notices, child: u32, page: u64, due: bool)
    requires { page < 4294967296 }
    ensures same { SameList notices.old notices.new }
    ensures value { told_at notices.new ≡ child_told (mode_in tree.entry) child page due (told_at notices.old) }
{
    if due {
        notices::range_change(tree, notices, child, unmap_of(page), 64);
    }
}

// A leaf's mappings are told of a frame that was handed down to it.
#[tactic(auto, unfolding(lookup::specs::Level::leaf_told))]
fn tell_leaf(mappings: &[u32], notices: &mut Notices, p: Place, unmap: bool)
    requires { p.page ≤ 281474976710656 }
    ensures same { SameList notices.old notices.new }
    ensures value { told_at notices.new ≡ leaf_told mappings.now p.node p.page unmap (told_at notices.old) }
{
    if unmap {
        notices::tell_object(mappings, notices, p.node, unmap_of(p.page));
    }
}

// The page at the node: a leaf keeps it; a hidden node hands over what only the asker can reach, and shares the rest.
#[tactic(auto, using(lookup::proofs::Laws::window_low), unfolding(lookup::specs::Level::serve))]
pub fn serve(
    tree: Tree,
    store: &mut Store,
    notices: &mut Notices,
    ask: Ask,
    s: PageState,
    unmap: bool,
) -> Looked
    requires { ask.place.page ≤ 281474976710656 }
    ensures store { SameStore store.old store.new }
    ensures list { SameList notices.old notices.new }
    ensures value { looking_of result (work_in store.new (told_at notices.new))
        ≡ serve (mode_in tree.entry) ask.write ask.place s unmap (work_in store.old (told_at notices.old)) }
{
    let p = ask.place;
    let n = tables::node_at(tree.nodes, p.node);
    if !n.is_hidden() {
        tell_leaf(tree.mappings, notices, p, unmap);
        return Ok(CommitResult::Ref(s.frame));
    }
    let side = n.get_tag_and_other(p.asker);
    let other = notices::child(side.other);
    let o = tables::node_at(tree.nodes, other);
    if o.in_window(p.page) {
        tell_child(tree, notices, other, p.page, unmap);
        return share(store, ask, s, side.tag, unmap);
    }
    tables::clear_state(store.pages, p.node, p.page);
    Ok(CommitResult::CopyOnWrite(s.frame, unmap))
}

// What the parent answered, taken apart: a shared frame and a refusal leave early; a frame that was handed down is kept.
#[tactic(auto, unfolding(lookup::specs::Level::pass_by))]
pub fn pass(tree: Tree, store: &mut Store, notices: &mut Notices, ask: Ask, above: Looked) -> Looked
    requires { ask.place.page ≤ 281474976710656 }
    ensures store { SameStore store.old store.new }
    ensures list { SameList notices.old notices.new }
    ensures value { looking_of result (work_in store.new (told_at notices.new))
        ≡ pass_by (mode_in tree.entry) ask.write ask.place above (work_in store.old (told_at notices.old)) }
{
    let p = ask.place;
    match above? {
        CommitResult::Ref(_) | CommitResult::Zero => above,
        CommitResult::NewPage(f) => {
            let n = tables::node_at(tree.nodes, p.node);
            if n.is_hidden() {
                return above;
            }
            tables::set_state(store.pages, p.node, p.page, PageState::new(f));
            Ok(CommitResult::Ref(f))
        }
        CommitResult::CopyOnWrite(f, unmap) => {
            let s = PageState::new(f);
            tables::set_state(store.pages, p.node, p.page, s);
            serve(tree, store, notices, ask, s, unmap)
        }
    }
}
