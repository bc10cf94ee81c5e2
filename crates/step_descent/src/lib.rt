// The descent: what the walk found comes down, each node doing its part.

#![tactic(auto)]

mod committing;

ghost use Rattle.std.specs.Prelude.{◌≡◌, false, List, ℕ, ◌+◌, ◌*◌, ◌≤◌};
ghost use Rattle.outcome.specs.Lent.{SameList, told_at};
ghost use Rattle.lookup.specs.Work.{looking_of};
ghost use Rattle.lookup.specs.Mode.{today, ups};
ghost use Rattle.lookup.specs.Lent.{SameStore, mode_in, work_in};
ghost use Rattle.lookup.specs.Level.{fresh, serve};
ghost use Rattle.lookup.specs.Lookup.{look_in};
ghost use Rattle.lookup.specs.Descent.{descent, hidden_up};

pub use committing::commit_page;
use entry::PageState;
use lookup::{Ask, CommitResult, End, Looked, LookupError, Store, Walked};
use outcome::Notices;
use tables::Tree;

// An answer given `left` levels up comes down to the place: the parent's part first, then this node's.
#[tactic(auto, unfolding(lookup::specs::Descent::descent))]
fn descend(
    tree: Tree,
    store: &mut Store,
    notices: &mut Notices,
    ask: Ask,
    left: u32,
    found: Looked,
) -> Looked
    requires { ask.place.page + left * 4294967296 ≤ 281474976710656 }
    ensures store { SameStore store.old store.new }
    ensures list { SameList notices.old notices.new }
    ensures value { looking_of result (work_in store.new (told_at notices.new))
        ≡ descent (mode_in tree.entry) ask.write left ask.place (looking_of found (work_in store.old (told_at notices.old))) }
{
    if left == 0 {
        return found;
    }
    let n = tables::node_at(tree.nodes, ask.place.node);
    let up = Ask {
        place: step_walk::up_from(n, ask.place),
        ..ask
    };
    let above = descend(tree, store, notices, up, left - 1, found);
    step_level::pass(tree, store, notices, ask, above)
}

// The same; an answer that ends the lookup passes all levels at once.
#[tactic(auto, using(lookup::proofs::Down::down_final))]
fn come_down(
    tree: Tree,
    store: &mut Store,
    notices: &mut Notices,
    ask: Ask,
    left: u32,
    found: Looked,
) -> Looked
    requires { ask.place.page + left * 4294967296 ≤ 281474976710656 }
    ensures store { SameStore store.old store.new }
    ensures list { SameList notices.old notices.new }
    ensures value { looking_of result (work_in store.new (told_at notices.new))
        ≡ descent (mode_in tree.entry) ask.write left ask.place (looking_of found (work_in store.old (told_at notices.old))) }
{
    match found? {
        CommitResult::Ref(_) | CommitResult::Zero => found,
        CommitResult::NewPage(_) | CommitResult::CopyOnWrite(..) => {
            descend(tree, store, notices, ask, left, found)
        }
    }
}

// The node at the walk's end has the page.
fn serve_down(
    tree: Tree,
    store: &mut Store,
    notices: &mut Notices,
    ask: Ask,
    walked: Walked,
    s: PageState,
) -> Looked
    requires { (ask.place.page ≤ 4294967296) × (walked.levels ≤ 64) × (walked.top.page ≤ 281474976710656) }
    ensures store { SameStore store.old store.new }
    ensures list { SameList notices.old notices.new }
    ensures value { looking_of result (work_in store.new (told_at notices.new))
        ≡ descent (mode_in tree.entry) ask.write walked.levels ask.place (serve (mode_in tree.entry) ask.write walked.top s false (work_in store.old (told_at notices.old))) }
{
    let at = Ask {
        place: walked.top,
        ..ask
    };
    let found = step_level::serve(tree, store, notices, at, s, false);
    come_down(tree, store, notices, ask, walked.levels, found)
}

// Nobody on the way has the page: a cleared frame goes straight to the object where all nodes above it are hidden.
fn fresh_down(
    tree: Tree,
    store: &mut Store,
    notices: &mut Notices,
    ask: Ask,
    walked: Walked,
) -> Looked
    requires { (ask.place.page ≤ 4294967296) × (walked.levels ≤ 64) × (walked.top.page ≤ 281474976710656)
        × ((M : List ℕ) → walked.top ≡ ups (today 4096 tree.nodes.now M) walked.levels ask.place)
        × ((M : List ℕ) → walked.hidden ≡ hidden_up (today 4096 tree.nodes.now M) walked.levels ask.place) }
    ensures store { SameStore store.old store.new }
    ensures list { SameList notices.old notices.new }
    ensures value { looking_of result (work_in store.new (told_at notices.new))
        ≡ descent (mode_in tree.entry) ask.write walked.levels ask.place (fresh (mode_in tree.entry) ask.write (work_in store.old (told_at notices.old)) walked.top) }
{
    let top = walked.top;
    let own = tables::node_at(tree.nodes, ask.place.node);
    let n = tables::node_at(tree.nodes, top.node);
    let halts = n.out_of_range(top.page);
    if walked.hidden & !own.is_hidden() & !halts {
        return step_level::make_fresh(store, ask.place, false, false, ask.write);
    }
    let found = step_level::make_fresh(store, top, n.is_hidden(), halts, ask.write);
    come_down(tree, store, notices, ask, walked.levels, found)
}

// Page lookup: the walk, and the descent of what it found.
fn find_page(tree: Tree, store: &mut Store, notices: &mut Notices, ask: Ask) -> Looked
    requires { ask.place.page ≤ 4294967296 }
    ensures store { SameStore store.old store.new }
    ensures list { SameList notices.old notices.new }
    ensures value { looking_of result (work_in store.new (told_at notices.new))
        ≡ look_in (mode_in tree.entry) 64 ask.write (work_in store.old (told_at notices.old)) ask.place }
{
    let walked = step_walk::walk(tree.nodes, store.table(), ask.place);
    match walked.end {
        End::Has(s) => serve_down(tree, store, notices, ask, walked, s),
        End::Bare => fresh_down(tree, store, notices, ask, walked),
        End::Tired => Err(LookupError::Stopped),
    }
}
