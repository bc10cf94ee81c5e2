// commit_page (paged.rs 520): an object's page.
ghost use Rattle.std.specs.Prelude.{◌≡◌, ◌≤◌};
ghost use Rattle.outcome.specs.Lent.{SameList, told_at};
ghost use Rattle.lookup.specs.Lent.{SameStore, mode_in, work_in};
ghost use Rattle.lookup.specs.Lookup.{look_in};
ghost use Rattle.lookup.specs.Commit.{committed_by, committing_of, committing};

use lookup::{Ask, CommitResult, Committed, Looked, Store};
use outcome::{Notices, Refusal};
use tables::Tree;

// A leaf hands nothing up: the source says that it can't be reached.
fn committed_by(looked: Looked) -> Committed
    ensures { result ≡ committed_by looked }
{
    match looked? {
        CommitResult::Ref(f) => Ok(Some(f)),
        CommitResult::Zero => Ok(None),
        CommitResult::CopyOnWrite(..) | CommitResult::NewPage(_) => Err(Refusal::Stopped),
    }
}

pub fn commit_page(tree: Tree, store: &mut Store, notices: &mut Notices, ask: Ask) -> Committed
    requires { ask.place.page ≤ 4294967296 }
    ensures store { SameStore store.old store.new }
    ensures list { SameList notices.old notices.new }
    ensures value { committing_of result (work_in store.new (told_at notices.new))
        ≡ committing (look_in (mode_in tree.entry) 64 ask.write (work_in store.old (told_at notices.old)) ask.place) }
{
    committed_by(crate::find_page(tree, store, notices, ask))
}
