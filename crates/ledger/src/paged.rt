// Values that stand in a row of a store, one page each: read and committed whole. Each row keeps the `encode` and `decode` that
// it has in public; the impls hand on to them.
ghost use Rattle.std.specs.Prelude.{◌≡◌, ℕ, List, Some, length};
ghost use Rattle.std.specs.Option.{option_map};
ghost use Rattle.model.specs.Limits.{page_bytes};
ghost use Rattle.stores.specs.Promises.{Commits};
ghost use Rattle.ledger.specs.Pages.{PageRead};

use model::Answer;
use stores::Store;

pub(crate) trait Paged {
    // What a value says, and the page of what can be said.
    ghost Meaning: { Type 0 };

    ghost says: { Self → Meaning };

    ghost Fits: { Meaning → Type 0 };

    ghost page: { Meaning → List ℕ };

    fn to_page(&self) -> [u8; 512]
        ensures page { result ≡ page (says self.now) }
        ensures size { length result ≡ page_bytes }
        ensures fits { Fits (says self.now) };

    // The value that has this page; none if no value has.
    fn from_page(bytes: &[u8; 512]) -> Option<Self>
        ensures { (x : Meaning) → Fits x → page x ≡ bytes.now → option_map says result ≡ Some x };
}

// What stands in a row; none if it cannot be read, or is no page of such a value.
pub(crate) fn read<S: Store, P: Paged>(store: &mut S, row: usize) -> Option<P>
    ensures reads { PageRead P.Fits P.page (S.model store.old) (S.model store.new) row (option_map P.says result) }
    ensures cuts_stay { (S.commit_cut store.new ≡ S.commit_cut store.old) × (S.restart_cut store.new ≡ S.restart_cut store.old) }
{
    let mut bytes = [0; 512];
    store.read(row, &mut bytes).done().ok()?;
    P::from_page(&bytes)
}

// Makes this what stands in a row.
pub(crate) fn commit<S: Store, P: Paged>(store: &mut S, row: usize, value: &P) -> Answer
    ensures commits { Commits S.cost S.turn (S.commit_cut store.old row) (S.model store.old) (S.model store.new) row (P.page (P.says value.now)) result }
    ensures size { length (P.page (P.says value.now)) ≡ page_bytes }
    ensures fits { P.Fits (P.says value.now) }
{
    store.commit(row, &value.to_page())
}
