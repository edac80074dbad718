// What any store can do: read a row, change a byte, commit.
ghost use Rattle.stores.specs.Change.{Changes};

use super::store::Store;
use model::Answer;

// Makes one byte of a row new and commits the row.
pub fn change_byte<S: Store>(store: &mut S, row: usize, at: usize, byte: u8) -> Answer
    ensures { Changes S.cost S.turn (S.commit_cut store.old row) (S.model store.old) (S.model store.new) row at byte result }
{
    let mut page = [0; 512];
    if at >= page.len() {
        return Answer::OutOfRange;
    }
    // What is handed on is an answer, done or not: `?` would make a Result of it and an answer of that again.
    match store.read(row, &mut page) {
        Answer::Done => {
            page[at] = byte;
            store.commit(row, &page)
        }
        answer => answer,
    }
}
