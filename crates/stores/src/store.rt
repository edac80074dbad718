// What a store is: rows of 512 bytes that survive a power cut at any write.
ghost use Rattle.std.specs.Prelude.{◌≡◌, ℕ, ◌≤◌, true, length};
ghost use Rattle.model.specs.Store.{Stored};
ghost use Rattle.model.specs.Answers.{refusal};
ghost use Rattle.model.specs.declared.answer.CutPoint.{CutPoint};
ghost use Rattle.stores.specs.Promises.{Reads, Commits, Restarts};

use crate::supply::Supply;
use model::Answer;

pub trait Store {
    // What the store means: its rows and its power.
    ghost model: { Self → Stored };

    // The writes of a commit, and the write from which on the row is new.
    ghost cost: { ℕ };

    ghost turn: { ℕ };

    // The most that a restart can owe.
    ghost bound: { ℕ };

    // Where a commit of a row is cut, and a restart for so many writes.
    ghost commit_cut: { Self → ℕ → CutPoint };

    ghost restart_cut: { Self → ℕ → CutPoint };

    // The node whose card it is.
    ghost home: { Self → ℕ };

    fn node(&self) -> u8
        ensures { result ≡ home self.now };

    // The number of rows.
    fn count(&self) -> usize
        ensures { result ≡ length (model self.now).rows };

    fn is_on(&self) -> bool
        ensures { result ≡ (model self.now).power.on };

    // The writes that the next restart needs.
    fn owed(&self) -> u32
        ensures { result ≡ (model self.now).power.owed };

    // Each call says what stays in clauses of its own: proofs above take them by name (`ensures.home_stays`), and they are
    // not the same of all three calls (a read leaves the cuts too), so one record would say less plainly what each keeps.

    // Copies a row out. A store may remember what it read.
    fn read(&mut self, row: usize, out: &mut [u8]) -> Answer
        ensures reads { Reads (model self.old) (model self.new) row out.old out.new result }
        ensures cuts_stay { (commit_cut self.new ≡ commit_cut self.old) × (restart_cut self.new ≡ restart_cut self.old) }
        ensures home_stays { home self.new ≡ home self.old }
        ensures refusal_changes_nothing { refusal result ≡ true → self.new ≡ self.old };

    // Makes a row new: all of it or, where power fails, all of it or nothing.
    fn commit(&mut self, row: usize, bytes: &[u8]) -> Answer
        ensures commits { Commits cost turn (commit_cut self.old row) (model self.old) (model self.new) row bytes.now result }
        ensures home_stays { home self.new ≡ home self.old }
        ensures refusal_changes_nothing { refusal result ≡ true → self.new ≡ self.old };

    // Turns the store on with power for so many writes, of which it takes those that it owes.
    fn restart(&mut self, supply: Supply<'_>) -> Answer
        ensures restarts { Restarts (restart_cut self.old supply.entry.left) (model self.old) (model self.new) supply.entry.left supply.entry.tear supply.entry.junk.now result }
        ensures home_stays { home self.new ≡ home self.old }
        ensures refusal_changes_nothing { refusal result ≡ true → self.new ≡ self.old };

    ghost turn_counts: { 1 ≤ turn };

    ghost turn_within: { turn ≤ cost };

    ghost owes: { (s : Self) → (model s).power.owed ≤ bound };

    // A cut names the store's own node.
    ghost cut_at_home: { (s : Self) (row : ℕ) → (commit_cut s row).node ≡ home s };

    ghost wake_at_home: { (s : Self) (left : ℕ) → (restart_cut s left).node ≡ home s };
}
