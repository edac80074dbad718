// The entries of a row, pending productions and names, as bytes.
ghost use Rattle.std.specs.Prelude.{◌≡◌, ℕ, ◌+◌, ◌*◌, ◌<◌, ◌≤◌, List, length, map, min, slice_index_or, refl};
ghost use Rattle.std.proofs.Math.Seq.{paste};
ghost use Rattle.std.specs.List.{flat_map, range_with_len};
ghost use Rattle.bounded.specs.Lists.{listed};
ghost use Rattle.rows.specs.Layout.{pending_bytes, name_bytes, pending_size, name_size, PendingFits, NameFits};
ghost use Rattle.rows.specs.Reading.{production_in, name_in};

use crate::bytes::{bytes_at, put};
use bounded::Bounded;
use model::{Name, Production};

// What a row has many of, each in so many bytes.
pub(crate) trait Entry: Copy + Default {
    const SIZE: usize;

    ghost SIZE: { ℕ };

    // Its bytes, what stands at a place in bytes, and that its fields hold what they say.
    ghost bytes_of: { Self → List ℕ };

    ghost entry_in: { List ℕ → ℕ → Self };

    ghost fits: { Self → Type 0 };

    fn put_at(self, out: &mut [u8], at: usize)
        requires { at + SIZE ≤ length out.old }
        ensures fits { fits self }
        ensures after { out.new ≡ paste out.old at (bytes_of self) SIZE };

    fn read_at(bytes: &[u8], at: usize) -> Self
        requires { at + SIZE ≤ length bytes.now }
        ensures { result ≡ entry_in bytes.now at };

    ghost sized: { (entry : Self) → length (bytes_of entry) ≡ SIZE };
}

// Where the state, the pending productions and the names begin.
pub(crate) const STATE_AT: usize = 8;

pub(crate) const PENDING_AT: usize = STATE_AT + 32;

pub(crate) const NAMES_AT: usize = PENDING_AT + 4 * 12;

impl Entry for Production {
    const SIZE: usize = 12;

    ghost SIZE = { pending_size };

    ghost bytes_of = { pending_bytes };

    ghost entry_in = { production_in };

    ghost fits = { PendingFits };

    ghost sized = { λ _. refl };

    fn put_at(self, out: &mut [u8], at: usize) {
        let [s0, s1, s2, s3] = self.serial.to_le_bytes();
        let [t0, t1, t2, t3] = self.time.to_le_bytes();
        let [a0, a1, a2, a3] = u32::from(self.amount).to_le_bytes();
        put(out, at, &[s0, s1, s2, s3, t0, t1, t2, t3, a0, a1, a2, a3]);
    }

    fn read_at(bytes: &[u8], at: usize) -> Production {
        Production {
            serial: u32::from_le_bytes(bytes_at(bytes, at)),
            time: u32::from_le_bytes(bytes_at(bytes, at + 4)),
            amount: u16::from_le_bytes(bytes_at(bytes, at + 8)),
        }
    }
}

impl Entry for Name {
    const SIZE: usize = 10;

    ghost SIZE = { name_size };

    ghost bytes_of = { name_bytes };

    ghost entry_in = { name_in };

    ghost fits = { NameFits };

    ghost sized = { λ _. refl };

    fn put_at(self, out: &mut [u8], at: usize) {
        let [n0, n1] = self.sender.to_le_bytes();
        let [s0, s1, s2, s3] = self.serial.to_le_bytes();
        let [t0, t1, t2, t3] = self.time.to_le_bytes();
        put(out, at, &[n0, n1, s0, s1, s2, s3, t0, t1, t2, t3]);
    }

    fn read_at(bytes: &[u8], at: usize) -> Name {
        Name {
            sender: u16::from_le_bytes(bytes_at(bytes, at)),
            serial: u32::from_le_bytes(bytes_at(bytes, at + 2)),
            time: u32::from_le_bytes(bytes_at(bytes, at + 6)),
        }
    }
}

// Writes entries, one after another, from a place on. By places, as a proof knows nothing of what was written through
// `chunks_exact_mut`.
pub(crate) fn put_entries<E: Entry>(out: &mut [u8], at: usize, entries: &[E])
    requires { at + E.SIZE * length entries.now ≤ length out.old }
    ensures fits { (i : ℕ) (d : E) → i < length entries.now → E.fits (slice_index_or entries.now i d) }
    ensures after { out.new ≡ paste out.old at (flat_map E.bytes_of entries.now) (E.SIZE * length entries.now) }
{
    for (i, entry) in entries.iter().enumerate() {
        entry.put_at(out, at + E::SIZE * i);
    }
}

// So many entries, and at most N, from a place on. By places, as the definitions of Reading say it; `chunks_exact` would
// ask of each entry a law that its bytes alone read the same.
pub(crate) fn entries_in<E: Entry, const N: usize>(
    bytes: &[u8],
    at: usize,
    count: u8,
) -> Bounded<E, N>
    requires { at + E.SIZE * N ≤ length bytes.now }
    ensures { listed result ≡ map (λ i. E.entry_in bytes.now (at + E.SIZE * i)) (range_with_len 0 (min N count)) }
{
    let mut list = Bounded::new(E::default());
    for i in 0..usize::from(count).min(N) {
        let _ = list.push(E::read_at(bytes, at + E::SIZE * i));
    }
    list
}
