// The four bits of a name.
ghost use Rattle.std.specs.Prelude.{◌≡◌, ◌+◌, ◌*◌, ◌%◌};
ghost use Rattle.bloom.specs.Bits.{mixed, four_bits};

use names::Taken;

const BITS: u32 = 16_384;

// The name and the stop as one number.
fn mix(taken: Taken) -> u32
    ensures { result ≡ mixed taken.stop taken.name }
{
    taken.weighed(2_654_435_761, 40_503, 32, 1)
}

// The i-th bit of a walk that starts at a and goes on by b.
fn step(a: u32, b: u32, i: u32) -> usize
    ensures { result ≡ (a + i * b) % 16384 }
{
    (a.wrapping_add(b.wrapping_mul(i)) % BITS) as usize
}

// The bits of a name taken at a stop, among 16,384.
pub fn bits_of(taken: Taken) -> [usize; 4]
    ensures { result ≡ four_bits taken.stop taken.name }
{
    let a = mix(taken);
    let b = a.rotate_left(16) | 1;
    [0, 1, 2, 3].map(|i| step(a, b, i))
}
