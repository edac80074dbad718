// 16,384 bits, in words of 64.
ghost use Rattle.std.specs.Prelude.{◌≡◌, vec_len};

mod calls;

#[derive(Drop)]
pub struct Filter {
    words: Vec<u64>,
    ghost long: { vec_len words ≡ 256 },
}
