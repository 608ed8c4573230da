// Cuts bytes at the first of a given byte.
ghost use Rattle.std.specs.Prelude.{◌≡◌, length};
ghost use Rattle.spelling.specs.Cuts.{until, since};

/// How many bytes stand before the first `at`.
fn length_before(bytes: &[u8], at: u8) -> usize
    ensures { result ≡ length (until at bytes.now) }
{
    bytes.iter().position(|b| *b == at).unwrap_or(bytes.len())
}

/// What stands before the first `at`, and the rest from there on.
pub(crate) fn cut(bytes: &[u8], at: u8) -> (&[u8], &[u8])
    ensures front { result.0.now ≡ until at bytes.now }
    ensures rest { result.1.now ≡ since at bytes.now }
{
    bytes.split_at(length_before(bytes, at))
}
