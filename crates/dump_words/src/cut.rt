//! Cuts a word at a byte.
ghost use Rattle.std.specs.Prelude.{◌≡◌, ◌<◌, ◌==◌, IfSome, length, position};

/// The first place of a byte.
pub(crate) fn mark_at(word: &[u8], mark: u8) -> Option<usize>
    ensures is { result ≡ position (λ b. b == mark) word.now }
    ensures within { IfSome result (λ i. i < length word.now) }
{
    word.iter().position(|byte| *byte == mark)
}
