//! The runs of bytes between two bytes of one kind, as the parts of an address between its dots.
ghost use Rattle.std.specs.Prelude.{◌≡◌, ◌==◌, ◌≤◌, ◌∷◌, [], length};
ghost use Rattle.std.specs.List.{position_or_len};
ghost use Rattle.std.specs.Option.{MatchOption};
ghost use Rattle.asa_text.specs.Runs.{runs_between};

/// How many bytes stand before the first that is `stop`, or all of them.
pub(crate) fn before_byte(bytes: &[u8], stop: u8) -> usize
    ensures value { result ≡ position_or_len (λ b. b == stop) bytes.now }
    ensures within { result ≤ length bytes.now }
{
    for (i, b) in bytes.iter().enumerate() {
        if *b == stop {
            return i;
        }
    }
    bytes.len()
}

/// The bytes before the first that is `stop`, and those after it where there is one.
#[tactic(auto, using(crate::proofs::RunLaws::runs_first, crate::proofs::RunLaws::runs_last))]
pub fn cut_run(bytes: &[u8], stop: u8) -> (&[u8], Option<&[u8]>)
    ensures { MatchOption result.1 (runs_between stop bytes.now ≡ result.0.now ∷ [])
        (λ rest. runs_between stop bytes.now ≡ result.0.now ∷ runs_between stop rest.now) }
{
    let len = before_byte(bytes, stop);
    if len < bytes.len() {
        (bytes.split_at(len).0, Some(bytes.split_at(len + 1).1))
    } else {
        (bytes, None)
    }
}
