//! The flags of a TCP packet, by their letters.
ghost use Rattle.std.specs.Prelude.{◌≡◌, ◌≤◌, IfSome};
ghost use Rattle.asa_session_lines.specs.Flags as spec;

/// The bytes after the letter, where they begin with it.
fn after_letter(bytes: &[u8], letter: u8) -> &[u8]
    ensures { result.now ≡ spec.after_letter letter bytes.now }
{
    match bytes.split_first() {
        Some((first, rest)) if *first == letter => rest,
        _ => bytes,
    }
}

/// The flag of the letter, where the bytes begin with it, else none.
fn flag(bytes: &[u8], letter: u8, value: u8) -> u8
    ensures { result ≡ spec.flag letter value bytes.now }
{
    if bytes.first() == Some(&letter) {
        value
    } else {
        0
    }
}

/// The flags that a word states: `-` for none, or letters of `SAFR`, each at most once, in that order; S counts 1, A 2,
/// F 4 and R 8. None where the word is out of form.
#[tactic(auto, unfolding(crate::specs::Flags::flags_of))]
pub(crate) fn flags_of(word: &[u8]) -> Option<u8>
    ensures value { result ≡ spec.flags_of word.now }
    ensures few { IfSome result (λ n. n ≤ 15) }
{
    if word == b"-".as_slice() {
        return Some(0);
    }
    let after_s = after_letter(word, b'S');
    let after_a = after_letter(after_s, b'A');
    let after_f = after_letter(after_a, b'F');
    if word.is_empty() || !after_letter(after_f, b'R').is_empty() {
        return None;
    }
    let first = flag(word, b'S', 1) + flag(after_s, b'A', 2);
    Some(first + flag(after_a, b'F', 4) + flag(after_f, b'R', 8))
}
