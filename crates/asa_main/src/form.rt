//! The forms of the command line.
ghost use Rattle.std.specs.Prelude.{◌≡◌, map};
ghost use Rattle.std.specs.String.{string_bytes};
ghost use Rattle.asa_main.specs.Forms as spec;

/// A form of the command line.
#[derive(Clone, Copy, Debug, PartialEq, Eq)]
pub(crate) enum Form {
    /// `run`: a session is run, and its report written.
    Run,
    /// `shadow`: of each active line of the lists of a startup configuration it is found whether it ever decides.
    Shadow,
}

/// The form that a single word is.
fn form_of_word(word: &String) -> Option<Form>
    ensures { result ≡ spec.form_of_word (string_bytes word.now) }
{
    let word = word.as_str().as_bytes();
    if word == b"run".as_slice() {
        Some(Form::Run)
    } else if word == b"shadow".as_slice() {
        Some(Form::Shadow)
    } else {
        None
    }
}

/// The form that the words are, if they are one.
pub(crate) fn form_of(words: &[String]) -> Option<Form>
    ensures { result ≡ spec.form_of (map string_bytes words.now) }
{
    match words {
        [word] => form_of_word(word),
        _ => None,
    }
}
