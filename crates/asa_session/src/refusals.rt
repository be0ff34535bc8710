//! Refusals of a line that is out of form, is one too many, or isn't built.
ghost use Rattle.std.specs.Prelude.{◌≡◌};
ghost use Rattle.asa_session.specs.declared.session.SessionError.TheVariants as error;
ghost use Rattle.asa_session.specs.declared.session.SessionKind.TheVariants as kind;

use crate::session::{SessionError, SessionKind};

/// The refusal of a line that has none of the forms of its place.
pub(crate) fn out_of_form(line: u32) -> SessionError
    ensures { result ≡ error.At line kind.Syntax }
{
    SessionError::At {
        line,
        kind: SessionKind::Syntax,
    }
}

/// The refusal of the line with which there are too many.
pub(crate) fn too_many_lines(line: u32) -> SessionError
    ensures { result ≡ error.At line kind.TooManyLines }
{
    SessionError::At {
        line,
        kind: SessionKind::TooManyLines,
    }
}

/// The refusal of a script line that isn't built.
pub(crate) fn unbuilt_script(line: u32) -> SessionError
    ensures { result ≡ error.At line kind.NotBuilt }
{
    SessionError::At {
        line,
        kind: SessionKind::NotBuilt,
    }
}
