//! What the lines of an interface block have stated so far.
use asa_base::Name;
use asa_text::Addr;

/// What the lines of an interface block have stated so far.
#[derive(Debug, Drop)]
pub(crate) struct Stated {
    pub(crate) name: Option<Name>,
    pub(crate) level: Option<u8>,
    pub(crate) addr: Option<(Addr, u8)>,
    pub(crate) shutdown: bool,
}
