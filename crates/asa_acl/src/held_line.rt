//! Lines as the lists hold them.
ghost use Rattle.std.specs.Prelude.{◌≡◌, ℕ, ◌<◌, length, position, IfOk, IfSome};
ghost use Rattle.asa_acl_line.specs.Lines.{line_eq};
ghost use Rattle.asa_acl.specs.Fingerprints as marks;

use crate::fingerprint::mark_of;
use asa_acl_line::AclLine;
use asa_text::Shared;
use std::alloc::{AllocError, Global};
use std::marker::Model;

/// A line as a list holds it: copies of the list share it. Its fingerprint stands beside it, so that a search for an
/// equal line seldom reads another one.
#[derive(Debug, Drop)]
pub struct HeldLine {
    mark: u64,
    line: Shared<AclLine>,
}

impl Model for HeldLine {
    ghost use Rattle.std.specs.Prelude.{◌≡◌};
    ghost use Rattle.asa_acl_line.specs.declared.ace.AclLine.{AclLine};
    ghost use Rattle.asa_acl.specs.Fingerprints.{mark_of};

    ghost Value = { AclLine };

    ghost view = { λ h. h.line };

    ghost invariant = { λ h. h.mark ≡ mark_of h.line };
}

impl HeldLine {
    pub(crate) fn new(alloc: Global, line: AclLine) -> Result<HeldLine, AllocError>
        ensures { IfOk result (λ h. h ≡ line) }
    {
        let mark = mark_of(&line);
        let line = Shared::new(alloc, line)?;
        Ok(HeldLine { mark, line })
    }

    /// One more holder of the same line. It fails only where the count of holders is full.
    pub(crate) fn share(&self) -> Result<HeldLine, AllocError>
        ensures { IfOk result (λ h. h ≡ self.now) }
    {
        let line = self.line.share()?;
        Ok(HeldLine {
            mark: self.mark,
            line,
        })
    }

    /// The line.
    pub fn line(&self) -> &AclLine
        ensures { result.now ≡ self.now }
    {
        self.line.get()
    }

    /// Whether the line is equal to this one, of which `mark` is the fingerprint.
    fn holds(&self, mark: u64, item: &AclLine) -> bool
        requires { mark ≡ marks.mark_of item.now }
        ensures { result ≡ line_eq item.now self.now }
    {
        self.mark == mark && item.is_same(self.line())
    }
}

impl Clone for HeldLine {
    ghost is_clone = { λ a b. b ≡ a };

    fn clone(&self) -> Result<HeldLine, AllocError> {
        self.share()
    }
}

/// The place, from 0, of the first line that is equal to this one.
pub(crate) fn place_of_equal(lines: &[HeldLine], item: &AclLine) -> Option<usize>
    ensures value { result ≡ position (line_eq item.now) lines.now }
    ensures within { IfSome result (λ i. i < length lines.now) }
{
    let mark = mark_of(item);
    lines.iter().position(|held| held.holds(mark, item))
}

/// The same lines, held once more.
pub(crate) fn share_lines(alloc: Global, lines: &[HeldLine]) -> Result<Vec<HeldLine>, AllocError>
    ensures { IfOk result (λ v. v.items ≡ lines.now) }
{
    let mut shared = Vec::with_capacity(alloc, lines.len())?;
    for held in lines {
        shared.push(held.share()?)?;
    }
    Ok(shared)
}
