//! The trail of a decision.
ghost use Rattle.std.specs.Prelude.{◌≡◌, ◌++◌, ◌<◌, ◌∷◌, []};
ghost use Rattle.arrayvec.specs.ArrayVec.{array_vec_len};
ghost use Rattle.asa_decision.specs.Trails as spec;

use asa_flow::{Detail, DropReason, Phase, Step, Trail};

/// A trail that a decision can begin with: the step FLOW-LOOKUP, which found no connection.
pub fn begun_trail() -> Trail
    ensures { spec.IsBegun result.items }
{
    let mut trail = Trail::new();
    note(&mut trail, Phase::FlowLookup, Detail::None);
    trail
}

/// Notes a step that lets the packet through.
fn note(trail: &mut Trail, phase: Phase, detail: Detail)
    requires { array_vec_len trail.old < 11 }
    ensures { trail.new.items ≡ trail.old.items ++ record { phase = phase; detail = detail } ∷ [] }
{
    trail.push(Step { phase, detail });
}

/// Notes the step that drops the packet.
fn stop(trail: &mut Trail, phase: Phase, reason: DropReason) -> DropReason
    requires { array_vec_len trail.old < 11 }
    ensures value { result ≡ reason }
    ensures steps { trail.new.items ≡ trail.old.items ++ spec.dropped phase reason ∷ [] }
{
    let detail = Detail::Dropped(reason.copy());
    trail.push(Step { phase, detail });
    reason
}

/// Notes what the test of a step found; a drop is the answer too. The trail has room for one more step.
pub fn check(
    trail: &mut Trail,
    phase: Phase,
    found: Result<Detail, DropReason>,
) -> Result<(), DropReason>
    requires { array_vec_len trail.old < 11 }
    ensures { spec.Checks phase found result trail.old.items trail.new.items }
{
    match found {
        Ok(detail) => {
            note(trail, phase, detail);
            Ok(())
        }
        Err(reason) => Err(stop(trail, phase, reason)),
    }
}
