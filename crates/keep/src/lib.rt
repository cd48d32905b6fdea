//! Stops that a session can go back to.
#![tactic(auto)]

ghost use Rattle.std.specs.Prelude.{◌≡◌, IfOk, Ok};
ghost use Rattle.std.specs.List.{All};
ghost use Rattle.cbpf_dbg.specs.Commands.{stops};
ghost use Rattle.cbpf_dbg.specs.Here.{CanReturn};
ghost use Rattle.keep.specs.Kept.{IsMoved};

use cbpf_dbg::{Meter, Session, SessionFault, Stop, Trail};
use std::alloc::Allocator;

/// Runs to each stop that is ahead, and keeps them: all, each once, in order.
pub fn keep_all<T: Trail, A: Allocator + Copy>(
    alloc: A,
    session: &mut Session<T, A>,
) -> Result<Vec<Stop, A>, SessionFault>
    ensures all { IfOk result (λ kept. stops session.old ≡ Ok kept.items) }
    ensures kept { IfOk result (λ kept. All (CanReturn session.new) kept.items) }
    ensures moved { IsMoved session.old session.new }
{
    let mut kept = Vec::new(alloc);
    session.run_to_end(&mut Meter::new(), &mut kept)?;
    Ok(kept)
}

/// Goes back to a stop that was kept: it is the same one, with the same registers.
pub fn go_back<T: Trail, A: Allocator>(
    session: &mut Session<T, A>,
    stop: &Stop,
) -> Result<Stop, SessionFault>
    requires { CanReturn session.old stop.now }
    ensures same { result ≡ Ok stop.now }
    ensures moved { IsMoved session.old session.new }
{
    session.resume(&mut Meter::new(), stop.place)?;
    match session.here() {
        Some(again) => Ok(again),
        None => unreachable!(),
    }
}

/// Goes back to the first of the stops that were kept, if there is one.
pub fn go_back_to_first<T: Trail, A: Allocator>(
    session: &mut Session<T, A>,
    kept: &[Stop],
) -> Result<Option<Stop>, SessionFault>
    requires { All (CanReturn session.old) kept.now }
    ensures moved { IsMoved session.old session.new }
{
    match kept.first() {
        Some(first) => Ok(Some(go_back(session, first)?)),
        None => Ok(None),
    }
}
