//! What a turn gives, and how a packet ends.

ghost use Rattle.std.specs.Prelude.{◌≡◌};
ghost use Rattle.cbpf_machine.specs.Outcomes as spec;

use crate::state::State;
use cbpf_code::Ext;

/// What one turn gives.
#[derive(Clone, Copy, Debug, PartialEq, Eq)]
pub enum Turn {
    /// The state before the instruction that comes next.
    Next(State),
    /// The number that a return gave.
    Returned(u32),
    /// A load went past the captured bytes.
    Outside,
    /// A division or remainder by 0.
    ZeroDivisor,
    /// A load asked for an extension that has no value.
    Unknown(Ext),
}

/// How a packet's last turn ends it.
#[derive(Clone, Copy, Debug, PartialEq, Eq)]
pub enum End {
    /// It returned this number, which may be 0.
    Returned(u32),
    /// A load went past the captured bytes.
    Outside,
    /// A division or remainder by 0.
    ZeroDivisor,
    /// A load asked for this extension, which has no value.
    Unknown(Ext),
}

impl From<End> for Turn {
    ghost use Rattle.std.specs.Prelude.{◌≡◌};
    ghost use Rattle.cbpf_machine.specs.InPlace.{turn_of};

    ghost from_gives = { λ end t. t ≡ turn_of end };

    fn from(end: End) -> Turn {
        match end {
            End::Returned(v) => Turn::Returned(v),
            End::Outside => Turn::Outside,
            End::ZeroDivisor => Turn::ZeroDivisor,
            End::Unknown(e) => Turn::Unknown(e),
        }
    }
}

/// How a packet ends.
#[derive(Clone, Copy, Debug, PartialEq, Eq)]
pub enum Outcome {
    /// The program returned this number, which is not 0.
    Pass(u32),
    /// The program returned 0, loaded from outside the packet or divided by 0.
    Fail,
    /// The program asked for this extension, which has no value.
    Unknown(Ext),
}

impl Outcome {
    /// Whether the packet passed.
    pub fn is_pass(&self) -> bool
        ensures { result ≡ spec.is_pass self.now }
    {
        matches!(self, Outcome::Pass(_))
    }
}

impl From<End> for Outcome {
    ghost use Rattle.std.specs.Prelude.{◌≡◌};
    ghost use Rattle.cbpf_machine.specs.InPlace.{turn_of};
    ghost use Rattle.cbpf_machine.specs.Trace.{outcome_of};

    ghost from_gives = { λ end o. o ≡ outcome_of (turn_of end) };

    fn from(end: End) -> Outcome {
        match end {
            End::Returned(v) if v != 0 => Outcome::Pass(v),
            End::Unknown(e) => Outcome::Unknown(e),
            _ => Outcome::Fail,
        }
    }
}
