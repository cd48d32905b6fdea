//! Random calls, most of which fit what the session has.

use super::calls::Call;
use super::model::Model;
use super::random::Random;
use cbpf_code::Ext;
use cbpf_dbg::{Place, When};

/// All extensions.
pub static EXTENSIONS: [Ext; 15] = [
    Ext::Proto,
    Ext::PktType,
    Ext::IfIdx,
    Ext::Nla,
    Ext::NlaN,
    Ext::Mark,
    Ext::Queue,
    Ext::HaType,
    Ext::RxHash,
    Ext::Cpu,
    Ext::VlanTci,
    Ext::VlanAvail,
    Ext::PayOff,
    Ext::Rand,
    Ext::VlanTpid,
];

/// Those that the programs ask for.
static ASKED: [Ext; 4] = [Ext::Mark, Ext::VlanTci, Ext::Cpu, Ext::Rand];

/// The number of each program. Some stand more than once, to be loaded more often.
static PROGRAMS: [u64; 12] = [0, 1, 2, 3, 4, 5, 6, 7, 1, 6, 7, 7];

/// The number of each capture, likewise.
static CAPTURES: [u64; 8] = [0, 1, 2, 3, 4, 0, 3, 3];

static VALUES: [u32; 5] = [0, 1, 1, 2, u32::MAX];

static LIMITS: [u64; 8] = [0, 1, 1, 2, 3, 60, u64::MAX - 1, u64::MAX];

static FAR_STEPS: [i64; 6] = [i64::MIN, i64::MIN + 1, -4096, 0, 4096, i64::MAX];

/// Places that most captures and programs do not have.
static FAR_PLACES: [Place; 4] = [
    Place { packet: 0, step: 1 },
    Place {
        packet: 1,
        step: u32::MAX,
    },
    Place {
        packet: u64::MAX,
        step: 0,
    },
    Place {
        packet: 1,
        step: 65,
    },
];

/// The number of an instruction, or one past the last.
fn instruction(random: &mut Random) -> u64 {
    match random.below(8) {
        0 => random.below(202),
        1 => u64::MAX.saturating_sub(random.below(4)),
        2 => random.below(4).saturating_add(4294967296),
        _ => random.below(8),
    }
}

/// A breakpoint, mostly at the instruction of an entry, with a condition that holds there.
fn breakpoint(random: &mut Random, m: &Model) -> Call {
    let Some(entry) = random.one_of(&m.joined) else {
        return Call::Break(instruction(random), When::X(0));
    };
    let (a, x) = (entry.state.a(), entry.state.x());
    let n = u64::from(entry.state.pc());
    match random.below(6) {
        0 => Call::Break(instruction(random), When::Always),
        1 => Call::Break(n, When::X(x)),
        2 => Call::Break(instruction(random), When::X(x)),
        3 => Call::Break(instruction(random), When::A(a)),
        4 => Call::Break(n, When::A(a)),
        _ => Call::Break(n, When::Always),
    }
}

/// Mostly of a breakpoint that is set.
fn delete(random: &mut Random, m: &Model) -> Call {
    match random.one_of(&m.breakpoints) {
        Some((n, _)) if random.below(4) > 0 => Call::Delete(u64::from(n)),
        _ => Call::Delete(instruction(random)),
    }
}

fn run(random: &mut Random) -> Call {
    if random.below(2) == 0 {
        Call::Run(None)
    } else {
        Call::Run(random.one_of(&LIMITS))
    }
}

fn forward(n: u64) -> Call {
    Call::Step(i64::try_from(n).unwrap_or(i64::MAX))
}

fn back(n: u64) -> Call {
    Call::Step(0i64.saturating_sub(i64::try_from(n).unwrap_or(i64::MAX)))
}

/// So many steps forward or back.
fn either_way(random: &mut Random, n: u64) -> Call {
    if random.below(2) == 0 {
        forward(n)
    } else {
        back(n)
    }
}

fn step(random: &mut Random, m: &Model) -> Call {
    match random.below(8) {
        0 => Call::Step(random.one_of(&FAR_STEPS).unwrap_or(0)),
        1 => {
            let most = m.joined.len() as u64;
            let n = random.below(most);
            either_way(random, n)
        }
        2 => {
            let n = random.below(130);
            either_way(random, n)
        }
        3..=5 => {
            let most = u64::from(m.place.step).saturating_sub(1);
            back(random.below(most).saturating_add(1))
        }
        _ => {
            let n = random.below(3).saturating_add(1);
            either_way(random, n)
        }
    }
}

/// A saved place, the place of an entry, or one that is far.
fn resume(random: &mut Random, m: &Model, saved: &[Place]) -> Call {
    let place = match random.below(6) {
        0 => random.one_of(&FAR_PLACES),
        1 | 2 => random.one_of(&m.joined).map(|entry| entry.place),
        _ => random.one_of(saved),
    };
    Call::Resume(place.unwrap_or(Place { packet: 1, step: 0 }))
}

fn select(random: &mut Random, m: &Model) -> Call {
    match random.below(8) {
        0 => Call::Select(u64::MAX),
        _ => Call::Select(random.below(m.packet_count().saturating_add(2))),
    }
}

fn value(random: &mut Random) -> Call {
    let e = match random.below(4) {
        0 => random.one_of(&EXTENSIONS),
        _ => random.one_of(&ASKED),
    };
    let v = random.one_of(&VALUES).unwrap_or(0);
    Call::SetValue(e.unwrap_or(Ext::Proto), v)
}

/// Sometimes a load, and more often where nothing is loaded yet.
fn load(random: &mut Random, m: &Model) -> Option<Call> {
    let (program, capture) = (m.program.is_some(), m.capture.is_some());
    if random.below(if program { 50 } else { 5 }) == 0 {
        random.one_of(&PROGRAMS).map(Call::Program)
    } else if random.below(if capture { 50 } else { 5 }) == 0 {
        random.one_of(&CAPTURES).map(Call::Capture)
    } else {
        None
    }
}

/// The next call. `saved` are the places so far.
pub fn choose(random: &mut Random, m: &Model, saved: &[Place]) -> Call {
    if let Some(call) = load(random, m) {
        return call;
    }
    match random.below(64) {
        0 => Call::Reset,
        1..=2 => value(random),
        3..=5 => select(random, m),
        6..=10 => delete(random, m),
        11..=22 => breakpoint(random, m),
        23..=32 => resume(random, m, saved),
        33..=48 => step(random, m),
        _ => run(random),
    }
}
