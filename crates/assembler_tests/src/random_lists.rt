//! C10 against a plain walk along each path, over lists from a fixed generator.

ghost use Rattle.std.specs.Prelude.{◌<◌};

use crate::assertions::Test;
use cbpf_code::{CheckFault, Insn, check};

/// A number below `end`, from a linear congruential generator by Knuth's constants for 64 bits.
fn below(state: &mut u64, end: u32) -> u32
    requires { 0 < end }
    ensures { result < end }
{
    *state = state
        .wrapping_mul(6364136223846793005)
        .wrapping_add(1442695040888963407);
    ((*state >> 33) as u32) % end
}

/// Where the path loads one of two slots first that it hasn't stored; the bits of `branches`, from the
/// lowest on, say which way its conditional jumps go.
fn first_unwritten_on(list: &[Insn], branches: u32) -> Option<u32> {
    let mut stored = [false; 2];
    let mut ways = branches;
    let mut next: usize = 0;
    for (at, insn) in list.iter().enumerate() {
        if at != next {
            continue;
        }
        let mut skipped: usize = 0;
        match insn.code {
            6 => return None,
            96 | 97 if stored.get(insn.k as usize) == Some(&false) => return u32::try_from(at).ok(),
            2 | 3 => {
                if let Some(slot) = stored.get_mut(insn.k as usize) {
                    *slot = true;
                }
            }
            5 => skipped = insn.k as usize,
            21 | 29 => {
                skipped = usize::from(if ways % 2 == 1 { insn.jt } else { insn.jf });
                ways /= 2;
            }
            _ => (),
        }
        next = at.saturating_add(1).saturating_add(skipped);
    }
    None
}

/// The first such place over every path of a list with at most eight jumps.
fn first_unwritten(list: &[Insn]) -> Option<u32> {
    let mut first = None;
    for branches in 0..256u32 {
        if let Some(at) = first_unwritten_on(list, branches) {
            first = Some(at.min(first.unwrap_or(at)));
        }
    }
    first
}

/// The place that the checker answers; `u32::MAX` for another fault.
fn refused_at(list: Vec<Insn>) -> Option<u32> {
    match check(list) {
        Ok(_) => None,
        Err((CheckFault::UnwrittenSlot(at), _)) => Some(at),
        Err(_) => Some(u32::MAX),
    }
}

const CODES: [u16; 8] = [21, 29, 2, 3, 96, 97, 5, 6];

const RETURN: Insn = Insn {
    code: 6,
    jt: 0,
    jf: 0,
    k: 0,
};

fn random_insn(state: &mut u64) -> Insn {
    let code = *CODES.get(below(state, 8) as usize).unwrap_or(&6);
    let jt = below(state, 3) as u8;
    let jf = below(state, 3) as u8;
    let k = below(state, 2);
    Insn { code, jt, jf, k }
}

// No jump goes over more than two instructions, and three returns stand at the end: none leads outside.
fn random_list(rt: &impl Test, state: &mut u64) -> Vec<Insn> {
    let mut list = Vec::new(rt.alloc());
    for _ in 0..below(state, 9) {
        list.push(random_insn(state)).expect(rt, "memory");
    }
    list.extend_from_slice(&[RETURN; 3]).expect(rt, "memory");
    list
}

/// C10 is what a plain walk along each path finds, over 2000 lists.
#[test]
fn slots_along_each_path(rt: HostRuntime) {
    let mut state: u64 = 1;
    let mut accepted = 0u32;
    for n in 0..2000u32 {
        let list = random_list(&rt, &mut state);
        let wanted = first_unwritten(&list);
        let found = refused_at(list);
        assert!(rt; found == wanted, "list {n}");
        accepted = accepted.saturating_add(u32::from(found.is_none()));
    }
    assert!(rt; accepted > 500 && accepted < 1500, "{accepted}");
}
