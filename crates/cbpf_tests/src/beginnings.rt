//! Each beginning of a source, with its number of instructions or its refusal.

use crate::assertions::{Test, assert_at};
use cbpf_text::{AsmFault, AsmKind, assemble};
use std::alloc::Global;

/// What a beginning is answered by.
#[derive(Clone, Copy, PartialEq)]
enum Answer {
    /// This many instructions.
    Assembled(usize),
    Refused(AsmFault),
}

const BRANCH: &[u8] =
    b"/* c */ top: ldx 4*([14] & 0xf)\njeq #0x0800, yes, no\nyes: ret #-1\nno: ret #0\n";

/// The answers to the beginnings of `BRANCH`, each with the greatest length that has it.
const BRANCH_ANSWERS: [(usize, Answer); 19] = [
    (0, Answer::Refused(AsmFault::At(AsmKind::NoInstruction, 1))),
    (1, Answer::Refused(AsmFault::At(AsmKind::NoToken, 1))),
    (6, Answer::Refused(AsmFault::At(AsmKind::OpenComment, 1))),
    (8, Answer::Refused(AsmFault::At(AsmKind::NoInstruction, 1))),
    (27, Answer::Refused(AsmFault::At(AsmKind::Unfinished, 1))),
    // `& 0`, and `& 0x`
    (28, Answer::Refused(AsmFault::At(AsmKind::Misplaced, 1))),
    (29, Answer::Refused(AsmFault::At(AsmKind::NoToken, 1))),
    (30, Answer::Refused(AsmFault::At(AsmKind::Unfinished, 1))),
    (32, Answer::Assembled(1)),
    (38, Answer::Refused(AsmFault::At(AsmKind::Unfinished, 2))),
    (39, Answer::Refused(AsmFault::At(AsmKind::NoToken, 2))),
    (45, Answer::Refused(AsmFault::At(AsmKind::Unfinished, 2))),
    // `yes`, `, no`, and their beginnings
    (48, Answer::Refused(AsmFault::At(AsmKind::LabelNotSet, 2))),
    (50, Answer::Refused(AsmFault::At(AsmKind::Unfinished, 2))),
    (53, Answer::Refused(AsmFault::At(AsmKind::LabelNotSet, 2))),
    (64, Answer::Refused(AsmFault::At(AsmKind::Unfinished, 3))),
    (66, Answer::Refused(AsmFault::At(AsmKind::LabelNotSet, 2))),
    (75, Answer::Refused(AsmFault::At(AsmKind::Unfinished, 4))),
    (77, Answer::Assembled(4)),
];

const COMMENTS: &[u8] =
    b"/* both\n   ways */ ldx 4*([14] & 0xf)   ; header\nldh [x + 16]\n  # port\njgt %x, up, down\nup: down: ret #0b11\n";

/// The same of `COMMENTS`.
const COMMENTS_ANSWERS: [(usize, Answer); 19] = [
    (0, Answer::Refused(AsmFault::At(AsmKind::NoInstruction, 1))),
    (1, Answer::Refused(AsmFault::At(AsmKind::NoToken, 1))),
    (17, Answer::Refused(AsmFault::At(AsmKind::OpenComment, 1))),
    (19, Answer::Refused(AsmFault::At(AsmKind::NoInstruction, 1))),
    (33, Answer::Refused(AsmFault::At(AsmKind::Unfinished, 2))),
    (34, Answer::Refused(AsmFault::At(AsmKind::Misplaced, 2))),
    (35, Answer::Refused(AsmFault::At(AsmKind::NoToken, 2))),
    (36, Answer::Refused(AsmFault::At(AsmKind::Unfinished, 2))),
    (49, Answer::Assembled(1)),
    (60, Answer::Refused(AsmFault::At(AsmKind::Unfinished, 3))),
    (71, Answer::Assembled(2)),
    (79, Answer::Refused(AsmFault::At(AsmKind::Unfinished, 5))),
    // `up`, `, down`, and their beginnings
    (81, Answer::Refused(AsmFault::At(AsmKind::LabelNotSet, 5))),
    (83, Answer::Refused(AsmFault::At(AsmKind::Unfinished, 5))),
    (88, Answer::Refused(AsmFault::At(AsmKind::LabelNotSet, 5))),
    (103, Answer::Refused(AsmFault::At(AsmKind::Unfinished, 6))),
    (104, Answer::Assembled(4)),
    (105, Answer::Refused(AsmFault::At(AsmKind::NoToken, 6))),
    (108, Answer::Assembled(4)),
];

fn answer_to(alloc: Global, source: &[u8]) -> Answer {
    match assemble(alloc, source) {
        Ok(list) => Answer::Assembled(list.len()),
        Err(fault) => Answer::Refused(fault),
    }
}

/// The beginnings from one length to another have this answer.
fn have_answer(rt: &impl Test, source: &[u8], first: usize, last: usize, answer: Answer) {
    for len in first..=last {
        assert!(rt; len <= source.len());
        let found = answer_to(rt.alloc(), &source[..len]);
        assert_at(rt, len, found == answer);
    }
}

fn each_beginning(rt: &impl Test, source: &[u8], answers: &[(usize, Answer)]) {
    let mut next: usize = 0;
    for (last, answer) in answers {
        have_answer(rt, source, next, *last, *answer);
        next = last.saturating_add(1);
    }
    assert!(rt; next == source.len().saturating_add(1));
}

/// Each beginning of a source is assembled or refused: those that end in a target's name, or in a beginning of one,
/// are A7, and others that end inside an item A5.
#[test]
fn each_beginning_of_two_sources(rt: HostRuntime) {
    each_beginning(&rt, BRANCH, &BRANCH_ANSWERS);
    each_beginning(&rt, COMMENTS, &COMMENTS_ANSWERS);
}
