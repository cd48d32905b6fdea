//! Calls that give values to extensions.

use super::Shown;
use super::rows::Answer::{Asks, Breaks, Finishes, Refuses, Steps};
use super::rows::Row;
use super::rows::Turns::Exactly;
use cbpf_code::Ext;
use cbpf_dbg::{SessionFault, When};

/// `ld mark`, `ret a`.
const LOAD_MARK: Row = Row::Program((32, 0, 0, 4294963220), 0, &[], (22, 0, 0, 0));

/// `ldb mark`, `ret a`.
const LOAD_MARK_BYTE: Row = Row::Program((48, 0, 0, 4294963220), 0, &[], (22, 0, 0, 0));

/// `ld rand`, `ret a`.
const LOAD_RANDOM: Row = Row::Program((32, 0, 0, 4294963256), 0, &[], (22, 0, 0, 0));

const VALUES: &[Shown] = &[
    (
        "a value, which loads keep, and another one begin the packet again",
        &[],
        &[
            Row::SetValue(Ext::Mark, 7, Ok(())),
            LOAD_MARK,
            Row::Capture,
            Row::ValueOf(Ext::Mark, Some(7)),
            Row::Run(None, Finishes(2, 0, 0), Exactly(4)),
            Row::Select(2, Ok(())),
            Row::SetValue(Ext::Mark, 0, Ok(())),
            Row::Mark(2, 0),
            Row::Run(None, Finishes(0, 1, 0), Exactly(2)),
            Row::Run(None, Finishes(0, 2, 0), Exactly(4)),
            // All bits are loaded, whatever the size of the load.
            LOAD_MARK_BYTE,
            Row::SetValue(Ext::Mark, 4294967295, Ok(())),
            Row::Break(1, When::Always, Ok(())),
            Row::Run(None, Breaks(1, 2, 1, 4294967295), Exactly(1)),
            Row::SetValue(Ext::Mark, 4294967295, Ok(())),
            Row::Mark(1, 0),
            Row::Step(-1, Refuses(SessionFault::TooFarBack(0)), Exactly(0)),
            Row::Step(2, Steps(1, 2, 1, 4294967295), Exactly(1)),
        ],
    ),
    (
        "values that there are not leave the place",
        &[LOAD_RANDOM, Row::Capture],
        &[
            Row::Run(None, Asks(1, Ext::Rand), Exactly(0)),
            Row::SetValue(Ext::Nla, 1, Err(SessionFault::TakesNoValue)),
            Row::SetValue(Ext::NlaN, 1, Err(SessionFault::TakesNoValue)),
            Row::SetValue(Ext::PayOff, 1, Err(SessionFault::TakesNoValue)),
            Row::SetValue(Ext::Rand, 1, Err(SessionFault::TakesNoValue)),
            Row::ValueOf(Ext::Nla, None),
            Row::ValueOf(Ext::NlaN, None),
            Row::ValueOf(Ext::PayOff, None),
            Row::ValueOf(Ext::Rand, None),
            Row::Mark(1, 1),
            Row::Run(None, Asks(2, Ext::Rand), Exactly(1)),
            Row::Run(None, Finishes(0, 0, 2), Exactly(1)),
        ],
    ),
];

pub(crate) fn values() -> &'static [Shown] {
    VALUES
}
