//! What a machine in memory writes into its log. It stands in no test, as specs/Events.antt cites it.

/// What was done with the machine: names, and the text of an output.
#[derive(Drop)]
pub(crate) enum Done {
    Opened(Vec<u8>),
    NotOpened(Vec<u8>),
    Created(Vec<u8>),
    NotCreated(Vec<u8>),
    Wrote(Vec<u8>, Vec<u8>),
    Printed(Vec<u8>),
}
