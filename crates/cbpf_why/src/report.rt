//! The five kinds of report.

/// What is reported of a program on the packets of a capture.
#[derive(Clone, Copy, Debug, PartialEq, Eq)]
pub enum Report {
    /// A line for each way of the last test of packets that returned and each verdict, and for each other instruction at
    /// which packets ended; and how many passed and failed.
    Summary,
    /// The trace of each packet: what it executed.
    Traces,
    /// A line for each packet.
    Packets,
    /// The listing with how often each instruction ran. cbpf_command_line calls it `Listing`.
    Coverage,
    /// The same as a graph in DOT.
    Graph,
}
