//! What a command line asks for, with `why` beside the program's two jobs.

use crate::job::Job;

/// Which report of `why` is asked for in place of the usual one.
#[derive(Clone, Copy, Debug, PartialEq, Eq)]
pub enum Detail {
    /// `-p`: a line for each packet.
    Packets,
    /// `-l`: the listing with counts. cbpf_why calls this report `Coverage`.
    Listing,
    /// `-g`: a graph with counts.
    Graph,
}

/// What the words of `why` say, which are texts still.
#[derive(Debug, Drop)]
pub struct WhyWords {
    pub detail: Option<Detail>,
    /// The values of extensions, each as `EXT=N`.
    pub values: Vec<String>,
    /// The name of the filter's file.
    pub filter: String,
    /// The name of the capture; without one, or with `-`, it is the standard input.
    pub capture: Option<String>,
    /// The numbers of packets, and ranges of them.
    pub packets: Vec<String>,
}

/// What the words of a command line ask for.
#[derive(Debug, Drop)]
pub enum RequestWords {
    Job(Job),
    /// `why [-l | -g | -p] [-v EXT=N].. FILTER [CAPTURE [PACKET..]]`
    Why(WhyWords),
}
