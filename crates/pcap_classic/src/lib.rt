//! Reads captures in the classic format of pcap-savefile(5), version 2.4, in both byte orders and with time stamps in
//! microseconds or nanoseconds; `CaptureFault` names what it refuses. A capture keeps the bytes of its file as they are,
//! and each record borrows from there. A file that is cut gives the whole records before the cut.
#![tactic(auto)]

mod capture;
mod capture_reader;
mod captured;
mod ending;
mod equality;
mod header;
mod index;
mod law;
mod reading;
mod records;
mod window;

pub use capture::Capture;
pub use capture_reader::CaptureReader;
pub use captured::Captured;
pub use ending::Ending;
pub use equality::equal_where_same;
pub use header::{CaptureFault, HeaderFault};
pub use law::one_capture;
pub use reading::{OpenFault, ReadFault};
pub use records::Records;
