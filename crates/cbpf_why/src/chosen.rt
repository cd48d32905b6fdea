//! Which packets are looked at.

ghost use Rattle.std.specs.Prelude.{◌≡◌, ◌&&◌, ℕ, nat_lt, false};
ghost use Rattle.std.specs.Option.{option_map_or};
ghost use Rattle.cbpf_why.specs.Chosen as spec;

/// The packets from one number to another, both in it. Packets are counted from 1.
#[derive(Clone, Copy, Debug, PartialEq, Eq, PartialOrd, Ord)]
pub struct PacketRange {
    pub first: u64,
    pub last: u64,
}

/// All packets of a capture, none of which has to be there: its first number is one that no packet has.
pub const ALL_PACKETS: PacketRange = PacketRange {
    first: 0,
    last: u64::MAX,
};

impl PacketRange {
    /// What is left of the range beyond the first `count` packets, where anything is: what a capture of that many packets
    /// lacks of it.
    pub fn beyond(self, count: u64) -> Option<PacketRange>
        ensures range { result ≡ spec.beyond count self }
        ensures numbers { (n : ℕ) → option_map_or (spec.is_within n) result false ≡ (spec.is_within n self && nat_lt count n) }
    {
        if self.last < self.first || self.last <= count {
            return None;
        }
        let first = if count < self.first {
            self.first
        } else {
            count + 1
        };
        Some(PacketRange {
            first,
            last: self.last,
        })
    }
}
