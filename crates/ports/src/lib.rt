// Sets of ports as 16-bit masks: "the taken inputs and the taken outputs are two sets of ports". Port q is in the set when binary digit q is 1.
#![tactic(auto)]

ghost use Rattle.std.specs.Prelude.{◌≡◌, true, ◌<◌, eqb, IfNone};
ghost use Rattle.std.specs.Iterator.{at_most};
ghost use Rattle.laws.specs.Count.{count};
ghost use Rattle.laws.specs.Least.{lowest as lowest_of};
ghost use Rattle.ports.specs.Ports.{mask_ports, has, with_port, without_port, except_ports, lowered};
ghost use Rattle.ports.specs.Walk.{Walks};

use std::cmp::Ordering;

// How many ports a mask has room for: its binary digits.
const MASK_PORTS: u32 = 16;

// A set of ports. The default one is empty.
#[derive(Clone, Copy, Debug, Default, PartialEq, Eq)]
pub struct PortSet {
    pub mask: u16,
}

impl PortSet {
    // The set of one port.
    pub fn of(port: u32) -> PortSet
        requires { port < mask_ports }
        ensures { result.mask ≡ with_port 0 port }
    {
        PortSet::default().with(port)
    }

    pub fn is_empty(self) -> bool
        ensures { result ≡ eqb self.mask 0 }
    {
        self.mask == 0
    }

    // Whether the port is in the set. No port from 16 on is in one, and a mask cannot be shifted by so much.
    #[tactic(auto, using(crate::specs::PortLaws::has_above, crate::specs::PortLaws::has_by_shift))]
    pub fn contains(self, port: u32) -> bool
        ensures { result ≡ has self.mask port }
    {
        if MASK_PORTS <= port {
            return false;
        }
        (self.mask >> port) & 1 == 1
    }

    // The set and one more port; a port that is in it already stays. The or with a one at the port's digit changes that digit alone.
    #[tactic(auto, using(crate::specs::PortLaws::with_by_shift))]
    pub fn with(self, port: u32) -> PortSet
        requires { port < mask_ports }
        ensures { result.mask ≡ with_port self.mask port }
    {
        PortSet {
            mask: self.mask | (1u16 << port),
        }
    }

    // The set with a port of it taken out. The digit is 1, so the subtraction takes it out and borrows from no other.
    #[tactic(auto, using(crate::specs::PortLaws::shift_le, crate::specs::PortLaws::without_by_shift))]
    pub fn without(self, port: u32) -> PortSet
        requires { (port < mask_ports) × (has self.mask port ≡ true) }
        ensures { result.mask ≡ without_port self.mask port }
    {
        PortSet {
            mask: self.mask - (1u16 << port),
        }
    }

    // The ports of the set that are not in another one.
    #[tactic(auto, unfolding(crate::specs::Ports::except_ports))]
    pub fn except(self, other: PortSet) -> PortSet
        ensures { result.mask ≡ except_ports self.mask other.mask }
    {
        PortSet {
            mask: self.mask ^ (self.mask & other.mask),
        }
    }

    // How many ports are in the set.
    #[tactic(auto, using(crate::specs::PortLaws::count_ones))]
    pub fn len(self) -> u32
        ensures { result ≡ count (has self.mask) mask_ports }
    {
        self.mask.count_ones()
    }

    // The lowest port of the set. The zeros below the lowest one are as many as that one's number.
    #[tactic(auto, using(crate::specs::PortLaws::lowest_by_trailing, crate::specs::Walk::lowest_empty))]
    pub fn lowest(self) -> Option<u32>
        ensures lowest { result ≡ lowest_of (has self.mask) mask_ports }
        ensures empty { IfNone result (self.mask ≡ 0) }
    {
        if self.is_empty() {
            return None;
        }
        Some(self.mask.trailing_zeros())
    }

    // The ports of the set, lowest first.
    pub fn iter(self) -> Ports
        ensures { result.left ≡ self }
    {
        Ports { left: self }
    }
}

// A walk over a set, lowest port first: `left` is what is still to be visited.
#[derive(Clone, Copy, Debug)]
pub struct Ports {
    pub left: PortSet,
}

impl Iterator for Ports {
    type Item = u32;

    ghost next_gives = { Walks };

    ghost remaining = { λ s. at_most s.left.mask };

    fn next(&mut self) -> Option<u32> {
        let port = self.left.lowest()?;
        self.left = self.left.without(port);
        Some(port)
    }
}

// A set of ports that have the same reading.
#[derive(Clone, Copy, Debug, PartialEq, Eq)]
pub struct Tied {
    pub ports: PortSet,
    pub reading: u32,
}

impl Tied {
    // No port, before any was looked at.
    pub fn none() -> Tied
        ensures { (result.ports.mask ≡ 0) × (result.reading ≡ 0) }
    {
        Tied {
            ports: PortSet::default(),
            reading: 0,
        }
    }

    // The ports with the lowest reading, once a port whose reading is x is among those looked at.
    #[tactic(auto, unfolding(crate::specs::Ports::lowered))]
    pub fn lowered(self, port: u32, x: u32) -> Tied
        requires { port < mask_ports }
        ensures { result ≡ lowered self port x }
    {
        let fresh = Tied {
            ports: PortSet::of(port),
            reading: x,
        };
        if self.ports.is_empty() {
            return fresh;
        }
        match x.cmp(&self.reading) {
            Ordering::Less => fresh,
            Ordering::Greater => self,
            Ordering::Equal => Tied {
                ports: self.ports.with(port),
                ..self
            },
        }
    }
}
