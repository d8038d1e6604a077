// Sets of capabilities: which capabilities a process has, kept as the bits of one word.
#![tactic(auto)]

ghost use Rattle.std.specs.Prelude.{◌≡◌};
ghost use Rattle.capability.specs.Sets.{holds, is_within, lowered_to};

// Numbers of capabilities: capabilities(7). They are no enum, since a process may ask for any number: the answer is no.
pub const CAP_SETGID: u32 = 6;

pub const CAP_SETUID: u32 = 7;

pub const CAP_SYS_ADMIN: u32 = 21;
// The highest number that a capability has.
pub const CAP_LAST_CAP: u32 = 36;

// A set is a word of 64 bits.
const WORD_BITS: u32 = 64;

#[derive(Clone, Copy)]
pub struct CapabilitySet {
    pub bits: u64,
}

impl CapabilitySet {
    // The full set, capabilities 0 to 36.
    pub const FULL: CapabilitySet = CapabilitySet { bits: 0x1fffffffff };

    // The set with no capability.
    pub const EMPTY: CapabilitySet = CapabilitySet { bits: 0 };

    // The set with these bits: capability `n` is bit `n`. Document 01 names a constructor, so this is no From.
    pub fn new(bits: u64) -> Self
        ensures { result ≡ record { bits = bits } }
    {
        CapabilitySet { bits }
    }

    // Whether `capability` is in the set. No set has a capability above 63.
    pub fn has(self, capability: u32) -> bool
        ensures { result ≡ holds self.bits capability }
    {
        if capability < WORD_BITS {
            (self.bits >> capability) & 1 == 1
        } else {
            false
        }
    }

    // Whether every capability in the set is in `other`.
    pub fn within(self, other: CapabilitySet) -> bool
        ensures { result ≡ is_within self.bits other.bits }
    {
        self.bits & other.bits == self.bits
    }

    // The capabilities that are in the set and in `kept`.
    pub fn lowered(self, kept: CapabilitySet) -> Self
        ensures { result ≡ record { bits = lowered_to self.bits kept.bits } }
    {
        CapabilitySet {
            bits: self.bits & kept.bits,
        }
    }
}
