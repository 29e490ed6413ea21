// A check sum over bytes (FNV-1a, 32 bits).
ghost use Rattle.std.specs.Prelude.{◌≡◌, ◌*◌, ◌%◌, ◌^◌, bit_xor};

const START: u32 = 2166136261;

const FACTOR: u32 = 16777619;

#[derive(Clone, Copy, PartialEq, Eq, Debug)]
pub struct Checksum {
    value: u32,
}

impl Checksum {
    // The check sum of no bytes.
    pub fn new() -> Checksum
        ensures { result.value ≡ 2166136261 }
    {
        Checksum { value: START }
    }

    pub fn value(&self) -> u32
        ensures { result ≡ self.now.value }
    {
        self.value
    }

    // One byte more.
    pub fn take(&mut self, byte: u8)
        ensures { self.new.value ≡ bit_xor self.old.value byte * 16777619 % 2 ^ 32 }
    {
        self.value = (self.value ^ u32::from(byte)).wrapping_mul(FACTOR);
    }
}
