//! The two byte orders of a number.

ghost use Rattle.std.specs.Prelude.{◌≡◌, ◌≤◌, ◌++◌, ℕ, Bool, true, false, not, length, take, drop};
ghost use Rattle.std.specs.Int.{w16, w32, w64, cast_signed};
ghost use Rattle.gimli_core_base.specs.Fixed.{number, number_bytes};

/// An order of bytes. Each read takes the first bytes of a slice, and each write puts its bytes
/// there. The orders of this crate can be compared and printed too; code over any order that does
/// so says it in a bound of its own.
pub trait Endianity: Copy {
    /// Whether the more significant byte comes first.
    ghost is_big: { Self → Bool };

    fn is_big_endian(self) -> bool
        ensures { result ≡ is_big self };

    fn is_little_endian(self) -> bool
        ensures { result ≡ not (is_big self) }
    {
        !self.is_big_endian()
    }

    fn read_u16(self, buf: &[u8]) -> u16
        requires { 2 ≤ length buf.now }
        ensures { result ≡ number (is_big self) (take 2 buf.now) }
    {
        let bytes = [buf[0], buf[1]];
        if self.is_big_endian() {
            u16::from_be_bytes(bytes)
        } else {
            u16::from_le_bytes(bytes)
        }
    }

    fn read_u32(self, buf: &[u8]) -> u32
        requires { 4 ≤ length buf.now }
        ensures { result ≡ number (is_big self) (take 4 buf.now) }
    {
        let bytes = [buf[0], buf[1], buf[2], buf[3]];
        if self.is_big_endian() {
            u32::from_be_bytes(bytes)
        } else {
            u32::from_le_bytes(bytes)
        }
    }

    fn read_u64(self, buf: &[u8]) -> u64
        requires { 8 ≤ length buf.now }
        ensures { result ≡ number (is_big self) (take 8 buf.now) }
    {
        let bytes = [
            buf[0], buf[1], buf[2], buf[3], buf[4], buf[5], buf[6], buf[7],
        ];
        if self.is_big_endian() {
            u64::from_be_bytes(bytes)
        } else {
            u64::from_le_bytes(bytes)
        }
    }

    fn read_u128(self, buf: &[u8]) -> u128
        requires { 16 ≤ length buf.now }
        ensures { result ≡ number (is_big self) (take 16 buf.now) }
    {
        let mut bytes = [0; 16];
        bytes.copy_from_slice(&buf[..16]);
        if self.is_big_endian() {
            u128::from_be_bytes(bytes)
        } else {
            u128::from_le_bytes(bytes)
        }
    }

    /// The number that all bytes of the slice are.
    fn read_uint(self, buf: &[u8]) -> u64
        requires { length buf.now ≤ 8 }
        ensures { result ≡ number (is_big self) buf.now }
    {
        let mut bytes = [0; 8];
        if self.is_big_endian() {
            let start = 8 - buf.len();
            bytes[start..].copy_from_slice(buf);
            u64::from_be_bytes(bytes)
        } else {
            bytes[..buf.len()].copy_from_slice(buf);
            u64::from_le_bytes(bytes)
        }
    }

    fn read_i16(self, buf: &[u8]) -> i16
        requires { 2 ≤ length buf.now }
        ensures { result ≡ cast_signed w16 (number (is_big self) (take 2 buf.now)) }
    {
        self.read_u16(buf).cast_signed()
    }

    fn read_i32(self, buf: &[u8]) -> i32
        requires { 4 ≤ length buf.now }
        ensures { result ≡ cast_signed w32 (number (is_big self) (take 4 buf.now)) }
    {
        self.read_u32(buf).cast_signed()
    }

    fn read_i64(self, buf: &[u8]) -> i64
        requires { 8 ≤ length buf.now }
        ensures { result ≡ cast_signed w64 (number (is_big self) (take 8 buf.now)) }
    {
        self.read_u64(buf).cast_signed()
    }

    fn write_u16(self, buf: &mut [u8], n: u16)
        requires { 2 ≤ length buf.old }
        ensures { buf.new ≡ number_bytes (is_big self) 2 n ++ drop 2 buf.old }
    {
        let bytes = if self.is_big_endian() {
            n.to_be_bytes()
        } else {
            n.to_le_bytes()
        };
        buf[..2].copy_from_slice(&bytes);
    }

    fn write_u32(self, buf: &mut [u8], n: u32)
        requires { 4 ≤ length buf.old }
        ensures { buf.new ≡ number_bytes (is_big self) 4 n ++ drop 4 buf.old }
    {
        let bytes = if self.is_big_endian() {
            n.to_be_bytes()
        } else {
            n.to_le_bytes()
        };
        buf[..4].copy_from_slice(&bytes);
    }

    fn write_u64(self, buf: &mut [u8], n: u64)
        requires { 8 ≤ length buf.old }
        ensures { buf.new ≡ number_bytes (is_big self) 8 n ++ drop 8 buf.old }
    {
        let bytes = if self.is_big_endian() {
            n.to_be_bytes()
        } else {
            n.to_le_bytes()
        };
        buf[..8].copy_from_slice(&bytes);
    }

    fn write_u128(self, buf: &mut [u8], n: u128)
        requires { 16 ≤ length buf.old }
        ensures { buf.new ≡ number_bytes (is_big self) 16 n ++ drop 16 buf.old }
    {
        let bytes = if self.is_big_endian() {
            n.to_be_bytes()
        } else {
            n.to_le_bytes()
        };
        buf[..16].copy_from_slice(&bytes);
    }
}

/// An order that is known only at run time.
#[derive(Clone, Copy, Debug, PartialEq, Eq, Hash)]
pub enum RunTimeEndian {
    Little,
    Big,
}

impl Default for RunTimeEndian {
    ghost use Rattle.gimli_core_base.specs.declared.order.RunTimeEndian.TheVariants.{Little};

    ghost is_default = { λ order. order ≡ Little };

    fn default() -> Self {
        RunTimeEndian::Little
    }
}

impl Endianity for RunTimeEndian {
    ghost use Rattle.gimli_core_base.specs.ByteOrders.{is_big_endian};

    ghost is_big = { is_big_endian };

    fn is_big_endian(self) -> bool {
        self == RunTimeEndian::Big
    }
}

/// The less significant byte first.
#[derive(Clone, Copy, Debug, Default, PartialEq, Eq, Hash)]
pub struct LittleEndian;

impl Endianity for LittleEndian {
    ghost is_big = { λ _. false };

    fn is_big_endian(self) -> bool {
        false
    }
}

/// The more significant byte first.
#[derive(Clone, Copy, Debug, Default, PartialEq, Eq, Hash)]
pub struct BigEndian;

impl Endianity for BigEndian {
    ghost is_big = { λ _. true };

    fn is_big_endian(self) -> bool {
        true
    }
}
