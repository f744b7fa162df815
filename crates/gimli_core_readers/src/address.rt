ghost use Rattle.std.specs.Prelude.{◌≡◌, ◌+◌, IsTrue};
ghost use Rattle.gimli_core_base.specs.NumberParsers.{is_address_size};
ghost use Rattle.gimli_core_readers.specs.Addresses.{greatest_address, least_tombstone, wrap};

/// The greatest address of a size, whose bits are all ones.
pub fn greatest_address(address_size: u8) -> u64
    requires { IsTrue (is_address_size address_size) }
    ensures { result ≡ greatest_address address_size }
{
    match address_size {
        1 => u64::from(u8::MAX),
        2 => u64::from(u16::MAX),
        4 => u64::from(u32::MAX),
        _ => u64::MAX,
    }
}

/// The least address of a size that stands for no address: linkers write it, or the one above it,
/// for code that they dropped.
pub fn least_tombstone(address_size: u8) -> u64
    requires { IsTrue (is_address_size address_size) }
    ensures { result ≡ least_tombstone address_size }
{
    greatest_address(address_size) - 1
}

/// The sum of an address and a length, in an address's size.
pub fn wrapping_sum(address: u64, length: u64, address_size: u8) -> u64
    requires { IsTrue (is_address_size address_size) }
    ensures { result ≡ wrap address_size (address + length) }
{
    let sum = address.wrapping_add(length);
    sum & greatest_address(address_size)
}
