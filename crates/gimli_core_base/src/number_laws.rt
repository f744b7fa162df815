//! What holds of all numbers and all bytes: each function here has an empty body, and its
//! contract is a law.

ghost use Rattle.std.specs.Prelude.{◌≡◌, ◌≢◌, ℕ, ℤ, ◌<◌, ◌≤◌, ◌^◌, ◌++◌, ◌+◌, List, length, FitsSigned};
ghost use Rattle.std.specs.Int.{w64};
ghost use Rattle.gimli_core_base.specs.View.{View};
ghost use Rattle.gimli_core_base.specs.Fixed.{number_bytes};
ghost use Rattle.gimli_core_base.specs.NumberParsers.{fixed, unsigned, signed};
ghost use Rattle.gimli_core_base.specs.Leb128.{leb_string, unsigned_number, signed_number, unsigned_at, signed_at};
ghost use Rattle.gimli_core_base.specs.declared.leb128.Fault.TheVariants.{Cut};
ghost use Rattle.gimli_core_base.specs.Spelling.{unsigned_string, signed_string};

/// The string of an unsigned number reads back as the number, whatever follows it.
pub fn unsigned_string_reads_back()
    ensures { (n : ℕ) (rest : List ℕ) → n < 2 ^ 64
        → unsigned_at 10 (2 ^ 64) (unsigned_string n ++ rest)
        ≡ Ok (n, length (unsigned_string n)) }
{}

/// The string of a signed number reads back as the number, whatever follows it.
pub fn signed_string_reads_back()
    ensures { (z : ℤ) (rest : List ℕ) → FitsSigned w64 z
        → signed_at (signed_string z ++ rest) ≡ Ok (z, length (signed_string z)) }
{}

/// What is read of an unsigned string, of at most `limit` bytes and below a bound, doesn't depend
/// on what follows it, unless the bytes end before the string does.
pub fn unsigned_ignores_rest()
    ensures { (limit bound : ℕ) (bytes rest : List ℕ)
        → unsigned_at limit bound bytes ≢ Err Cut
        → unsigned_at limit bound (bytes ++ rest) ≡ unsigned_at limit bound bytes }
{}

/// The same of a signed string.
pub fn signed_ignores_rest()
    ensures { (bytes rest : List ℕ) → signed_at bytes ≢ Err Cut → signed_at (bytes ++ rest)
        ≡ signed_at bytes }
{}

/// No string of an unsigned number is shorter than the one that is written of it.
pub fn unsigned_shortest()
    ensures { (n : ℕ) (string : List ℕ) → leb_string string ≡ Some string
        → unsigned_number string ≡ n → length (unsigned_string n) ≤ length string }
{}

/// No string of a signed number is shorter than the one that is written of it.
pub fn signed_shortest()
    ensures { (z : ℤ) (string : List ℕ) → leb_string string ≡ Some string
        → signed_number string ≡ z → length (signed_string z) ≤ length string }
{}

/// A view that begins with the string of an unsigned number gives the number, and leaves what
/// follows.
pub fn unsigned_reads_back()
    ensures { (n : ℕ) (rest : List ℕ) (v : View) → n < 2 ^ 64
        → v.bytes ≡ unsigned_string n ++ rest
        → unsigned v ≡ Ok (
          n,
          record
              { bytes = rest; is_big = v.is_big; first = v.first + length (unsigned_string n) },
        ) }
{}

/// A view that begins with the string of a signed number gives the number, and leaves what follows.
pub fn signed_reads_back()
    ensures { (z : ℤ) (rest : List ℕ) (v : View) → FitsSigned w64 z
        → v.bytes ≡ signed_string z ++ rest
        → signed v ≡ Ok (
          z,
          record
              { bytes = rest; is_big = v.is_big; first = v.first + length (signed_string z) },
        ) }
{}

/// A view that begins with the bytes of a number gives the number, and leaves what follows.
pub fn fixed_reads_back()
    ensures { (n x : ℕ) (rest : List ℕ) (v : View) → x < 256 ^ n → v.bytes
        ≡ number_bytes v.is_big n x ++ rest
        → fixed n v ≡ Ok (x, record { bytes = rest; is_big = v.is_big; first = v.first + n }) }
{}
