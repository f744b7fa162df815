//! What holds of all readers: each function here has an empty body, and its contract is a law.

ghost use Rattle.std.specs.Prelude.{◌≡◌, ◌↔◌, IsTrue};
ghost use Rattle.gimli_core_base.specs.View.{View};
ghost use Rattle.gimli_core_readers.specs.Readers.{is_same, hash_bytes};

/// Readers are equal exactly where their bytes and the order are, and equal ones are hashed alike.
pub fn equal_readers()
    ensures equal { (a b : View) → IsTrue (is_same a b)
        ↔ ((a.bytes ≡ b.bytes) × (a.is_big ≡ b.is_big)) }
    ensures hashed_alike { (a b : View) → IsTrue (is_same a b) → hash_bytes a ≡ hash_bytes b }
{}
