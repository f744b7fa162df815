//! Laws of symbols. Each function does nothing; its contract is the law, and it is proved.

ghost use Rattle.std.specs.Prelude.{◌≡◌, ℕ, List, Some, None};
ghost use Rattle.addr2line_elf.specs.ElfSymbols.{NamedSymbol, symbol_at, EachHolding, IsFirstHighest};

/// The symbol of an address holds it. No other symbol that does has a higher address, and none
/// before it has the same one. There is none if no symbol holds the address.
pub fn the_symbol_of_an_address()
    ensures found { (address : ℕ) (symbols : List NamedSymbol) (s : NamedSymbol)
        → symbol_at address symbols ≡ Some s → IsFirstHighest address symbols s }
    ensures none { (address : ℕ) (symbols : List NamedSymbol)
        → symbol_at address symbols ≡ None → EachHolding address (λ _. ⊥) symbols }
{}
