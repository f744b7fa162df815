//! Lookups that wait for the sections of split units (DWARF 5, 3.1.3).

ghost use Rattle.std.specs.Prelude.{◌≡◌, ◌≤◌, ℕ, None};
ghost use Rattle.addr2line_context.specs.Suspended.{loads_left, IfLoad, SkipsTo, IfSkipped};

use addr2line_lookups::{Error, Reader};

/// What a lookup found, or the lookup itself, where it waits for a load.
#[derive(Drop)]
pub enum LookupResult<L: LookupContinuation> {
    /// The lookup waits: it asks for a load by `LookupContinuation::load`, and goes on by
    /// `LookupContinuation::resume`.
    Load(L),
    /// The lookup is done.
    Output(L::Output),
}

/// A lookup that waits for a load.
pub trait LookupContinuation: Drop {
    /// What the lookup finds.
    type Output;
    /// The readers of the sections.
    type Buf: Reader;
    /// What is asked for.
    type Load;
    /// The sections that answer a load.
    type Sections;

    /// How many loads it can wait for.
    ghost left: { Self → ℕ };

    /// There is a load that it waits for.
    ghost waits: { Self → Type 0 };

    /// What it finds where this load and all further ones are answered by no sections.
    ghost skips_to: { Self → Self.Output → Type 0 };

    /// The load that the lookup waits for. It takes memory for copies of readers.
    fn load(&self) -> Result<Self::Load, Error>
        requires { waits self.now };

    /// Goes on with the sections that were asked for, or without them where there are none. A
    /// lookup that waits again can wait for fewer loads.
    fn resume(self, input: Option<Self::Sections>) -> LookupResult<Self>
        ensures fewer { loads_left left result ≤ left self }
        ensures waits { IfLoad waits result }
        ensures skips { input ≡ None → IfSkipped skips_to result (skips_to self) };
}

impl<L: LookupContinuation> LookupResult<L> {
    /// What the lookup finds where each load is answered by no sections.
    pub fn skip_all_loads(self) -> L::Output
        ensures { SkipsTo L.skips_to self result }
    {
        let mut wait = match self {
            LookupResult::Output(output) => return output,
            LookupResult::Load(wait) => wait,
        };
        loop {
            match wait.resume(None) {
                LookupResult::Output(output) => return output,
                LookupResult::Load(next) => wait = next,
            }
        }
    }
}
