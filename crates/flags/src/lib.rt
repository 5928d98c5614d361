//! Flags: bytes that are 1 or 0, and not `bool`, so that loops over tables of them have no branch.
#![tactic(auto)]

ghost use Rattle.std.specs.Prelude.{◌≡◌, ◌&&◌, eqb, length, get_or};
ghost use Rattle.ternary.specs.Bits.{digit};
ghost use Rattle.ternary.specs.Lists.{count_below};

// 1 for two equal numbers, else 0.
pub fn equal(a: u8, b: u8) -> u8
    ensures { result ≡ digit (eqb a b) }
{
    u8::from(a == b)
}

// 1 if both flags are 1, else 0.
pub fn both(a: u8, b: u8) -> u8
    ensures { result ≡ digit (eqb a 1 && eqb b 1) }
{
    u8::from(a == 1 && b == 1)
}

// How many flags are 1.
pub fn count_flags(flags: &[u8]) -> usize
    ensures { result ≡ count_below (length flags.now) (λ i. eqb (get_or flags.now i 0) 1) }
{
    flags.iter().filter(|flag| **flag == 1).count()
}
