//! Ternary settling over an abstract network: the theory that the net's passes and demand 3 rest on.
//! What it means stands in specs/, its laws in proofs/.
#![tactic(auto)]

ghost use Rattle.std.specs.Prelude.{◌≡◌};
ghost use Rattle.ternary.specs.Signal.{X};
ghost use Rattle.ternary.specs.TruthTable.{agree};

// A signal of a vector in a buffer: the byte 0, 1 or X. Document 01 has bytes in lent buffers, so it is no enum.
#[derive(Clone, Copy)]
pub struct Signal;

impl Signal {
    // The byte of an unknown signal, the report's one half.
    pub const X: u8 = 4;

    // How many signals there are: 0, 1 and X.
    pub const KINDS: usize = 3;
}

// The code's X is the definitions' X.
pub fn unknown() -> u8
    ensures { result ≡ X }
{
    Signal::X
}

// The value that two signals share, else X.
pub fn agree(a: u8, b: u8) -> u8
    ensures { result ≡ agree a b }
{
    if a == b { a } else { Signal::X }
}
