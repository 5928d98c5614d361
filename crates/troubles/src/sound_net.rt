//! What the calls for the verdict, for settling and for batches go on with, once C1 is tested.
ghost use Rattle.std.specs.Prelude.{◌≡◌, true};
ghost use Rattle.std.proofs.Math.Option.{none};
ghost use Rattle.net.specs.WellFormed.{place_c1};
ghost use Rattle.excitations.specs.Excitations.{excitation_lanes};
ghost use Rattle.sheet.specs.Valid.{valid};

use net::Net;

// A net that an accepted sheet gives and that meets C1, and its table of excitations.
#[derive(Clone, Copy)]
pub struct SoundNet<'a> {
    pub net: &'a Net,
    pub excitations: &'a [u8; Net::VERTEX_LANES],
    ghost accepted: { valid net.now ≡ true },
    ghost sound: { place_c1 net.now ≡ none },
    ghost excited: { excitations.now ≡ excitation_lanes net.now },
}
