//! What a walk over connections reads.
ghost use Rattle.std.specs.Prelude.{◌≡◌};
ghost use Rattle.net.specs.Tables.{storage_flags, input_labels};
ghost use Rattle.lanes.specs.Lanes as lane-spec;
ghost use Rattle.excitations.specs.Fit.{Fit};
ghost use Rattle.excitations.specs.Conditions.{signal_places};

use net::Net;

// A net, its flags of storage vertices, the labels of its input vertices, the places of its signals, and the columns of bits.
#[derive(Clone, Copy)]
pub struct Wiring<'a> {
    pub net: &'a Net,
    pub storage: &'a [u8; Net::VERTEX_PLACES],
    pub inputs: &'a [u16; Net::VERTEX_PLACES],
    pub places: &'a [u8; Net::SYMBOL_PLACES],
    pub columns: &'a [u8; Net::COLUMN_LANES],
    ghost fit: { Fit net.now },
    ghost flags: { storage.now ≡ storage_flags net.now },
    ghost labelled: { inputs.now ≡ input_labels net.now },
    ghost placed: { places.now ≡ signal_places net.now },
    ghost listed: { columns.now ≡ lane-spec.columns },
}
