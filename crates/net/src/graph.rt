//! A net's graph with its components.
ghost use Rattle.net.specs.Tables.{Prepared};

use crate::Net;

// A net with the flags of its storage vertices and the labels of its components, which whatever asks about components shares.
#[derive(Clone, Copy)]
pub struct Graph {
    pub net: Net,
    pub storage: [u8; Net::VERTEX_PLACES],
    pub labels: [u8; Net::VERTEX_PLACES],
    ghost prepared: { Prepared net storage labels },
}
