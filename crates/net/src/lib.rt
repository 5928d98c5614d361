//! The record of a net, the report's CMOS graph: its vertices, its edges and how many letters it has.
//! What a net means stands in specs/, the laws of it in proofs/. The functions over it are in the crates `symbols`, `graph` and `signals`.
#![tactic(auto)]

mod graph;
mod vertex_tables;

ghost use Rattle.std.specs.Prelude.{◌≡◌};
ghost use Rattle.net.specs.Limits.{limits};
ghost use Rattle.net.specs.Symbols.{decode};

pub use graph::Graph;
use ternary::Signal;
pub use vertex_tables::by_vertex;

// A vertex by its numbers on the sheet. label: an input vertex's symbol. Role, and an edge's form and symbol, stay numbers: any record may be handed in, and
// one that holds another number is answered 41 (`record::is_record`).
#[derive(Clone, Copy, PartialEq, Eq, Default)]
pub struct Vertex {
    pub role: u8,
    pub label: u16,
}

impl Vertex {
    // The roles. An output is a storage vertex too.
    pub const INPUT: u8 = 0;

    pub const STORAGE: u8 = 1;

    pub const OUTPUT: u8 = 2;
}

// An edge joins vertices end1 and end2. form: 0 to 3. symbol: a symbol's number.
#[derive(Clone, Copy, PartialEq, Eq, PartialOrd, Ord, Default)]
pub struct Edge {
    pub end1: u8,
    pub end2: u8,
    pub form: u8,
    pub symbol: u16,
}

// Vertex v, counted from 1, stands at index v - 1. The first vertex_count vertices and edge_count edges are in use; the other places are zero.
#[derive(Clone, Copy)]
pub struct Net {
    pub vertices: [Vertex; Net::MOST_VERTICES],
    pub edges: [Edge; Net::MOST_EDGES],
    pub vertex_count: u8,
    pub edge_count: u16,
    pub letter_count: u8,
}

impl Net {
    pub const MOST_VERTICES: usize = 96;

    pub const MOST_EDGES: usize = 192;

    pub const MOST_LETTERS: usize = 8;

    // A table with an entry for each vertex number, from 0.
    pub const VERTEX_PLACES: usize = Net::MOST_VERTICES + 1;

    pub const MOST_KEY_NODES: usize = 12;
    // Of one component.
    pub const MOST_SIGNALS: usize = 8;

    // The assignments of that many signals: a row of lanes has one entry for each.
    pub const ASSIGNMENTS: usize = 1 << Net::MOST_SIGNALS;

    // Tables with a row of lanes for each vertex number, for each edge, and for each signal's place.
    pub const VERTEX_LANES: usize = Net::VERTEX_PLACES * Net::ASSIGNMENTS;

    pub const EDGE_LANES: usize = Net::MOST_EDGES * Net::ASSIGNMENTS;

    pub const COLUMN_LANES: usize = (Net::MOST_SIGNALS + 1) * Net::ASSIGNMENTS;

    // The key states of the most key nodes.
    pub const KEY_STATES: usize = 1 << Net::MOST_KEY_NODES;

    // Letters and key nodes: whatever has a value of its own in a state.
    pub const VARIABLES: usize = Net::MOST_LETTERS + Net::MOST_KEY_NODES;

    // For each assignment a row of lanes, and such a block of rows for each key node.
    pub const STATE_ROWS: usize = Net::ASSIGNMENTS * Net::ASSIGNMENTS;

    pub const KEY_ROWS: usize = Net::MOST_KEY_NODES * Net::STATE_ROWS;

    // For each key node a row with an entry for each key state.
    pub const KEY_PARTS: usize = Net::MOST_KEY_NODES * Net::KEY_STATES;

    // A table with an entry for each symbol number, in a row for each vertex number.
    pub const SYMBOL_PLACES: usize = Net::VERTEX_PLACES * Symbol::BOUND;

    // The ternary assignments of the most signals, and a row with an entry for each of them for each key node.
    pub const TERNARY_ASSIGNMENTS: usize = 6561;

    pub const TERNARY_TABLES: usize = Net::MOST_KEY_NODES * Net::TERNARY_ASSIGNMENTS;

    // For each variable and each of its signals a row with an entry for each key node.
    pub const ADDITIONS: usize = Net::VARIABLES * Signal::KINDS * Net::MOST_KEY_NODES;
}

// A symbol by its number. Letters and vertices are numbered from 1.
#[derive(Clone, Copy)]
pub enum Symbol {
    Constant(u8),
    Letter(u8),
    Vertex(u8),
    Unknown,
}

impl Symbol {
    // Letter j has the number LETTERS + j, and vertex v the number VERTICES + v.
    pub const LETTERS: u16 = 10;

    pub const VERTICES: u16 = 100;

    pub const LAST_CONSTANT: u16 = 1;

    pub const FIRST_LETTER: u16 = Symbol::LETTERS + 1;

    pub const LAST_LETTER: u16 = Symbol::LETTERS + Net::MOST_LETTERS as u16;

    pub const FIRST_VERTEX: u16 = Symbol::VERTICES + 1;

    pub const LAST_VERTEX: u16 = Symbol::VERTICES + Net::MOST_VERTICES as u16;
    // Every variable's number is below this one.
    pub const BOUND: usize = Symbol::LAST_VERTEX as usize + 1;
}

// The symbol that a number stands for.
impl From<u16> for Symbol {
    ghost from_gives = { λ number symbol. symbol ≡ decode number };

    fn from(number: u16) -> Symbol {
        match number {
            0..=Symbol::LAST_CONSTANT => Symbol::Constant(number as u8),
            Symbol::FIRST_LETTER..=Symbol::LAST_LETTER => Symbol::Letter(
                (number - Symbol::LETTERS) as u8,
            ),
            Symbol::FIRST_VERTEX..=Symbol::LAST_VERTEX => Symbol::Vertex(
                (number - Symbol::VERTICES) as u8,
            ),
            _ => Symbol::Unknown,
        }
    }
}

// The condition of an edge under a state.
#[derive(Clone, Copy)]
pub enum Condition {
    Open,
    NClosed,
    PClosed,
}

// Which edges a connection may use: any closed ones, n-closed ones or p-closed ones.
#[derive(Clone, Copy)]
pub enum Kind {
    Any,
    NType,
    PType,
}

// The limits as one value, to hold the constants to the definitions.
#[derive(Clone, Copy)]
pub struct Limits {
    pub vertices: usize,
    pub edges: usize,
    pub letters: usize,
    pub key_nodes: usize,
    pub signals: usize,
    pub letter_symbols: u16,
    pub vertex_symbols: u16,
}

// The code's limits are those of the definitions.
pub fn limits_in_force() -> Limits
    ensures { result ≡ limits }
{
    Limits {
        vertices: Net::MOST_VERTICES,
        edges: Net::MOST_EDGES,
        letters: Net::MOST_LETTERS,
        key_nodes: Net::MOST_KEY_NODES,
        signals: Net::MOST_SIGNALS,
        letter_symbols: Symbol::LETTERS,
        vertex_symbols: Symbol::VERTICES,
    }
}
