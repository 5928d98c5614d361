//! Marks in rows of lanes: set, carried from row to row, and compared. Every lane of a row is treated alike, and a loop's
//! number is the lane in several rows. Definitions and laws are those of the crate `lanes`.
ghost use Rattle.std.specs.Prelude.{◌≡◌, ◌&&◌, not, suc, ◌≤◌, ◌*◌, eqb, length};
ghost use Rattle.ternary.specs.Bits.{digit};
ghost use Rattle.net.specs.Limits.{most_signals};
ghost use Rattle.lanes.specs.Lanes as spec;

use net::Net;

// A mark is set where the edge is on and the mark it comes from is set.
#[tactic(auto, unfolding(lanes::specs::Lanes::raised))]
fn raised(on: u8, from: u8, mark: u8) -> u8
    ensures { result ≡ spec.raised on from mark }
{
    if on == 1 && from == 1 { 1 } else { mark }
}

// Row v of the marks is set where edge i is on and column p chooses 1: three tables with a row of each, of one call.
pub(crate) fn mark_row(
    marks: &mut [u8],
    v: u8,
    on: &[u8],
    i: usize,
    columns: &[u8; Net::COLUMN_LANES],
    p: usize,
    low: u8,
    high: u8,
)
    requires { (suc v * spec.assignments ≤ length marks.old) × (suc i * spec.assignments ≤ length on.now) × (p ≤ most_signals) × (columns.now ≡ spec.columns) }
    ensures { marks.new ≡ spec.mark_row on.now i v p low high marks.old }
{
    let to = v as usize * Net::ASSIGNMENTS;
    let edge = i * Net::ASSIGNMENTS;
    let from = p * Net::ASSIGNMENTS;
    for w in 0..Net::ASSIGNMENTS {
        marks[to + w] = raised(
            on[edge + w],
            lane_values::chosen(low, high, columns[from + w]),
            marks[to + w],
        );
    }
}

// Row v of the marks is set where edge i is on and row u is set.
pub(crate) fn raise_row(marks: &mut [u8], u: u8, v: u8, on: &[u8], i: usize)
    requires { (suc u * spec.assignments ≤ length marks.old) × (suc v * spec.assignments ≤ length marks.old) × (suc i * spec.assignments ≤ length on.now) }
    ensures { marks.new ≡ spec.raise_row on.now i u v marks.old }
{
    let from = u as usize * Net::ASSIGNMENTS;
    let to = v as usize * Net::ASSIGNMENTS;
    let edge = i * Net::ASSIGNMENTS;
    for w in 0..Net::ASSIGNMENTS {
        marks[to + w] = raised(on[edge + w], marks[from + w], marks[to + w]);
    }
}

// 1 if an edge is on and the marks at its ends are unequal, else 0.
fn gap(on: u8, x: u8, y: u8) -> u8
    ensures { result ≡ digit (eqb on 1 && not (eqb x y)) }
{
    u8::from(on == 1 && x != y)
}

// Do rows u and v have the same marks wherever edge i is on? Every lane is looked at: the loop has no branch.
pub(crate) fn is_level(marks: &[u8], u: u8, v: u8, on: &[u8], i: usize) -> bool
    requires { (suc u * spec.assignments ≤ length marks.now) × (suc v * spec.assignments ≤ length marks.now) × (suc i * spec.assignments ≤ length on.now) }
    ensures { result ≡ spec.level on.now i marks.now u v }
{
    let first = u as usize * Net::ASSIGNMENTS;
    let second = v as usize * Net::ASSIGNMENTS;
    let edge = i * Net::ASSIGNMENTS;
    let mut found: u8 = 0;
    for w in 0..Net::ASSIGNMENTS {
        found |= gap(on[edge + w], marks[first + w], marks[second + w]);
    }
    found == 0
}
