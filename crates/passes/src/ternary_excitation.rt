//! Ternary excitation by look-ups: the definitions are those of the crate `lookups`, and its law `look_up` says that they give H. What a signal adds to
//! the index of a key node's table stands in a row with an entry for each key node, so that the indices of all key nodes grow together, in a loop
//! without a branch.
ghost use Rattle.std.specs.Prelude.{◌≡◌, ◌+◌, ◌*◌, ◌≤◌, ◌<◌, length};
ghost use Rattle.ternary.specs.Lists.{table};
ghost use Rattle.ternary.specs.Signal.{at};
ghost use Rattle.ternary.specs.TruthTable.{signal_kinds, ternary_digit};
ghost use Rattle.net.specs.Limits.{most_key_nodes};
ghost use Rattle.lanes.specs.Grid.{cell};
ghost use Rattle.states.specs.Weights.{variables};
ghost use Rattle.lookups.specs.LookUps as spec;

use lookups::LookUps;
use net::Net;
use ternary::Signal;

// The digit of a signal: 0, 1, and 2 for X.
fn digit(signal: u8) -> usize
    ensures { (result ≡ ternary_digit signal) × (result < signal_kinds) }
{
    if signal < 2 { signal as usize } else { 2 }
}

// The sums grow by one row of the additions.
fn add_row<'a, 'b>(
    sums: &'a mut [u16; Net::MOST_KEY_NODES],
    additions: &'b [u16; Net::ADDITIONS],
    row: usize,
)
    requires { (row < variables * signal_kinds) × spec.Addable sums.old additions.now row }
    ensures { sums.new ≡ table most_key_nodes (λ k. at sums.old k + cell most_key_nodes additions.now row k) }
{
    let from = row * Net::MOST_KEY_NODES;
    // By places: what a `zip` of `iter_mut` wrote, no fact tells after the loop, and `enumerate` would index the other table all the same.
    for k in 0..Net::MOST_KEY_NODES {
        sums[k] += additions[from + k];
    }
}

// What signals add to the index of each key node; the first signal is that of variable `from`.
pub(crate) fn sums<'a>(
    additions: &'a [u16; Net::ADDITIONS],
    from: usize,
    signals: &'a [u8],
) -> [u16; Net::MOST_KEY_NODES]
    requires { (from + length signals.now ≤ variables) × spec.Summable additions.now from signals.now }
    ensures { result ≡ spec.sums additions.now from signals.now }
{
    let mut sums = [0u16; Net::MOST_KEY_NODES];
    for (i, signal) in signals.iter().enumerate() {
        add_row(
            &mut sums,
            additions,
            (from + i) * Signal::KINDS + digit(*signal),
        );
    }
    sums
}

// The next vector, where the letters add `base` to the indices of the key nodes.
pub(crate) fn next(
    look_ups: &LookUps,
    base: &[u16; Net::MOST_KEY_NODES],
    vector: &[u8; Net::MOST_KEY_NODES],
) -> [u8; Net::MOST_KEY_NODES]
    requires { spec.IndexedFrom base.now look_ups.now.additions.now }
    ensures { let l = look_ups.now in result ≡ spec.next_by l.tables.now l.additions.now l.count base.now vector.now }
{
    let key_sums = sums(look_ups.additions, Net::MOST_LETTERS, vector);
    let mut next = [0u8; Net::MOST_KEY_NODES];
    for k in 0..look_ups.count {
        next[k] = look_ups.tables[k * Net::TERNARY_ASSIGNMENTS + (base[k] + key_sums[k]) as usize];
    }
    next
}
