//! Tables with an entry for each vertex.
ghost use Rattle.std.specs.Prelude.{◌≤◌};
ghost use Rattle.net.specs.Limits.{most_vertices};
ghost use Rattle.net.specs.VertexTables.{OfVertices};

use crate::{Net, Vertex};

// What f makes of each vertex, by its number; the other numbers, and 0, have `other`.
pub fn by_vertex<T: Copy, F: Fn(Vertex) -> T>(net: &Net, other: T, f: F) -> [T; Net::VERTEX_PLACES]
    requires { (net.now.vertex_count ≤ most_vertices) × F.IsAlwaysCallable f }
    ensures { OfVertices net.now (λ v x. F.post f v x) other result }
{
    let mut table = [other; Net::VERTEX_PLACES];
    let count = net.vertex_count as usize;
    for (i, vertex) in net.vertices[..count].iter().enumerate() {
        table[i + 1] = f(*vertex);
    }
    table
}
