// The leaf of a triangle: the last tetrahedron that it comes to on its way down.
ghost use Rattle.std.specs.Prelude.{◌≡◌};
ghost use Rattle.tetra_name.specs.Names.{tetrahedron_of, IsName};
ghost use Rattle.diamond_graph.specs.Graphs.{centres};
ghost use Rattle.assign.specs.Leaf.{leaf};

use crate::plane::side;
use crate::root::root_of;
use diamond_graph::Graph;
use tetra_name::{Tet, child, root};
use tpz_base::Tri;

/// The leaf of t: the first tetrahedron on its path whose diamond isn't in the graph. The path has 3l + 1 tetrahedra for the graph's l.
pub fn leaf_of(graph: &Graph, t: &Tri) -> Tet
    ensures leaf { tetrahedron_of graph.now.l result ≡ leaf graph.now.l (centres graph.now) t.now }
    ensures name { IsName graph.now.l result }
{
    let l = graph.l();
    let mut name = root(root_of(t), l);
    'way: while graph.has(name.centre) {
        let which = side(name, t, l);
        name = child(name, which, l);
    }
    name
}
