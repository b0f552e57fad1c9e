//! Laws of edges that fit the nodes of a plan. Each is a function that does nothing: its clauses hold of all values.
ghost use Rattle.std.specs.Prelude.{◌<◌, ℕ, List};
ghost use Rattle.ff_stream.specs.declared.edges.edge.Edge.{Edge};
ghost use Rattle.ff_stream.specs.edges.Ports.{shape_of, IsFed, HasIns, HasOuts};
ghost use Rattle.ff_net_threads.specs.network.Fits.{ports_by, AreFit};

/// Each port of each node has its edge, and the one at an input leaves an earlier node. Then the edges fit nodes
/// whose ports have the lanes of the edges.
pub fn edges_fit_their_own_lanes()
    ensures { (count : ℕ) (edges : List Edge) → IsFed (shape_of edges) count edges → ((k : ℕ) → k < count → HasIns edges k)
        → ((k : ℕ) → k < count → HasOuts edges k) → AreFit (ports_by edges) count edges }
{}
