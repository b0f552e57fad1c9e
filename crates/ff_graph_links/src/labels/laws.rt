//! Laws of the order of graphs. Each is a function that does nothing: its clauses hold of all values.
ghost use Rattle.std.specs.Prelude.{◌≡◌, ◌<◌, ℕ, Bool, true, []};
ghost use Rattle.ff_graph_links.specs.labels.Order.{order_by, ComeInOrder, HasNoLoop, is_in};

/// No graph stands twice, and all that feed a graph stand before it.
pub fn orders_go_upward()
    ensures { (feed : ℕ → ℕ → Bool) (n : ℕ) → ComeInOrder feed n [] (order_by feed n) }
{}

/// Where no graph is on a loop, each has its place.
pub fn orders_are_whole()
    ensures { (feed : ℕ → ℕ → Bool) (n g : ℕ) → HasNoLoop feed n → g < n → is_in (order_by feed n) g ≡ true }
{}
