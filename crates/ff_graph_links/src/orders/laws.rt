//! Laws of orders. Each is a function that does nothing: its clauses hold of all values.
ghost use Rattle.std.specs.Prelude.{◌≡◌, ℕ, List, true, false};
ghost use Rattle.ff_graph_links.specs.orders.Orders.{IsOrder, IsLowestOrder, order_of, loops};

/// The order that takes the lowest first has one answer.
pub fn order_is_one()
    ensures { (feeders : List (List ℕ)) (ks : List ℕ) → IsLowestOrder feeders ks → order_of feeders ≡ ks }
{}

/// Where it is long enough, it is that order.
pub fn order_is_lowest()
    ensures { (feeders : List (List ℕ)) → loops feeders ≡ false → IsLowestOrder feeders (order_of feeders) }
{}

/// Where it is too short, there is none.
pub fn loops_have_no_order()
    ensures { (feeders : List (List ℕ)) (ks : List ℕ) → loops feeders ≡ true → IsOrder feeders ks → ⊥ }
{}
