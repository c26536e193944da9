//! The law that loads are sums.
ghost use Rattle.std.specs.Prelude.{◌≡◌, List, [], min, IsTrue};
ghost use Rattle.gr_base.specs.Grid.{has_edge, is_wire};
ghost use Rattle.gr_base.specs.declared.grid.Edge.{Edge};
ghost use Rattle.grid_demand.specs.Tables.{CapacityView};
ghost use Rattle.grid_demand.specs.LoadSums.{no_loads, demand_at, marks_at};
ghost use Rattle.gr_base.specs.Limits.{most_marks};
ghost use Rattle.grid_demand.specs.Operations.{Operation, Routed, Leaves, after_all, taken_of, marks_over};

/// Loads are sums: after any list of additions, of removals of trees that are in, and of marks, on
/// loads without demand, the demand for a wire edge is what the trees that are in take of it
/// together. Its marks are how many of the marks found its demand above its capacity, up to
/// 1,048,576. The function itself does nothing.
pub fn loads_are_sums()
    ensures demand { (c : CapacityView) → (operations : List Operation) → (routes : List Routed) →
        Leaves [] operations routes → (e : Edge) → IsTrue (has_edge c.shape e) → IsTrue (is_wire e) →
        demand_at (after_all c operations) e ≡ taken_of c routes e }
    ensures marks { (c : CapacityView) → (operations : List Operation) → (e : Edge) →
        IsTrue (has_edge c.shape e) → IsTrue (is_wire e) →
        marks_at (after_all c operations) e ≡ min most_marks (marks_over c e (no_loads c.shape) operations) }
{}
