// Whole iterations in another order (RULES 8). What dependence, stages, plans and orders by stages are stands in specs/, the theorems about them in
// proofs/Theorem.antt. The one type here is what a run can keep of a cell to find the stages (specs/StageTable.antt).
#![tactic(auto)]

// What is kept of a cell: 1 + the iteration that touched it last (0: none), and whether that one writes or updates it; of the lower iterations, the highest stage
// of one that writes or updates it, and of one that touches it.
#[derive(Clone, Copy, Debug, PartialEq, Eq)]
pub struct Row {
    pub last: u32,
    pub changes: bool,
    pub changed: u32,
    pub touched: u32,
}
