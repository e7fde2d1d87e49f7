//! Answers worked out by hand, as theorems about the definitions alone: no code runs, the definitions are computed.
//!
//! The book is that of four imports, each of which declares something: the network `metro`, its PIDs `east`, `west` and
//! `south`. What the checker can't compute isn't here, and is shown by tests: the routes of `matchit` and the reading
//! of JSON texts.
#![tactic(auto)]

mod edges;
mod imports;
mod maps;
mod views;
mod walks;

pub use edges::{
    a_snapshot_is_of_its_own_number, an_edge_adds_its_groups, an_edge_below_the_window_is_gone,
    what_is_no_edge_is_not_found, what_lies_ahead_is_awaited_or_too_early,
};
pub use imports::{
    a_bad_name_tells_row_and_column, a_known_import_is_told_again,
    a_refused_import_names_row_and_rule, records_and_items_are_edits,
};
pub use maps::a_map_is_of_a_declared_network;
pub use views::a_view_tells_the_longest_edge_onward;
pub use walks::a_walk_leads_to_the_map;
