//! The laws of control histories, each as the contract of a function that does nothing.

pub use law_strands::laws::{
    across_law, address_law, answer_law, branch_address_law, branch_law, count_law, dag_law,
    examples_law, finish_law, gathering_law, join_law, lists_law, numbers_law, orders_law,
    running_law, serial_law, stability_law, view_law,
};
