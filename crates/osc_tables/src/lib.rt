//! The page tables of one process as the kernel keeps them. Each change also pushes the jobs that
//! make the words of memory agree with it; that they do, and that a walk over the words then gives
//! exactly the kept mapping, are the laws that stand beside `Tables`. There are three levels or four.
#![tactic(auto)]

mod kept;
mod needs;
mod numbers;
mod page_list;
mod table_list;

pub use kept::Tables;
pub use osc_paging::{
    TablePlace, changes_keep_agreement, mapping_takes_need, stores_elsewhere_keep,
    tables_stand_above, walk_gives_mapping,
};

#[cfg(test)]
mod tests;
