//! What single statements do: the declaration of a `type` statement, a resource that is put into the list unless a
//! protected one is in its place, the statements over lists of resources, and the words that name the tools. Each gives
//! exactly what its definition says, or the first fault. Of the resources of a file that is included those alone are
//! copied that are put into the list.
//! It rests on `rz_core`, `rz_folder`, `rz_lex`, `rz_words`, `rz_expr`, `rz_pre`, `rz_types_fields`, `rz_types`,
//! `rz_types_table`, `rz_types_check`, `rz_stmt_data`, `rz_stmt_type`, `rz_stmt_lists`, `rz_fork`, `rz_bridge`,
//! `rz_bridge_files`, `rz_set`, `rz_tools_values` and `rz_tools_answer`, of which it needs warnings. `step` of
//! `rz_tools` calls it, one statement after the other.
//! A new part of a header changes `renaming`, and `head` of `rz_tools_values`; a new warning is one more place that
//! adds to `warnings` of `Work`; a new statement over lists is one more arm of `lists`.
#![tactic(auto)]

mod change;
mod declare;
mod include;
mod lent;
mod lists;
mod pick;
mod putting;
mod read;
mod renaming;
mod tool_words;
mod work;

pub use declare::declare_type;
pub use lists::list_step;
pub use putting::put;
pub use tool_words::number_tool_words;
pub use work::Work;
