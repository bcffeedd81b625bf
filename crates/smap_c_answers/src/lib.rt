//! What the calls of the C library come to, apart from its handles: their codes, what they copy into a
//! buffer, what they answer about URLs and names, the words of a fault, how much memory a map takes, and the
//! mappings string of mappings that are given as numbers.
#![tactic(auto)]

mod answers;
mod codes;
mod fault_words;
mod memory;
mod named;
mod spelling;
mod strings;

pub use answers::{
    are_alike, data_answer, file_path_answer, file_url_answer, form_answer, link_in,
    resolved_answer, script_name_answer, script_url_answer,
};
pub use codes::{
    CLOSED, LIMITS, MEMORY, NONE, NOT_BASE64, NOT_URL, NOT_UTF8, OK, RANGE, REFUSED, TOO_MANY,
    URL_BYTES, code_name,
};
pub use fault_words::fault_text;
pub use memory::memory_of;
pub use named::{number_of, number_of_kind};
pub use spelling::{MappingNumbers, first_wrong, is_mapping, spelled, token_of};
pub use strings::{copy_out, report_bytes, report_text};
