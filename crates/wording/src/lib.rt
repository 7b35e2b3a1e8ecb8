// The words of the program `rules`: what it says of entries, names, tokens and faults, and its options and files. It is proved safe and to end.
#![tactic(auto)]

pub mod archive;
pub mod archive_name;
pub mod characters;
pub mod day;
pub mod fault;
pub mod files;
pub mod forms;
pub mod inputs;
pub mod items;
pub mod layout;
pub mod lexed;
pub mod lookup;
pub mod marks;
pub mod near;
pub mod options;
pub mod out;
pub mod parts;
pub mod reference;
pub mod rewritten;
pub mod rows;
pub mod say;
pub mod seen;
pub mod sheet_fault;
pub mod sheets;
pub mod shop;
pub mod source;
pub mod split;
pub mod stands;
pub mod title;
pub mod topic;
pub mod trial;
pub mod unlisted;
pub mod unnamed;
pub mod value;
