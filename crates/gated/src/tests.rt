//! Whole runs of the program, over words, streams and files.

mod claims;
mod commands;
mod faults;
mod files;
mod machine;
mod order;
mod serving;
mod sessions;
mod streams;
mod texts;
mod words;
