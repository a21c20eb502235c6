// The functions of surface under their names for C, which include/tinoweala.h declares: each export is one call.
#![tactic(auto)]

mod columns;
mod groups;
mod tables;
mod texts;
