//! A page about a job: one HTML file with its text, its chart, its story, its faults and its races.
//!
//! The layer promises that the page is made of the answers that the other commands give (`specs/Pages.antt`), each line escaped,
//! and that it is well formed for every job and every input.
#![tactic(auto)]

mod cut;
mod front;
mod job;
mod kind;
mod lines;
mod making;
mod markup;
mod pages;
mod places;
mod rows;
mod style;
mod tables;
mod views;
mod warnings;

pub use making::page;
