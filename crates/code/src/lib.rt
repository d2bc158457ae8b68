// Code as a tree without label names: its items, listing and lines, and what ties them.
#![tactic(auto)]

// The field of a word that holds its distance to a label.
#[derive(Clone, Copy)]
pub enum Fix {
    B26,
    B19,
    B14,
    Adr21,
}
