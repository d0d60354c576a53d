// What the words of a book and the code of its rules spell, laid over a buffer: fields, the lines of what is declared, the lines of rules.
#![tactic(auto)]

pub mod field;
pub mod line;
pub mod rule;
