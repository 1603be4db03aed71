//! What no line of a script says: `lists` has lists with every kind of event and their answers, `answers` compares these where an
//! allocation fails, and `kept` looks at the history that is kept. Scripts with their answers are in `examples`.
//!
//! A function that owns a screen lends it to others: each place where it may end on its way would be one more to prove.

mod answers;
mod kept;
mod lists;
