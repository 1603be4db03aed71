//! Single calls of the parts below a screen, with values written out: regions, marks, pictures, lists of spans and of viewers,
//! encoders, and what is heard and answered; and regions beside plain lists of rectangles over long rows of calls. There are tests here,
//! and nothing else.
#![tactic(auto)]

#[cfg(test)]
mod tests;
