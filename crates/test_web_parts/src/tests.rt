//! `opening` has the requests with what they are answered, `stream` the frames behind them.

mod opening;
mod stream;
