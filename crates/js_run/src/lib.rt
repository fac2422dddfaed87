//! The program `jsparse` as a library: from the words of a command line, a source of bytes and a sink for them to the status that
//! a process ends with.
#![tactic(auto)]

mod answer;
mod ends;
mod failing;
mod laws;
mod lines;
mod program;
mod room;
mod standard;
mod status;
mod steady;
mod words;

pub use ends::{Failed, Sink, Source};
pub use failing::FailingSource;
pub use js_parser;
pub use laws::run_steady;
pub use program::run;
pub use room::RoomSink;
pub use standard::{StdinSource, StdoutSink};
pub use status::Status;
pub use steady::SteadySource;
pub use words::{Print, Settings, WordsError, read_words};
