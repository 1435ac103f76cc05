//! Small queues that are settled and walked over, and the builds that are due in them.
mod asked;
mod board;
mod choices;
mod counting;
mod cuts;
mod lives;
mod rising;
mod scenes;
mod settlings;
mod told;
mod walking;
mod walks;
mod windows;
mod words;
