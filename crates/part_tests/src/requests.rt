//! Requests and connections to a gate over a settings file, and to engines and streams that fail.
mod broken;
mod clients;
mod engines;
mod gates;
mod scenes;
mod streams;
mod texts;
mod torn;
