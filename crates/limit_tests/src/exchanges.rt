//! Requests over HTTP, each on a connection of its own, with the responses that `docs/FORMATS.md` says.
use crate::claims::{holds, is_long};
use crate::streams::{CLOSED, Clients};
use gate_archive::Archive;
use gate_core::Gate;
use gate_http::serve;
use gate_types::tap::Tap;
use std::alloc::{AllocError, Global};
use std::cell::{Cell, RefCell};
use std::process::Abort;
use std::str::from_utf8;

/// What clients send, one after another, and all that they are to get.
#[derive(Drop)]
pub(crate) struct Exchanges {
    alloc: Global,
    requests: Vec<String>,
    responses: String,
}

/// The door of a delivery.
fn door(delivery: &str) -> &'static str {
    if delivery.contains("\"kind\":\"take\"") || delivery.contains("\"kind\":\"result\"") {
        "worker"
    } else {
        "forge"
    }
}

/// The status of an answer: here no other refusal comes than that there is nothing to build.
fn status_of(answer: &str) -> &'static str {
    if answer.starts_with("{\"code\":\"E12\"") {
        "404 Not Found"
    } else {
        "200 OK"
    }
}

impl Exchanges {
    pub(crate) fn new(alloc: Global) -> Self {
        Self {
            alloc,
            requests: Vec::new(alloc),
            responses: String::new(alloc),
        }
    }

    /// A delivery is answered.
    fn post(&mut self, delivery: &str, answer: &str) -> Result<(), AllocError> {
        let door = door(delivery);
        let length = delivery.len();
        let request = format!(in self.alloc;
            "POST /{door} HTTP/1.1\r\nHost: gate\r\nContent-Length: {length}\r\n\r\n{delivery}"
        )?;
        self.requests.push(request)?;
        self.respond(status_of(answer), "application/json", answer)
    }

    /// The page at a path is of this type, and has this text.
    pub(crate) fn get(&mut self, path: &str, kind: &str, text: &str) -> Result<(), AllocError> {
        self.ask(path)?;
        self.respond("200 OK", kind, text)
    }

    /// What is written line by line at a path is this text. It has no length.
    pub(crate) fn stream(&mut self, path: &str, text: &str) -> Result<(), AllocError> {
        self.ask(path)?;
        self.responses.push_str(
            "HTTP/1.1 200 OK\r\nContent-Type: text/plain\r\nConnection: close\r\n\r\n",
        )?;
        self.responses.push_str(text)?;
        self.responses.push_str(CLOSED)
    }

    /// The deliveries of a talk get its answers.
    pub(crate) fn talk(&mut self, talk: &str) -> Result<(), AllocError> {
        for part in talk.split("> ") {
            if let Some((delivery, answer)) = part.split_once("\n< ") {
                self.post(delivery, answer.trim_end())?;
            }
        }
        Ok(())
    }

    fn ask(&mut self, path: &str) -> Result<(), AllocError> {
        let request = format!(in self.alloc; "GET {path} HTTP/1.1\r\nHost: gate\r\n\r\n")?;
        self.requests.push(request)?;
        Ok(())
    }

    fn respond(&mut self, status: &str, kind: &str, text: &str) -> Result<(), AllocError> {
        let length = text.len();
        write!(
            self.responses,
            "HTTP/1.1 {status}\r\nContent-Type: {kind}\r\nContent-Length: {length}\r\nConnection: close\r\n\r\n\
             {text}{CLOSED}"
        )
    }
}

/// Whether all clients are served, without a fault that is told.
fn all_served<B: Archive>(
    alloc: Global,
    gate: &mut Gate<B>,
    requests: &[String],
    got: &RefCell<Vec<u8>>,
) -> bool {
    let clients = Clients {
        requests,
        next: Cell::new(0),
        got,
    };
    let mut errors = Tap::new(Vec::new(alloc));
    let served = serve(alloc, &clients, gate, requests.len() as u64, &mut errors);
    served.is_ok() && errors.into_inner().is_empty()
}

/// Each client gets its response.
pub(crate) fn are_served<B: Archive>(
    rt: &(impl Abort + AllocGlobal),
    gate: &mut Gate<B>,
    exchanges: &Exchanges,
    title: &str,
) {
    let got = RefCell::new(Vec::new(rt.alloc()));
    let requests = exchanges.requests.as_slice();
    holds(rt, all_served(rt.alloc(), gate, requests, &got), title);
    let got = got.into_inner();
    let got = from_utf8(got.as_slice()).ok().expect(rt, title);
    is_long(rt, got, exchanges.responses.as_str(), title);
}
